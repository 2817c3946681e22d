ghost use Rattle.std.specs.Prelude.{◌≡◌, [], ◌∷◌, IfOk, MatchOption};
ghost use Rattle.bash_patterns.specs.Symbols.{byte_of, byte_role, role_of, symbols_of};

use eb_bytes::Memory;
use shell_marks::Mark;
use std::alloc::Global;

/// A byte of a pattern, and whether it is quoted.
#[derive(Clone, Copy)]
pub enum Symbol {
    /// A byte that may mean more than itself.
    Unquoted(u8),
    /// A byte that stands for itself.
    Quoted(u8),
}

/// What a symbol can do.
#[derive(Clone, Copy)]
pub enum Role {
    /// `(`
    GroupOpening,
    /// `)`
    GroupClosing,
    /// `|`
    Bar,
    /// `[`
    BracketOpening,
    /// `]`
    BracketClosing,
    /// `*`
    Star,
    /// `?`
    Question,
    /// Nothing but to be itself.
    Other,
}

impl Symbol {
    pub fn byte(self) -> u8
        ensures { result ≡ byte_of self }
    {
        match self {
            Symbol::Unquoted(byte) | Symbol::Quoted(byte) => byte,
        }
    }

    pub fn role(self) -> Role
        ensures { result ≡ role_of self }
    {
        match self {
            Symbol::Unquoted(byte) => byte_role(byte),
            Symbol::Quoted(_) => Role::Other,
        }
    }
}

fn byte_role(byte: u8) -> Role
    ensures { result ≡ byte_role byte }
{
    match byte {
        b'(' => Role::GroupOpening,
        b')' => Role::GroupClosing,
        b'|' => Role::Bar,
        b'[' => Role::BracketOpening,
        b']' => Role::BracketClosing,
        b'*' => Role::Star,
        b'?' => Role::Question,
        _ => Role::Other,
    }
}

/// The first of these symbols, and those after it.
pub fn split_symbol(symbols: &[Symbol]) -> Option<(Symbol, &[Symbol])>
    ensures { MatchOption result (symbols.now ≡ []) (λ parts. symbols.now ≡ parts.0 ∷ parts.1.now) }
{
    match symbols {
        [symbol, behind @ ..] => Some((*symbol, behind)),
        [] => None,
    }
}

/// The symbols of a pattern. An unquoted backslash quotes the next byte; one that nothing follows is itself. Empty and
/// Break marks stand for nothing.
///
/// # Errors
/// `Memory` where there is no room for them.
pub fn symbols_of(alloc: Global, marks: &[Mark]) -> Result<Vec<Symbol>, Memory>
    ensures { IfOk result (λ symbols. symbols.items ≡ symbols_of marks.now) }
{
    let mut symbols = Vec::new(alloc);
    let mut quotes = false;
    for mark in marks {
        match mark {
            Mark::Literal(byte) | Mark::Result(byte) => {
                if quotes {
                    symbols.push(Symbol::Quoted(*byte))?;
                    quotes = false;
                } else if *byte == b'\\' {
                    quotes = true;
                } else {
                    symbols.push(Symbol::Unquoted(*byte))?;
                }
            }
            Mark::Quoted(byte) => {
                symbols.push(Symbol::Quoted(*byte))?;
                quotes = false;
            }
            Mark::Empty | Mark::Break => {}
        }
    }
    if quotes {
        symbols.push(Symbol::Quoted(b'\\'))?;
    }
    Ok(symbols)
}
