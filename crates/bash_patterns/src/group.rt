ghost use Rattle.std.specs.Prelude.{◌≡◌, ◌+◌, ◌≤◌, length, IfOk};
ghost use Rattle.std.specs.Option.{option_map};
ghost use Rattle.bash_patterns.specs.Groups.{alternatives_at, between, group_kind, kind_of_byte};
ghost use Rattle.bash_patterns.specs.Seen.{seen_alternatives};

use crate::bracket_reader::read_bracket;
use crate::symbol::{Role, Symbol, split_symbol};
use eb_bytes::Memory;
use std::alloc::Global;

/// The kinds of extended groups.
#[derive(Clone, Copy)]
pub enum GroupKind {
    /// `?(..)`
    AtMostOnce,
    /// `*(..)`
    AnyTimes,
    /// `+(..)`
    OnceOrMore,
    /// `@(..)`
    Once,
    /// `!(..)`
    NoneOf,
}

/// The kind of the group that this symbol and an opening parenthesis after it begin, if they do.
pub fn group_kind(symbol: Symbol, behind: &[Symbol]) -> Option<GroupKind>
    ensures { result ≡ group_kind symbol behind.now }
{
    match symbol {
        Symbol::Unquoted(byte) => match behind {
            [Symbol::Unquoted(b'('), ..] => kind_of_byte(byte),
            _ => None,
        },
        Symbol::Quoted(_) => None,
    }
}

fn kind_of_byte(byte: u8) -> Option<GroupKind>
    ensures { result ≡ kind_of_byte byte }
{
    match byte {
        b'?' => Some(GroupKind::AtMostOnce),
        b'*' => Some(GroupKind::AnyTimes),
        b'+' => Some(GroupKind::OnceOrMore),
        b'@' => Some(GroupKind::Once),
        b'!' => Some(GroupKind::NoneOf),
        _ => None,
    }
}

/// The alternatives of a group, and what stands after it.
#[derive(Drop)]
pub struct Alternatives<'s> {
    pub list: Vec<&'s [Symbol]>,
    pub rest: &'s [Symbol],
}

/// The alternatives of the group whose opening parenthesis stands before these symbols, if it closes.
///
/// # Errors
/// `Memory` where there is no room for them.
pub fn alternatives_at(
    alloc: Global,
    symbols: &[Symbol],
) -> Result<Option<Alternatives<'_>>, Memory>
    ensures { IfOk result (λ found. option_map seen_alternatives found ≡ alternatives_at symbols.now) }
{
    let mut list = Vec::new(alloc);
    let mut start = 0;
    let mut depth = 0usize;
    let mut rest = symbols;
    while let Some((symbol, behind)) = split_symbol(rest) {
        match symbol.role() {
            Role::GroupOpening => {
                depth += 1;
                rest = behind;
            }
            Role::GroupClosing => {
                if depth == 0 {
                    list.push(between(symbols, start, rest))?;
                    return Ok(Some(Alternatives { list, rest: behind }));
                }
                depth -= 1;
                rest = behind;
            }
            Role::Bar => {
                if depth == 0 {
                    list.push(between(symbols, start, rest))?;
                    start = symbols.len() - behind.len();
                }
                rest = behind;
            }
            Role::BracketOpening => {
                let Some(read) = read_bracket(alloc, behind)? else {
                    return Ok(None);
                };
                rest = read.rest;
            }
            _ => rest = behind,
        }
    }
    Ok(None)
}

// What stands from a place up to what is left.
fn between<'s>(symbols: &'s [Symbol], start: usize, rest: &[Symbol]) -> &'s [Symbol]
    requires { start + length rest.now ≤ length symbols.now }
    ensures { result.now ≡ between symbols.now start rest.now }
{
    &symbols[start..symbols.len() - rest.len()]
}
