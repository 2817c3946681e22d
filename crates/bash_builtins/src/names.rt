ghost use Rattle.std.specs.Prelude.{◌≡◌};
ghost use Rattle.bash_builtins.specs.Builtins.{builtin_named, declaration_named, other_named, plain_named};

use eb_syntax::DeclName;

/// A builtin.
#[derive(Clone, Copy, PartialEq, Eq)]
pub enum Builtin {
    /// One that neither runs commands, nor jumps, nor changes the parameters: [`run_builtin`](crate::run_builtin) runs it.
    Plain(Plain),
    /// `declare`, `typeset`, `local`, `export` or `readonly`
    Declaration(DeclName),
    /// `[`, which is `test` with `]` after its words
    Bracket,
    Break,
    Continue,
    Eval,
    Let,
    Return,
    Set,
    Shift,
    Test,
    Unset,
}

/// A builtin that neither runs commands, nor jumps, nor changes the parameters.
#[derive(Clone, Copy, PartialEq, Eq)]
pub enum Plain {
    /// `:`
    Colon,
    True,
    False,
    Echo,
    Printf,
    Read,
    Shopt,
}

/// The builtin of this name; `None` exactly where there is none.
pub fn builtin_of(name: &[u8]) -> Option<Builtin>
    ensures { result ≡ builtin_named name.now }
{
    if let Some(plain) = plain_of(name) {
        return Some(Builtin::Plain(plain));
    }
    if let Some(declaration) = declaration_of(name) {
        return Some(Builtin::Declaration(declaration));
    }
    other_of(name)
}

fn plain_of(name: &[u8]) -> Option<Plain>
    ensures { result ≡ plain_named name.now }
{
    if name == b":".as_slice() {
        Some(Plain::Colon)
    } else if name == b"true".as_slice() {
        Some(Plain::True)
    } else if name == b"false".as_slice() {
        Some(Plain::False)
    } else if name == b"echo".as_slice() {
        Some(Plain::Echo)
    } else if name == b"printf".as_slice() {
        Some(Plain::Printf)
    } else if name == b"read".as_slice() {
        Some(Plain::Read)
    } else if name == b"shopt".as_slice() {
        Some(Plain::Shopt)
    } else {
        None
    }
}

fn declaration_of(name: &[u8]) -> Option<DeclName>
    ensures { result ≡ declaration_named name.now }
{
    if name == b"declare".as_slice() {
        Some(DeclName::Declare)
    } else if name == b"typeset".as_slice() {
        Some(DeclName::Typeset)
    } else if name == b"local".as_slice() {
        Some(DeclName::Local)
    } else if name == b"export".as_slice() {
        Some(DeclName::Export)
    } else if name == b"readonly".as_slice() {
        Some(DeclName::Readonly)
    } else {
        None
    }
}

fn other_of(name: &[u8]) -> Option<Builtin>
    ensures { result ≡ other_named name.now }
{
    if name == b"[".as_slice() {
        Some(Builtin::Bracket)
    } else if name == b"break".as_slice() {
        Some(Builtin::Break)
    } else if name == b"continue".as_slice() {
        Some(Builtin::Continue)
    } else if name == b"eval".as_slice() {
        Some(Builtin::Eval)
    } else if name == b"let".as_slice() {
        Some(Builtin::Let)
    } else if name == b"return".as_slice() {
        Some(Builtin::Return)
    } else if name == b"set".as_slice() {
        Some(Builtin::Set)
    } else if name == b"shift".as_slice() {
        Some(Builtin::Shift)
    } else if name == b"test".as_slice() {
        Some(Builtin::Test)
    } else if name == b"unset".as_slice() {
        Some(Builtin::Unset)
    } else {
        None
    }
}
