ghost use Rattle.std.specs.Prelude.{◌≡◌};
ghost use Rattle.bash_patterns.specs.Form.{passes as passes_test};
ghost use Rattle.bash_patterns.specs.Walk.{passes_next as passes_next_of};

use crate::bracket::Bracket;

/// What one byte of a text is asked.
#[derive(Drop)]
pub enum Test {
    /// To be this byte.
    Byte(u8),
    /// Nothing.
    Any,
    /// To match a bracket expression.
    Bracket(Bracket),
}

impl Test {
    /// Whether the byte passes.
    pub fn passes(&self, byte: u8) -> bool
        ensures { result ≡ passes_test self.now byte }
    {
        match self {
            Test::Byte(own) => byte == *own,
            Test::Any => true,
            Test::Bracket(bracket) => bracket.has(byte),
        }
    }

    /// Whether there is a byte, and it passes.
    pub fn passes_next(&self, byte: Option<u8>) -> bool
        ensures { result ≡ passes_next_of self.now byte }
    {
        match byte {
            Some(byte) => self.passes(byte),
            None => false,
        }
    }
}
