ghost use Rattle.std.specs.Prelude.{◌≡◌};
ghost use Rattle.word_meaning.specs.Tilde.{operand_sign as sign_in_operand, sign as sign_in_word};
ghost use Rattle.expand_tildes.specs.Seen.{sign_of};

use eb_syntax::{PW, Piece, Plain};

/// What a part of a word is, as far as tildes go.
#[derive(Clone, Copy)]
pub enum Sign {
    /// `~`
    Tilde,
    /// `/`
    Slash,
    /// `:`
    Colon,
    /// A backslash and a newline, which stand for nothing.
    Gone,
    /// Anything else.
    Other,
}

/// What a piece of a word is: only an unquoted byte is a sign.
pub fn sign_of_piece(piece: &Piece) -> Sign
    ensures { sign_of result ≡ sign_in_word piece.now }
{
    match piece {
        Piece::Continuation => Sign::Gone,
        Piece::Plain(Plain::Byte(byte)) => match *byte {
            b'~' => Sign::Tilde,
            b'/' => Sign::Slash,
            b':' => Sign::Colon,
            _ => Sign::Other,
        },
        _ => Sign::Other,
    }
}

/// The same of a part of the word of an operator: nothing in double quotes is a sign.
pub fn sign_of_operand(part: &PW) -> Sign
    ensures { sign_of result ≡ sign_in_operand part.now }
{
    match part {
        PW::Piece(piece) => sign_of_piece(piece),
        PW::Byte(_) | PW::Double(_) | PW::Quoted(_) => Sign::Other,
    }
}
