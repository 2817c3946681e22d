ghost use Rattle.std.specs.Prelude.{◌≡◌, ◌&&◌, map};
ghost use Rattle.word_meaning.specs.Tilde.{after_colon as after_colon_of, ends_tilde, is_tilde as is_tilde_of, may_begin as may_begin_of, may_follow as may_follow_of, operand_sign as sign_in_operand, sign as sign_in_word};
ghost use Rattle.expand_tildes.specs.Seen.{sign_of};

use crate::signs::{Sign, sign_of_operand, sign_of_piece};
use eb_syntax::{PW, Piece};
use word_meaning::Tildes;

/// Whether a tilde may stand at the start.
pub fn may_begin(tildes: Tildes) -> bool
    ensures { result ≡ may_begin_of tildes }
{
    match tildes {
        Tildes::Nowhere => false,
        Tildes::AtStart | Tildes::InValue => true,
    }
}

// Whether a tilde may stand after a colon.
fn after_colon(tildes: Tildes) -> bool
    ensures { result ≡ after_colon_of tildes }
{
    match tildes {
        Tildes::Nowhere | Tildes::AtStart => false,
        Tildes::InValue => true,
    }
}

/// Whether a tilde may stand after a sign, where `may` says whether it might in its place.
pub fn may_follow(tildes: Tildes, may: bool, sign: Sign) -> bool
    ensures { result ≡ may_follow_of tildes may (sign_of sign) }
{
    match sign {
        Sign::Gone => may,
        Sign::Colon => after_colon(tildes),
        Sign::Tilde | Sign::Slash | Sign::Other => false,
    }
}

// Whether a sign is a tilde.
fn is_tilde(sign: Sign) -> bool
    ensures { result ≡ is_tilde_of (sign_of sign) }
{
    matches!(sign, Sign::Tilde)
}

// Whether a tilde before these pieces stands alone.
fn ends_piece(tildes: Tildes, pieces: &[Piece]) -> bool
    ensures { result ≡ ends_tilde tildes (map sign_in_word pieces.now) }
{
    for piece in pieces {
        match sign_of_piece(piece) {
            Sign::Gone => {}
            Sign::Slash => return true,
            Sign::Colon => return after_colon(tildes),
            Sign::Tilde | Sign::Other => return false,
        }
    }
    true
}

// Whether a tilde before these parts of the word of an operator stands alone.
fn ends_operand(tildes: Tildes, parts: &[PW]) -> bool
    ensures { result ≡ ends_tilde tildes (map sign_in_operand parts.now) }
{
    for part in parts {
        match sign_of_operand(part) {
            Sign::Gone => {}
            Sign::Slash => return true,
            Sign::Colon => return after_colon(tildes),
            Sign::Tilde | Sign::Other => return false,
        }
    }
    true
}

/// Whether a piece stands for HOME, where `may` says whether a tilde may stand in its place, and these pieces stand behind it.
pub fn is_home(tildes: Tildes, may: bool, piece: &Piece, behind: &[Piece]) -> bool
    ensures { result ≡ (may && is_tilde_of (sign_in_word piece.now) && ends_tilde tildes (map sign_in_word behind.now)) }
{
    may && is_tilde(sign_of_piece(piece)) && ends_piece(tildes, behind)
}

/// The same of a part of the word of an operator.
pub fn is_home_in_operand(tildes: Tildes, may: bool, part: &PW, behind: &[PW]) -> bool
    ensures { result ≡ (may && is_tilde_of (sign_in_operand part.now) && ends_tilde tildes (map sign_in_operand behind.now)) }
{
    may && is_tilde(sign_of_operand(part)) && ends_operand(tildes, behind)
}
