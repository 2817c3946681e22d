//! Pieces and words, each with what it is in the delimiter of a here-document.

ghost use Rattle.std.specs.Prelude.{◌≡◌, [], ◌∷◌, ◌++◌, map, MatchResult};
ghost use Rattle.bash_redirs.specs.Delimiters.{added};
ghost use Rattle.eb_grammar.specs.AnsiText.{ansi_text as ansi_value};
ghost use Rattle.eb_grammar.specs.HereDocuments as here;
ghost use Rattle.eb_syntax.specs.Tree.{word_of_pieces};
ghost use Rattle.std.specs.List.{flat_map};

use crate::lists::{copied, word_of};
use crate::pairs::Pairs;
use crate::unquoted::Unquoted;
use bash_cursor::LexErr;
use bash_reading::{list_with, shared};
use eb_bytes::Bytes;
use eb_grammar::ansi_text;
use eb_syntax::{GroupPart, Piece, QPiece, Word};
use std::alloc::Global;

// These texts, one after the other.
fn concatenated(alloc: Global, texts: &[Bytes]) -> Result<Bytes, LexErr>
    ensures { MatchResult result (λ bytes. bytes ≡ flat_map (λ text. text) texts.now) (λ e. e ≡ LexErr.Memory) }
{
    let mut bytes = Bytes::new(alloc);
    for text in texts {
        bytes.extend(text.as_slice())?;
    }
    Ok(bytes)
}

// The piece of these double quotes, with its bytes in the delimiter.
#[tactic(auto, using(crate::proofs::DelimiterParts::all_bytes_are))]
pub fn double_of(
    alloc: Global,
    translated: bool,
    found: Pairs<QPiece, Bytes>,
) -> Result<(Piece, Unquoted), LexErr>
    ensures { MatchResult result (λ told. told ≡ (Piece.Double translated (map (λ x. x.0) found), here.quoted (here.all_bytes found))) (λ e. e ≡ LexErr.Memory) }
{
    let bytes = concatenated(alloc, found.seconds())?;
    let pieces = shared(alloc, found.firsts())?;
    Ok((Piece::Double(translated, pieces), Unquoted::quoted(bytes)))
}

// The group of these parts, with its bytes in the delimiter.
pub fn group_of(
    alloc: Global,
    kind: u8,
    found: Pairs<GroupPart, Unquoted>,
) -> Result<(Piece, Unquoted), LexErr>
    ensures { MatchResult result (λ told. told ≡ (Piece.Group kind (map (λ x. x.0) found), here.joined (here.bare (kind ∷ 40 ∷ []) ∷ map (λ x. x.1) found ++ here.bare (41 ∷ []) ∷ []))) (λ e. e ≡ LexErr.Memory) }
{
    let told = Unquoted::of_group(alloc, kind, found.seconds())?;
    let parts = shared(alloc, found.firsts())?;
    Ok((Piece::Group(kind, parts), told))
}

// The text of `$'..'`, with its escapes replaced.
fn ansi_bytes(alloc: Global, text: &[u8]) -> Result<Bytes, LexErr>
    ensures { MatchResult result (λ bytes. bytes ≡ ansi_value text.now) (λ e. e ≡ LexErr.Memory) }
{
    Ok(ansi_text(alloc, text)?)
}

// The piece `'..'`, with its bytes in the delimiter.
pub fn single_of(alloc: Global, text: Bytes) -> Result<(Piece, Unquoted), LexErr>
    ensures { MatchResult result (λ told. told ≡ (Piece.Single text, here.quoted text)) (λ e. e ≡ LexErr.Memory) }
{
    let bytes = copied(alloc, text.as_slice())?;
    Ok((Piece::Single(shared(alloc, text)?), Unquoted::quoted(bytes)))
}

// The piece `$'..'`, with its bytes in the delimiter.
pub fn ansi_of(alloc: Global, text: Bytes) -> Result<(Piece, Unquoted), LexErr>
    ensures { MatchResult result (λ told. told ≡ (Piece.Ansi text, here.quoted (ansi_value text))) (λ e. e ≡ LexErr.Memory) }
{
    let bytes = ansi_bytes(alloc, text.as_slice())?;
    Ok((Piece::Ansi(shared(alloc, text)?), Unquoted::quoted(bytes)))
}

// The word of these pieces, with the delimiter that it makes.
pub fn word_told(
    alloc: Global,
    first: (Piece, Unquoted),
    others: Pairs<Piece, Unquoted>,
) -> Result<(Word, Unquoted), LexErr>
    ensures { MatchResult result (λ told. told ≡ (word_of_pieces (first.0 ∷ map (λ x. x.0) others), added first.1 (here.joined (map (λ x. x.1) others)))) (λ e. e ≡ LexErr.Memory) }
{
    let (piece, mut told) = first;
    told.add(&Unquoted::of_all(alloc, others.seconds())?)?;
    let pieces = list_with(alloc, piece, others.firsts())?;
    Ok((word_of(alloc, pieces)?, told))
}
