ghost use Rattle.std.specs.Prelude.{◌≡◌, ◌<◌, ◌≤◌, length, IfOk, IfErr};
ghost use Rattle.bash_braces.specs.Braces.{as_words, braces, Refuses};
ghost use Rattle.bash_braces.specs.Symbols.{tokens_of_symbols};

use crate::counts::LIMIT;
use crate::error::BraceErr;
use crate::groups::pieces;
use crate::reading::made;
use crate::token::{Token, tokens};
use crate::words::Words;
use eb_bytes::Memory;
use eb_syntax::Word;
use sqlite_items::Items;
use std::alloc::Global;

/// The words that a word's braces give, in order (Bash Reference Manual, "Brace Expansion"): one word or more.
///
/// `{a,b}` gives each of its alternatives, `{x..y}` and `{x..y..i}` the numbers or the letters from `x` towards `y`,
/// with what stands before and after; the first braces of a word change slowest. A `}` belongs to the nearest `{` before
/// it that no other `}` in between belongs to. Braces inside quotes, of `${`, with no comma at their own level and no
/// sequence inside, or without the other brace, are text. Braces are expanded in the text of the word, also inside its
/// extended groups: a `$NAME` goes on through the name bytes that come to stand after it, and the start of a group
/// belongs to the nearest `)` that comes to stand after it; one without the other is text. The words share with `word`
/// what no braces stand in.
///
/// # Errors
/// `TooMany` where they are more than 65,536, which is found before any word is made; `Memory` where there is no room
/// for them.
pub fn braces(alloc: Global, word: &Word) -> Result<Vec<Word>, BraceErr>
    ensures words { IfOk result (λ list. (list.items ≡ braces word.now) × (length (braces word.now) ≤ 65536)) }
    ensures error { IfErr result (Refuses word.now) }
{
    let pieces = word.pieces.get().as_slice();
    let text = tokens(alloc, pieces)?;
    let all = text.as_slice();
    if LIMIT < made::<u64>(alloc, all)? {
        return Err(BraceErr::TooMany);
    }
    Ok(as_words(alloc, all, made(alloc, all)?)?)
}

// The words of these symbols, where `tokens` are those of the word that was read.
fn as_words(alloc: Global, tokens: &[Token], mut words: Words) -> Result<Vec<Word>, Memory>
    ensures { IfOk result (λ list. list.items ≡ as_words (tokens_of_symbols tokens.now words)) }
{
    let mut all = Vec::new(alloc);
    while let Some(word) = words.take_first() {
        let pieces = pieces(alloc, tokens, word)?;
        all.push(Word::of(alloc, Items::from_vec(pieces.into_vec()))?)?;
    }
    Ok(all)
}
