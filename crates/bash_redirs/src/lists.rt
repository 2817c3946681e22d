//! Lists and texts of what was read.

ghost use Rattle.std.specs.Prelude.{◌≡◌, ◌-◌, [], ◌∷◌, ◌++◌, take, MatchResult};
ghost use Rattle.eb_syntax.specs.Tree.{word_of_pieces};

use bash_cursor::LexErr;
use eb_bytes::Bytes;
use eb_syntax::{Piece, Word};
use shared::Shared;
use sqlite_items::Items as List;
use std::alloc::Global;

// Puts an element at the end of a list.
pub fn put<T: Drop>(list: &mut List<T>, item: T) -> Result<(), LexErr>
    ensures { MatchResult result (λ _. list.new ≡ list.old ++ item ∷ []) (λ e. e ≡ LexErr.Memory) }
{
    list.push(item)?;
    Ok(())
}

// The value, held so that it can be shared.
pub fn shared<T: Drop>(alloc: Global, value: T) -> Result<Shared<T>, LexErr>
    ensures { MatchResult result (λ held. held ≡ value) (λ e. e ≡ LexErr.Memory) }
{
    Ok(Shared::new(alloc, value)?)
}

// A copy of a text.
pub fn copied(alloc: Global, text: &[u8]) -> Result<Bytes, LexErr>
    ensures { MatchResult result (λ bytes. bytes ≡ text.now) (λ e. e ≡ LexErr.Memory) }
{
    Ok(Bytes::from_slice(alloc, text)?)
}

// What a text begins with, from one place to another one.
pub fn between(alloc: Global, text: &[u8], from: usize, to: usize) -> Result<Bytes, LexErr>
    ensures { MatchResult result (λ bytes. bytes ≡ take (to - from) text.now) (λ e. e ≡ LexErr.Memory) }
{
    let count = to.saturating_sub(from).min(text.len());
    copied(alloc, &text[..count])
}

// The word of these pieces.
pub fn word_of(alloc: Global, pieces: List<Piece>) -> Result<Word, LexErr>
    ensures { MatchResult result (λ word. word ≡ word_of_pieces pieces) (λ e. e ≡ LexErr.Memory) }
{
    Ok(Word::of(alloc, pieces)?)
}

// An element and those after it.
pub fn list_with<T: Drop>(alloc: Global, first: T, others: List<T>) -> Result<List<T>, LexErr>
    ensures { MatchResult result (λ list. list ≡ first ∷ others) (λ e. e ≡ LexErr.Memory) }
{
    let mut list = List::new(alloc);
    list.push(first)?;
    list.append(others)?;
    Ok(list)
}
