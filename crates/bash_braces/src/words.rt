ghost use Rattle.std.specs.Prelude.{◌≡◌, ◌++◌, ◌∷◌, [], List, map, OnOk, IfOk};
ghost use Rattle.bash_braces.specs.declared.symbol.Symbol.{Symbol};
ghost use Rattle.bash_braces.specs.declared.symbol.Symbol.TheVariants.{Byte};
ghost use Rattle.bash_braces.specs.Symbols.{symbols};
ghost use Rattle.bash_braces.specs.Values.{joined};

use crate::queue::Queue;
use crate::sequence::Sequence;
use crate::symbol::Symbol;
use crate::value::Value;
use eb_bytes::Memory;
use std::alloc::Global;

// Words, each as its symbols.
pub(crate) type Words = Queue<Queue<Symbol>>;

// The words with this symbol before each.
fn with_first(alloc: Global, symbol: Symbol, mut words: Words) -> Result<Words, Memory>
    ensures { IfOk result (λ all. all ≡ map (λ (v : List Symbol). symbol ∷ v) words) }
{
    let mut all = Queue::new(alloc);
    while let Some(mut word) = words.take_first() {
        word.put_first(symbol)?;
        all.put_last(word)?;
    }
    Ok(all)
}

// The words with these symbols before each.
fn put_before(alloc: Global, start: &Queue<Symbol>, mut words: Words) -> Result<Words, Memory>
    ensures { IfOk result (λ all. all ≡ map (λ (v : List Symbol). start.now ++ v) words) }
{
    let mut all = Queue::new(alloc);
    while let Some(mut word) = words.take_first() {
        word.put_all_first(start)?;
        all.put_last(word)?;
    }
    Ok(all)
}

// The words with these symbols after each.
fn put_after(alloc: Global, mut words: Words, end: &Queue<Symbol>) -> Result<Words, Memory>
    ensures { IfOk result (λ all. all ≡ map (λ (w : List Symbol). w ++ end.now) words) }
{
    let mut all = Queue::new(alloc);
    while let Some(mut word) = words.take_first() {
        word.put_all_last(end)?;
        all.put_last(word)?;
    }
    Ok(all)
}

// A second list of the same words.
#[tactic(auto, using(std::proofs::lemmas::List::take_more))]
fn share(alloc: Global, words: &Words) -> Result<Words, Memory>
    ensures { IfOk result (λ all. all ≡ words.now) }
{
    let mut all = Queue::new(alloc);
    for index in 0..words.len() {
        let mut word = Queue::new(alloc);
        word.put_all_last(words.at(index))?;
        all.put_last(word)?;
    }
    Ok(all)
}

// Each word of the first list with each of the second.
#[tactic(auto, using(crate::proofs::Joining::joined_more))]
fn join(alloc: Global, mut before: Words, after: &Words) -> Result<Words, Memory>
    ensures { IfOk result (λ all. all ≡ joined before after.now) }
{
    let mut all = Queue::new(alloc);
    while let Some(word) = before.take_first() {
        let with_word = put_before(alloc, &word, share(alloc, after)?)?;
        all.append(with_word)?;
    }
    Ok(all)
}

impl Value for Words {
    ghost values = { symbols };

    fn nothing(alloc: Global) -> Result<Words, Memory> {
        let mut words = Queue::new(alloc);
        words.put_last(Queue::new(alloc))?;
        Ok(words)
    }

    fn put(self, alloc: Global, index: usize) -> Result<Words, Memory> {
        with_first(alloc, Symbol::At(index), self)
    }

    fn byte(self, alloc: Global, byte: u8) -> Result<Words, Memory> {
        with_first(alloc, Symbol::Byte(byte), self)
    }

    #[tactic(auto, using(crate::proofs::Joining::joined_one, crate::proofs::Joining::one_joined))]
    fn follow(self, alloc: Global, before: Words) -> Result<Words, Memory> {
        let after = self;
        if before.len() == 1 && (after.len() != 1 || before.at(0).len() <= after.at(0).len()) {
            return put_before(alloc, before.at(0), after);
        }
        if after.len() == 1 {
            return put_after(alloc, before, after.at(0));
        }
        join(alloc, before, &after)
    }

    fn either(self, other: Words) -> Result<Words, Memory> {
        let mut all = self;
        all.append(other)?;
        Ok(all)
    }

    fn run(alloc: Global, sequence: &Sequence) -> Result<Words, Memory> {
        let mut all = Queue::new(alloc);
        for text in &sequence.texts(alloc)? {
            all.put_last(literal(alloc, text.as_slice())?)?;
        }
        Ok(all)
    }
}

// The symbols of a text.
fn literal(alloc: Global, text: &[u8]) -> Result<Queue<Symbol>, Memory>
    ensures { IfOk result (λ word. word ≡ map Byte text.now) }
{
    let mut word = Queue::new(alloc);
    for byte in text {
        word.put_last(Symbol::Byte(*byte))?;
    }
    Ok(word)
}
