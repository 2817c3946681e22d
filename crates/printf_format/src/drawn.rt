ghost use Rattle.std.specs.Prelude.{◌≡◌, ◌≤◌, ◌^◌, [], ◌++◌, ◌+◌, length, replicate, IfOk, IfSome, IfNone, OnOk};
ghost use Rattle.printf_format.specs.Fields.{shown};
ghost use Rattle.printf_format.specs.Texts.{whole_text};

use byte_class::is_nul;
use eb_bytes::{Bytes, Memory};
use std::alloc::Global;
use std::marker::Model;
use std::mem;

/// A text, and after it so many times a byte.
#[doc(hidden)]
#[derive(Drop)]
pub struct Run {
    pub text: Bytes,
    pub byte: u8,
    pub count: u64,
}

/// A text to be printed, whose fillings are not made yet. Contracts see it as the whole text.
#[derive(Drop)]
pub struct Drawn {
    runs: Vec<Run>,
    tail: Bytes,
}

impl Model for Drawn {
    ghost use Rattle.std.specs.Prelude.{List, ℕ};
    ghost use Rattle.std.specs.Coded.{coded_list, coded_ℕ};
    ghost use Rattle.printf_format.specs.Texts.{whole_text};

    ghost Value = { List ℕ };

    ghost coded = { coded_list coded_ℕ };

    ghost view = { λ d. whole_text d.runs.items d.tail };
}

impl Drawn {
    // No text. Takes no memory.
    pub(crate) fn new(alloc: Global) -> Drawn
        ensures { result ≡ [] }
    {
        Drawn {
            runs: Vec::new(alloc),
            tail: Bytes::new(alloc),
        }
    }

    // Puts a text at the end.
    #[tactic(auto, using(crate::proofs::Fillings::tail_more))]
    pub(crate) fn put(&mut self, text: &[u8]) -> Result<(), Memory>
        ensures { OnOk result (self.new ≡ self.old ++ text.now) }
    {
        self.tail.extend(text)
    }

    // Puts a text without its bytes 0 at the end.
    #[tactic(auto, using(crate::proofs::Fillings::tail_more))]
    pub(crate) fn put_shown(&mut self, text: &[u8]) -> Result<(), Memory>
        ensures { OnOk result (self.new ≡ self.old ++ shown text.now) }
    {
        put_shown(&mut self.tail, text)
    }

    // Puts a byte so many times at the end.
    #[tactic(auto, using(crate::proofs::Fillings::filled))]
    pub(crate) fn fill(&mut self, alloc: Global, byte: u8, count: u64) -> Result<(), Memory>
        ensures { OnOk result (self.new ≡ self.old ++ replicate count byte) }
    {
        if count == 0 {
            return Ok(());
        }
        let text = mem::replace(&mut self.tail, Bytes::new(alloc));
        self.runs.push(Run { text, byte, count })?;
        Ok(())
    }

    /// How many bytes the text has, and 1; none where 64 bits do not hold the number. Takes no memory.
    pub fn size(&self) -> Option<u64>
        ensures some { IfSome result (λ size. size ≡ length self.now + 1) }
        ensures none { IfNone result (2 ^ 64 ≤ length self.now + 1) }
    {
        size_of(self.runs.as_slice(), self.tail.as_slice())
    }

    /// The text itself.
    ///
    /// # Errors
    /// `Memory` where there is no room for it.
    pub fn make(&self, alloc: Global) -> Result<Bytes, Memory>
        ensures { IfOk result (λ text. text ≡ self.now) }
    {
        make(alloc, self.runs.as_slice(), self.tail.as_slice())
    }
}

#[tactic(auto, using(crate::proofs::Fillings::counts_tail, crate::proofs::Fillings::counts_more))]
fn size_of(runs: &[Run], tail: &[u8]) -> Option<u64>
    ensures some { IfSome result (λ size. size ≡ length (whole_text runs.now tail.now) + 1) }
    ensures none { IfNone result (2 ^ 64 ≤ length (whole_text runs.now tail.now) + 1) }
{
    let mut size = (tail.len() as u64).checked_add(1)?;
    for run in runs {
        size = size
            .checked_add(run.text.len() as u64)?
            .checked_add(run.count)?;
    }
    Some(size)
}

fn make(alloc: Global, runs: &[Run], tail: &[u8]) -> Result<Bytes, Memory>
    ensures { IfOk result (λ text. text ≡ whole_text runs.now tail.now) }
{
    let mut text = Vec::new(alloc);
    for run in runs {
        text.extend_from_slice(run.text.as_slice())?;
        put_filling(&mut text, run.byte, run.count)?;
    }
    text.extend_from_slice(tail)?;
    Ok(Bytes::from_vec(text))
}

/// Puts a text without its bytes 0 at the end of another one.
///
/// # Errors
/// `Memory` where there is no room for it.
pub fn put_shown(to: &mut Bytes, text: &[u8]) -> Result<(), Memory>
    ensures { OnOk result (to.new ≡ to.old ++ shown text.now) }
{
    for byte in text {
        if !is_nul(*byte) {
            to.push(*byte)?;
        }
    }
    Ok(())
}

fn put_filling(to: &mut Vec<u8>, byte: u8, count: u64) -> Result<(), Memory>
    ensures { OnOk result (to.new.items ≡ to.old.items ++ replicate count byte) }
{
    let Ok(count) = usize::try_from(count) else {
        return Err(Memory);
    };
    let Some(len) = to.len().checked_add(count) else {
        return Err(Memory);
    };
    to.resize(len, byte)?;
    Ok(())
}
