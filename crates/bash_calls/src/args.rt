ghost use Rattle.std.specs.Prelude.{◌≡◌, ◌≤◌, [], ◌++◌, drop, length, IfOk, OnOk};

use eb_bytes::{Bytes, Memory};
use std::alloc::Global;
use std::marker::Model;

/// Positional parameters, from the first (Bash Reference Manual, "Positional Parameters"). Contracts see them as a list of
/// texts.
#[derive(Drop)]
pub struct Args {
    texts: Vec<Bytes>,
    // How many of them were shifted out.
    shifted: usize,
}

impl Model for Args {
    ghost use Rattle.std.specs.Prelude.{◌≤◌, List, ℕ, drop, length};
    ghost use Rattle.std.specs.Coded.{coded_list, coded_ℕ};

    ghost Value = { List (List ℕ) };

    ghost coded = { coded_list (coded_list coded_ℕ) };

    ghost view = { λ a. drop a.shifted a.texts.items };

    ghost invariant = { λ a. a.shifted ≤ length a.texts.items };
}

impl Args {
    /// No parameters. Takes no memory.
    pub fn new(alloc: Global) -> Args
        ensures { result ≡ [] }
    {
        Args {
            texts: Vec::new(alloc),
            shifted: 0,
        }
    }

    /// These texts. Takes no memory.
    pub fn from_vec(texts: Vec<Bytes>) -> Args
        ensures { result ≡ texts.items }
    {
        Args { texts, shifted: 0 }
    }

    /// The parameters, as a slice.
    pub fn as_slice(&self) -> &[Bytes]
        ensures { result.now ≡ self.now }
    {
        &self.texts[self.shifted..]
    }

    /// Drops so many parameters from the first on; there must be so many. Takes no memory.
    pub(crate) fn shift(&mut self, count: usize)
        requires { count ≤ length self.old }
        ensures { self.new ≡ drop count self.old }
    {
        self.shifted += count;
    }

    /// Equal parameters.
    ///
    /// # Errors
    /// `Memory` where there is no room for them.
    pub fn copy(&self, alloc: Global) -> Result<Args, Memory>
        ensures { IfOk result (λ copy. copy ≡ self.now) }
    {
        let mut texts = Vec::new(alloc);
        push_copies(alloc, &mut texts, self.as_slice())?;
        Ok(Args::from_vec(texts))
    }
}

// Puts texts equal to these at the end.
fn push_copies(alloc: Global, copies: &mut Vec<Bytes>, texts: &[Bytes]) -> Result<(), Memory>
    ensures { OnOk result (copies.new.items ≡ copies.old.items ++ texts.now) }
{
    for text in texts {
        copies.push(text.copy(alloc)?)?;
    }
    Ok(())
}
