ghost use Rattle.std.specs.Prelude.{◌≡◌, [], ◌∷◌, ◌++◌, length, IfNone, IfSome, OnErr, OnOk};
ghost use Rattle.shell_state.specs.Output.{captured, may_capture, Puts};

use crate::fault::Fault;
use crate::stop::Stop;
use eb_bytes::{Bytes, Memory};
use std::alloc::Global;
use std::marker::Model;

/// The most bytes that one command substitution may capture: 1 MiB.
const MAX_CAPTURED: usize = 1_048_576;

/// What each open command substitution has captured, the outermost first. Contracts see it as that list of texts.
#[derive(Debug, Drop)]
pub struct Captures {
    texts: Vec<Bytes>,
}

impl Model for Captures {
    ghost use Rattle.std.specs.Prelude.{List, ℕ};
    ghost use Rattle.std.specs.Coded.{coded_list, coded_ℕ};

    ghost Value = { List (List ℕ) };

    ghost coded = { coded_list (coded_list coded_ℕ) };

    ghost view = { λ c. c.texts.items };
}

impl Captures {
    /// No command substitution is open. Takes no memory.
    pub fn new(alloc: Global) -> Captures
        ensures { result ≡ [] }
    {
        Captures {
            texts: Vec::new(alloc),
        }
    }

    /// How many command substitutions are open.
    pub fn len(&self) -> usize
        ensures { result ≡ length self.now }
    {
        self.texts.len()
    }

    /// Opens a command substitution, the innermost one, which has captured nothing.
    ///
    /// # Errors
    /// `Memory` where there is no room for it; nothing changed then.
    pub fn begin(&mut self) -> Result<(), Memory>
        ensures ok { OnOk result (self.new ≡ self.old ++ [] ∷ []) }
        ensures err { OnErr result (self.new ≡ self.old) }
    {
        let alloc = *self.texts.allocator();
        self.texts.push(Bytes::new(alloc))?;
        Ok(())
    }

    /// Ends the innermost command substitution, and gives what it captured; `None` where none is open. Takes no memory.
    pub fn finish(&mut self) -> Option<Bytes>
        ensures some { IfSome result (λ text. self.old ≡ self.new ++ text ∷ []) }
        ensures none { IfNone result ((self.old ≡ []) × (self.new ≡ [])) }
    {
        self.texts.pop()
    }

    /// Puts a text at the end of what one of them captured, counted from the outermost, from 0. Where so many are not
    /// open, nothing is put.
    ///
    /// # Errors
    /// `ValueSize` where more than 1,048,576 bytes would be captured; `Memory` where there is no room. Nothing changed
    /// then.
    pub fn append(&mut self, at: usize, text: &[u8]) -> Result<(), Stop>
        ensures { Puts result (may_capture at text.now self.old) (captured at text.now self.old) self.old self.new }
    {
        if at >= self.texts.len() {
            return Ok(());
        }
        let captured = &mut self.texts[at];
        if captured.len().saturating_add(text.len()) > MAX_CAPTURED {
            return Err(Stop::Fault(Fault::ValueSize));
        }
        captured.extend(text)?;
        Ok(())
    }
}
