//! What is known to have no reading, so that it is not read again in vain.

ghost use Rattle.std.specs.Prelude.{◌≡◌, IsTrue};
ghost use Rattle.eb_bytes.specs.Text.{Text};
ghost use Rattle.bash_cursor.specs.Known.{AreKnown, IsKnown, covers};

use grammar_laws::Nesting;
use std::alloc::Global;
use std::collections::BTreeMap;

/// A nesting that has no reading at a place of a text, where so many nestings may still be opened.
#[derive(Clone, Copy)]
pub struct Failure {
    /// What opens it.
    pub nesting: Nesting,
    /// The number of bytes before it.
    pub place: usize,
    /// The line of the place.
    pub line: u32,
    /// How many nestings may still be opened.
    pub room: u8,
}

impl Failure {
    // Whether the other has no reading where this one has none: the same nesting at the same place, where as many
    // nestings may still be opened, or more.
    fn covers(self, other: Failure) -> bool
        ensures { result ≡ covers self other }
    {
        self.nesting.number() == other.nesting.number()
            && self.place == other.place
            && self.line == other.line
            && self.room <= other.room
    }
}

/// The nestings of a text that are known to have no reading. For each place and kind it keeps one, that with the fewest
/// nestings left.
#[derive(Drop)]
pub struct Failures {
    found: BTreeMap<(usize, u8), Failure>,
}

impl Failures {
    /// None is known.
    pub fn new(alloc: Global) -> Failures
        ensures { (text : Text) → AreKnown text result }
    {
        Failures {
            found: BTreeMap::new(alloc),
        }
    }

    /// Whether it is known that this has no reading.
    pub fn has(&self, sought: Failure) -> bool
        ensures { IsTrue result → (text : Text) → AreKnown text self.now → IsKnown text sought }
    {
        match self.found.get(&(sought.place, sought.nesting.number())) {
            Some(failure) => failure.covers(sought),
            None => false,
        }
    }

    /// Keeps one more. Where memory fails it isn't kept, and nothing is lost but time.
    pub fn add(&mut self, failure: Failure)
        ensures { (text : Text) → AreKnown text self.old → IsKnown text failure → AreKnown text self.new }
    {
        if self.has(failure) {
            return;
        }
        let key = (failure.place, failure.nesting.number());
        let _ = self.found.insert(key, failure);
    }
}
