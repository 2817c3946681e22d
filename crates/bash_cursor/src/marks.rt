ghost use Rattle.std.specs.Prelude.{◌≡◌, [], ◌∷◌, ◌++◌, IfOk, OnOk, OnErr};
ghost use Rattle.bash_cursor.specs.Seen.{no_marks};

use crate::trail::Trail;
use eb_bytes::{Bytes, Memory};
use eb_syntax::HereBody;
use shared::Shared;
use sqlite_items::Items as List;
use std::alloc::Global;
use std::marker::Model;

/// A here-document whose body is still to come. Contracts see it as the grammar's mark.
#[derive(Debug, Drop)]
pub struct HereMark {
    place: u32,
    delimiter: Bytes,
    quoted: bool,
    strips: bool,
}

impl Model for HereMark {
    ghost use Rattle.eb_grammar.specs.Peg.{HereMark as Mark};
    ghost use Rattle.std.specs.Coded.{codes};

    ghost Value = { Mark };

    ghost coded = { Prim.hlevel codes };

    ghost view = { λ m. record { place = m.place; delimiter = m.delimiter; quoted = m.quoted; strips = m.strips } };
}

impl HereMark {
    /// A mark whose word begins at this place. Its body ends before a line that is this delimiter; nothing in it is
    /// expanded where a byte of the word is quoted; the tabs at the start of each of its lines go where it strips them.
    pub fn new(place: u32, delimiter: Bytes, quoted: bool, strips: bool) -> HereMark
        ensures { result ≡ record { place = place; delimiter = delimiter; quoted = quoted; strips = strips } }
    {
        HereMark {
            place,
            delimiter,
            quoted,
            strips,
        }
    }

    /// The place at which its word begins, which is its number.
    pub fn place(&self) -> u32
        ensures { result ≡ self.now.place }
    {
        self.place
    }

    /// What the line after its body is.
    pub fn delimiter(&self) -> &[u8]
        ensures { result.now ≡ self.now.delimiter }
    {
        self.delimiter.as_slice()
    }

    /// Whether a byte of its word is quoted.
    pub fn is_quoted(&self) -> bool
        ensures { result ≡ self.now.quoted }
    {
        self.quoted
    }

    /// Whether the tabs at the start of a line are removed.
    pub fn strips_tabs(&self) -> bool
        ensures { result ≡ self.now.strips }
    {
        self.strips
    }
}

/// The here-documents that wait in a list of commands, and the bodies that were read for it. A copy of them costs next
/// to nothing.
#[derive(Drop)]
pub struct Marks {
    waiting: Trail<HereMark>,
    bodies: Trail<HereBody>,
    alloc: Global,
}

impl Model for Marks {
    ghost use Rattle.std.specs.Coded.{codes};
    ghost use Rattle.bash_cursor.specs.Seen.{Aside};
    ghost use Rattle.eb_syntax.specs.contracts.tree.HereBody as body;

    ghost Value = { Aside };

    ghost coded = { Prim.hlevel (codes, body.the_row.coded) };

    ghost view = { λ m. record { waiting = m.waiting; bodies = m.bodies } };
}

impl Marks {
    /// None. Takes no memory.
    pub fn new(alloc: Global) -> Marks
        ensures { result ≡ no_marks }
    {
        Marks {
            waiting: Trail::new(alloc),
            bodies: Trail::new(alloc),
            alloc,
        }
    }

    /// The same marks and bodies. None is copied.
    ///
    /// # Errors
    /// `Memory` where there is no room for them.
    pub fn copy(&self) -> Result<Marks, Memory>
        ensures { IfOk result (λ copy. copy ≡ self.now) }
    {
        Ok(Marks {
            waiting: self.waiting.copy()?,
            bodies: self.bodies.copy()?,
            alloc: self.alloc,
        })
    }

    /// One more here-document waits.
    ///
    /// # Errors
    /// `Memory` where there is no room for it; nothing changed then.
    pub fn wait(&mut self, mark: HereMark) -> Result<(), Memory>
        ensures ok { OnOk result (self.new ≡ record { waiting = self.old.waiting ++ mark ∷ []; bodies = self.old.bodies }) }
        ensures err { OnErr result (self.new ≡ self.old) }
    {
        self.waiting.push(mark)
    }

    /// One more body was read.
    ///
    /// # Errors
    /// `Memory` where there is no room for it; nothing changed then.
    pub fn keep(&mut self, body: HereBody) -> Result<(), Memory>
        ensures ok { OnOk result (self.new ≡ record { waiting = self.old.waiting; bodies = self.old.bodies ++ body ∷ [] }) }
        ensures err { OnErr result (self.new ≡ self.old) }
    {
        self.bodies.push(body)
    }

    /// None waits any more.
    pub fn answer(&mut self)
        ensures { self.new ≡ record { waiting = []; bodies = self.old.bodies } }
    {
        self.waiting = Trail::new(self.alloc);
    }

    /// The here-documents that wait, in their order.
    ///
    /// # Errors
    /// `Memory` where there is no room for the list.
    pub fn waiting(&self) -> Result<List<Shared<HereMark>>, Memory>
        ensures { IfOk result (λ marks. marks ≡ self.now.waiting) }
    {
        self.waiting.list()
    }

    /// The bodies that were read, in their order.
    ///
    /// # Errors
    /// `Memory` where there is no room for the list.
    pub fn bodies(&self) -> Result<List<Shared<HereBody>>, Memory>
        ensures { IfOk result (λ bodies. bodies ≡ self.now.bodies) }
    {
        self.bodies.list()
    }
}
