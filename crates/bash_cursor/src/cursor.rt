ghost use Rattle.std.specs.Prelude.{◌≡◌, ℕ, ◌+◌, ◌-◌, ◌<◌, ◌≤◌, ◌==◌, ◌^◌, [], ◌∷◌, ◌++◌, length, take, count_by, Ok, IsTrue, OnSome, MatchResult};
ghost use Rattle.eb_grammar.specs.Peg as peg;
ghost use Rattle.bash_cursor.specs.Seen.{at_spot, gone_to, marks_of, no_marks, stand_of, with_marks, with_room};
ghost use Rattle.eb_grammar.specs.HereDocuments as here;
ghost use Rattle.bash_cursor.specs.Reads.{Eats, ReadsMarks};
ghost use Rattle.grammar_laws.specs.Nestings.{NoReading};

use crate::error::LexErr;
use crate::failures::{Failure, Failures};
use crate::marks::{HereMark, Marks};
use eb_syntax::HereBody;
use grammar_laws::Nesting;
use shared::Shared;
use sqlite_items::Items as List;
use std::alloc::Global;
use std::marker::Model;
use std::mem;

/// How many nestings may be open at a place.
const MAX_NESTING: u8 = 200;

/// A place in a text, with the nestings that may still be opened there, the here-documents that wait for their bodies,
/// and the bodies that were read. Contracts see the text, the grammar's place in it, and the nestings left. They don't
/// see the nestings that are remembered to have no reading: these save time, and change no answer.
#[derive(Drop)]
pub struct Cursor<'a> {
    text: &'a [u8],
    rest: &'a [u8],
    place: usize,
    line: u32,
    room: u8,
    marks: Marks,
    failures: Failures,
    alloc: Global,
}

impl<'a> Model for Cursor<'a> {
    ghost use Rattle.std.specs.Prelude.{◌≡◌, ◌≤◌, ◌<◌, ◌+◌, length, drop};
    ghost use Rattle.std.specs.Coded.{codes};
    ghost use Rattle.bash_cursor.specs.Known.{AreKnown};
    ghost use Rattle.bash_cursor.specs.Seen.{Seen};
    ghost use Rattle.eb_syntax.specs.contracts.tree.HereBody as body;

    ghost Value = { Seen };

    ghost coded = { Prim.hlevel (codes, body.the_row.coded) };

    ghost view = { λ c. record { text = c.text.now; spot = record { rest = c.rest.now; place = c.place; line = c.line; waiting = c.marks.waiting; bodies = c.marks.bodies }; room = c.room } };

    ghost invariant = { λ c. (c.line + length c.rest.now ≤ 4294967295) × (c.place + length c.rest.now < 4294967296) × (c.room ≤ 200) × (c.rest.now ≡ drop c.place c.text.now) × AreKnown c.text.now c.failures };
}

/// A place to which the cursor that gave it can go back.
#[derive(Drop)]
pub struct Place<'a> {
    text: &'a [u8],
    rest: &'a [u8],
    place: usize,
    line: u32,
    room: u8,
}

impl<'a> Model for Place<'a> {
    ghost use Rattle.std.specs.Prelude.{◌≡◌, ◌≤◌, ◌<◌, ◌+◌, length, drop};
    ghost use Rattle.std.specs.Coded.{codes};
    ghost use Rattle.bash_cursor.specs.Seen.{Stand};

    ghost Value = { Stand };

    ghost coded = { Prim.hlevel codes };

    ghost view = { λ p. record { text = p.text.now; rest = p.rest.now; place = p.place; line = p.line; room = p.room } };

    ghost invariant = { λ p. (p.line + length p.rest.now ≤ 4294967295) × (p.place + length p.rest.now < 4294967296) × (p.room ≤ 200) × (p.rest.now ≡ drop p.place p.text.now) };
}

/// What a cursor shows, kept so that the cursor can be brought back to it, with the here-documents that wait and the
/// bodies that were read.
#[derive(Drop)]
pub struct Saved<'a> {
    place: Place<'a>,
    marks: Marks,
}

impl<'a> Model for Saved<'a> {
    ghost use Rattle.std.specs.Coded.{codes};
    ghost use Rattle.bash_cursor.specs.Seen.{Seen, seen_at};
    ghost use Rattle.eb_syntax.specs.contracts.tree.HereBody as body;

    ghost Value = { Seen };

    ghost coded = { Prim.hlevel (codes, body.the_row.coded) };

    ghost view = { λ s. seen_at s.place s.marks };
}

// How many newlines there are.
fn newlines(text: &[u8]) -> u32
    requires { length text.now < 2 ^ 32 }
    ensures value { result ≡ count_by (λ b. b == 10) text.now }
    ensures within { result ≤ length text.now }
{
    text.iter().filter(|byte| **byte == b'\n').count() as u32
}

impl<'a> Cursor<'a> {
    /// The beginning of a text, with line 1 and no nesting open.
    pub fn new(alloc: Global, text: &'a [u8]) -> Cursor<'a>
        requires { length text.now < 4294967295 }
        ensures { result ≡ record { text = text.now; spot = peg.start_at 1 text.now; room = 200 } }
    {
        Cursor {
            text,
            rest: text,
            place: 0,
            line: 1,
            room: MAX_NESTING,
            marks: Marks::new(alloc),
            failures: Failures::new(alloc),
            alloc,
        }
    }

    /// The beginning of a text that stands inside this one, from this line on, with the nestings that are open here.
    pub fn over<'b>(&self, text: &'b [u8], line: u32) -> Cursor<'b>
        requires { line + length text.now ≤ 4294967295 }
        ensures { result ≡ record { text = text.now; spot = peg.start_at line text.now; room = self.now.room } }
    {
        Cursor {
            text,
            rest: text,
            place: 0,
            line,
            room: self.room,
            marks: Marks::new(self.alloc),
            failures: Failures::new(self.alloc),
            alloc: self.alloc,
        }
    }

    /// The allocator of what is read here.
    pub fn alloc(&self) -> Global {
        self.alloc
    }

    /// The number of bytes before the place.
    pub fn place(&self) -> usize
        ensures value { result ≡ self.now.spot.place }
        ensures within { result + length self.now.spot.rest < 4294967296 }
    {
        self.place
    }

    /// The line of the place, from 1.
    pub fn line(&self) -> u32
        ensures value { result ≡ self.now.spot.line }
        ensures within { result + length self.now.spot.rest ≤ 4294967295 }
    {
        self.line
    }

    /// How many nestings may still be opened.
    pub fn room(&self) -> u8
        ensures value { result ≡ self.now.room }
        ensures within { result ≤ 200 }
    {
        self.room
    }

    /// How many bytes stand after the place.
    pub fn left(&self) -> usize
        ensures { result ≡ length self.now.spot.rest }
    {
        self.rest.len()
    }

    /// Whether the text ends at the place.
    pub fn at_end(&self) -> bool
        ensures { result ≡ peg.ends self.now.spot.rest }
    {
        self.rest.is_empty()
    }

    /// The bytes from the place on.
    pub fn rest(&self) -> &'a [u8]
        ensures { result.now ≡ self.now.spot.rest }
    {
        self.rest
    }

    /// Whether these bytes stand at the place.
    #[tactic(auto, unfolding(eb_grammar::specs::Peg::sees))]
    pub fn sees(&self, word: &[u8]) -> bool
        ensures { result ≡ peg.sees word.now self.now.spot }
    {
        self.rest.starts_with(word)
    }

    /// The byte at the place, `None` at the text's end.
    #[tactic(auto, unfolding(eb_grammar::specs::Peg::first))]
    pub fn peek(&self) -> Option<u8>
        ensures value { result ≡ peg.first self.now.spot }
        ensures within { OnSome result (1 ≤ length self.now.spot.rest) }
    {
        self.rest.first().copied()
    }

    /// Goes past this many bytes, and gives them.
    #[tactic(auto, using(crate::proofs::RunEnds::past), unfolding(eb_grammar::specs::Peg::taken))]
    pub fn take(&mut self, count: usize) -> &'a [u8]
        requires { count ≤ length self.old.spot.rest }
        ensures bytes { result.now ≡ take count self.old.spot.rest }
        ensures after { self.new ≡ at_spot (peg.taken count self.old.spot) self.old }
    {
        let (taken, rest) = self.rest.split_at(count);
        let lines = newlines(taken);
        self.rest = rest;
        self.place += count;
        self.line += lines;
        taken
    }

    /// Goes past these bytes where they stand at the place, and says whether they do.
    #[tactic(auto, unfolding(eb_grammar::specs::Peg::word_of, eb_grammar::specs::Peg::sees, eb_grammar::specs::Peg::taken))]
    pub fn eat(&mut self, word: &[u8]) -> bool
        ensures { Eats (peg.word_of word.now) self.old result self.new }
    {
        if !self.sees(word) {
            return false;
        }
        self.take(word.len());
        true
    }

    /// The place where the cursor stands, to which `back_to` returns.
    pub fn here(&self) -> Place<'a>
        ensures { result ≡ stand_of self.now }
    {
        Place {
            text: self.text,
            rest: self.rest,
            place: self.place,
            line: self.line,
            room: self.room,
        }
    }

    /// Goes back to a place on the same text. The here-documents that wait, and the bodies that were read, stay.
    pub fn back_to(&mut self, place: Place<'a>)
        requires { place.text ≡ self.old.text }
        ensures { self.new ≡ gone_to place.entry self.old }
    {
        self.rest = place.rest;
        self.place = place.place;
        self.line = place.line;
        self.room = place.room;
    }

    /// Opens a nesting.
    ///
    /// # Errors
    /// `TooDeep` with the line of the place, exactly where no more may be opened.
    pub fn enter(&mut self) -> Result<(), LexErr>
        ensures { MatchResult result
            (λ _. (0 < self.old.room) × (self.old.room ≤ 200) × (self.new ≡ with_room (self.old.room - 1) self.old))
            (λ e. (self.old.room ≡ 0) × (e ≡ LexErr.TooDeep self.old.spot.line) × (self.new ≡ self.old)) }
    {
        if self.room == 0 {
            return Err(LexErr::TooDeep { line: self.line });
        }
        self.room -= 1;
        Ok(())
    }

    /// Closes a nesting, of which one must be open.
    pub fn leave(&mut self)
        requires { self.old.room < 200 }
        ensures { self.new ≡ with_room (self.old.room + 1) self.old }
    {
        self.room += 1;
    }

    /// Whether a nesting is known to have no reading at the place: it was read there in vain, when as many nestings
    /// could be opened as now, or fewer.
    pub fn known(&self, nesting: Nesting) -> bool
        ensures { IsTrue result → NoReading nesting self.now.room self.now.spot }
    {
        self.failures.has(self.failure(nesting))
    }

    /// Remembers that a nesting has no reading at the place, so that `known` says so from now on. Where memory fails it
    /// isn't remembered, which costs nothing but time.
    pub fn remember(&mut self, nesting: Nesting)
        requires { NoReading nesting self.old.room self.old.spot }
        ensures { self.new ≡ self.old }
    {
        let failure = self.failure(nesting);
        self.failures.add(failure);
    }

    // A nesting at the place.
    fn failure(&self, nesting: Nesting) -> Failure
        ensures { result ≡ record { nesting = nesting; place = self.now.spot.place; line = self.now.spot.line; room = self.now.room } }
    {
        Failure {
            nesting,
            place: self.place,
            line: self.line,
            room: self.room,
        }
    }

    /// All that the cursor shows, to which `restore` brings it back.
    ///
    /// # Errors
    /// `Memory` where there is no room for the marks.
    pub fn save(&self) -> Result<Saved<'a>, LexErr>
        ensures { MatchResult result (λ saved. saved ≡ self.now) (λ e. e ≡ LexErr.Memory) }
    {
        Ok(Saved {
            place: self.here(),
            marks: self.marks.copy()?,
        })
    }

    /// Goes back to what was saved on the same text.
    pub fn restore(&mut self, saved: Saved<'a>)
        requires { saved.text ≡ self.old.text }
        ensures { self.new ≡ saved.entry }
    {
        self.back_to(saved.place);
        self.marks = saved.marks;
    }

    /// One more here-document waits for its body.
    ///
    /// # Errors
    /// `Memory` where there is no room for it.
    pub fn mark(&mut self, mark: HereMark) -> Result<(), LexErr>
        ensures { ReadsMarks (here.mark mark) self.old result self.new }
    {
        self.marks.wait(mark)?;
        Ok(())
    }

    /// The here-documents that wait for their bodies, in their order.
    ///
    /// # Errors
    /// `Memory` where there is no room for the list.
    pub fn waiting(&self) -> Result<List<Shared<HereMark>>, LexErr>
        ensures { MatchResult result (λ marks. marks ≡ self.now.spot.waiting) (λ e. e ≡ LexErr.Memory) }
    {
        Ok(self.marks.waiting()?)
    }

    /// A body has been read.
    ///
    /// # Errors
    /// `Memory` where there is no room for it.
    pub fn keep(&mut self, body: HereBody) -> Result<(), LexErr>
        ensures { ReadsMarks (here.keep body) self.old result self.new }
    {
        self.marks.keep(body)?;
        Ok(())
    }

    /// No here-document waits any more.
    pub fn answered(&mut self)
        ensures { ReadsMarks here.answered self.old (Ok tt) self.new }
    {
        self.marks.answer();
    }

    /// Begins a list of commands, which has here-documents of its own: those that wait, and the bodies that were read,
    /// are set aside.
    pub fn open_items(&mut self) -> Marks
        ensures outer { result ≡ marks_of self.old }
        ensures inner { self.new ≡ with_marks no_marks self.old }
    {
        mem::replace(&mut self.marks, Marks::new(self.alloc))
    }

    /// Ends a list of commands: what was set aside comes back, and what is its own is given.
    pub fn close_items(&mut self, outer: Marks) -> Marks
        ensures inner { result ≡ marks_of self.old }
        ensures outer { self.new ≡ with_marks outer self.old }
    {
        mem::replace(&mut self.marks, outer)
    }
}
