ghost use Rattle.std.specs.Prelude.{◌≡◌, [], ◌∷◌, ◌++◌, map, IfOk, OnOk, OnErr};
ghost use Rattle.shell_marks.specs.Marks.{unquoted};

use eb_bytes::{Bytes, Memory};
use std::alloc::{AllocError, Global};
use std::marker::Model;

/// A byte of a shell word and where it came from, or what stands between such bytes. The names are the Bash Reference
/// Manual's, "Word Splitting" and "Quote Removal": an unquoted expansion's result is split, quoted text is not.
#[derive(Clone, Copy)]
pub enum Mark {
    /// A byte of the script that is not quoted.
    Literal(u8),
    /// A byte of an unquoted expansion's result.
    Result(u8),
    /// A byte that is quoted.
    Quoted(u8),
    /// A pair of quotes round nothing.
    Empty,
    /// The border between two elements of `"$@"`.
    Break,
}

impl Mark {
    ghost use Rattle.shell_marks.specs.Marks.{byte_of};

    /// The byte, where the mark is one.
    pub fn byte(self) -> Option<u8>
        ensures { result ≡ byte_of self }
    {
        match self {
            Mark::Literal(byte) | Mark::Result(byte) | Mark::Quoted(byte) => Some(byte),
            Mark::Empty | Mark::Break => None,
        }
    }
}

/// Where the bytes of a shell word come from.
#[derive(Clone, Copy)]
pub enum Origin {
    /// The script, where they are not quoted.
    Literal,
    /// An unquoted expansion's result.
    Result,
    /// Quotes, or an expansion within double quotes.
    Quoted,
}

impl Origin {
    ghost use Rattle.shell_marks.specs.Marks.{marked};

    /// The mark of a byte that comes from there.
    pub fn mark(self, byte: u8) -> Mark
        ensures { result ≡ marked self byte }
    {
        match self {
            Origin::Literal => Mark::Literal(byte),
            Origin::Result => Mark::Result(byte),
            Origin::Quoted => Mark::Quoted(byte),
        }
    }
}

fn bytes_of(alloc: Global, marks: &[Mark]) -> Result<Vec<u8>, AllocError>
    ensures { IfOk result (λ bytes. bytes.items ≡ unquoted marks.now) }
{
    marks.iter().filter_map(|mark| mark.byte()).collect(alloc)
}

/// A list of marks. Contracts see it as that list.
#[derive(Drop)]
pub struct Marked {
    items: Vec<Mark>,
}

impl Model for Marked {
    ghost use Rattle.std.specs.Prelude.{List};
    ghost use Rattle.shell_marks.specs.declared.marked.Mark.{Mark};

    ghost Value = { List Mark };

    ghost view = { λ m. m.items.items };
}

impl Marked {
    ghost use Rattle.shell_marks.specs.Marks.{marked};

    /// No marks. Takes no memory.
    pub fn new(alloc: Global) -> Marked
        ensures { result ≡ [] }
    {
        Marked {
            items: Vec::new(alloc),
        }
    }

    /// Puts this mark at the end.
    ///
    /// # Errors
    /// `Memory` where there is no room for it; nothing was put then.
    pub fn push(&mut self, mark: Mark) -> Result<(), Memory>
        ensures ok { OnOk result (self.new ≡ self.old ++ mark ∷ []) }
        ensures err { OnErr result (self.new ≡ self.old) }
    {
        self.items.push(mark)?;
        Ok(())
    }

    /// Puts the marks of a text at the end: a mark for each byte, all from the same origin.
    ///
    /// # Errors
    /// `Memory` where there is no room for them; nothing was put then.
    pub fn extend(&mut self, text: &[u8], origin: Origin) -> Result<(), Memory>
        ensures ok { OnOk result (self.new ≡ self.old ++ map (marked origin) text.now) }
        ensures err { OnErr result (self.new ≡ self.old) }
    {
        self.items.reserve(text.len())?;
        for byte in text {
            self.items.push(origin.mark(*byte)).unwrap();
        }
        Ok(())
    }

    /// Puts these marks at the end.
    ///
    /// # Errors
    /// `Memory` where there is no room for them; nothing was put then.
    pub fn append(&mut self, more: &[Mark]) -> Result<(), Memory>
        ensures ok { OnOk result (self.new ≡ self.old ++ more.now) }
        ensures err { OnErr result (self.new ≡ self.old) }
    {
        self.items.extend_from_slice(more)?;
        Ok(())
    }

    /// The text that quote removal leaves: the bytes of the marks, in order (Bash Reference Manual, "Quote Removal").
    ///
    /// # Errors
    /// `Memory` where there is no room for it.
    pub fn unquoted(&self, alloc: Global) -> Result<Bytes, Memory>
        ensures { IfOk result (λ text. text ≡ unquoted self.now) }
    {
        Ok(Bytes::from_vec(bytes_of(alloc, self.as_slice())?))
    }

    /// The marks, as a slice.
    pub fn as_slice(&self) -> &[Mark]
        ensures { result.now ≡ self.now }
    {
        self.items.as_slice()
    }
}
