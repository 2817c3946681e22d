ghost use Rattle.std.specs.Prelude.{◌≡◌, [], ◌∷◌, map, IfOk, OnOk};
ghost use Rattle.shell_marks.specs.declared.marked.Mark.TheVariants.{Literal};
ghost use Rattle.word_meaning.specs.Marks.{as_value as as_value_of, bytes_of, emitted, followed, given, in_quotes as in_quotes_of, listed, quoted_text};
ghost use Rattle.expand_marks.specs.Seen.{given_of};

use crate::lists::{Listing, put_list};
use crate::texts::{as_results, close_quotes, put_quoted, put_text};
use eb_bytes::{Bytes, Memory};
use shell_marks::{Mark, Marked, Origin};
use std::alloc::Global;

/// What parts of a word give.
#[derive(Drop)]
pub struct Given {
    /// Their marks.
    pub marks: Marked,
    /// Whether one of them is a list in double quotes that has no elements.
    pub has_no_elements: bool,
}

impl Given {
    /// No marks. Takes no memory.
    pub fn new(alloc: Global) -> Given
        ensures { given_of result ≡ given [] }
    {
        Given {
            marks: Marked::new(alloc),
            has_no_elements: false,
        }
    }

    /// One mark.
    ///
    /// # Errors
    /// `Memory` where there is no room for it.
    pub fn of_mark(alloc: Global, mark: Mark) -> Result<Given, Memory>
        ensures { IfOk result (λ g. given_of g ≡ given (mark ∷ [])) }
    {
        let mut marks = Marked::new(alloc);
        marks.push(mark)?;
        Ok(Given {
            marks,
            has_no_elements: false,
        })
    }

    /// The text of an expansion: quoted in double quotes, else as a result, which is split.
    ///
    /// # Errors
    /// `Memory` where there is no room for it.
    pub fn of_text(alloc: Global, quoted: bool, text: &[u8]) -> Result<Given, Memory>
        ensures { IfOk result (λ g. given_of g ≡ given (emitted quoted text.now)) }
    {
        let mut marks = Marked::new(alloc);
        put_text(&mut marks, quoted, text)?;
        Ok(Given {
            marks,
            has_no_elements: false,
        })
    }

    /// A text in quotes.
    ///
    /// # Errors
    /// `Memory` where there is no room for it.
    pub fn of_quoted(alloc: Global, text: &[u8]) -> Result<Given, Memory>
        ensures { IfOk result (λ g. given_of g ≡ given (quoted_text text.now)) }
    {
        let mut marks = Marked::new(alloc);
        put_quoted(&mut marks, text)?;
        Ok(Given {
            marks,
            has_no_elements: false,
        })
    }

    /// Bytes of the script that are not quoted.
    ///
    /// # Errors
    /// `Memory` where there is no room for them.
    pub fn of_bytes(alloc: Global, text: &[u8]) -> Result<Given, Memory>
        ensures { IfOk result (λ g. given_of g ≡ given (map Literal text.now)) }
    {
        let mut marks = Marked::new(alloc);
        marks.extend(text, Origin::Literal)?;
        Ok(Given {
            marks,
            has_no_elements: false,
        })
    }

    /// A list.
    ///
    /// # Errors
    /// `Memory` where there is no room for it.
    pub fn of_list(alloc: Global, listing: &Listing<'_>, texts: &[Bytes]) -> Result<Given, Memory>
        ensures { IfOk result (λ g. given_of g ≡ listed listing.now.mode listing.now.quoted listing.now.star listing.now.first_of_ifs.now texts.now) }
    {
        let mut marks = Marked::new(alloc);
        let has_no_elements = put_list(alloc, &mut marks, listing, texts)?;
        Ok(Given {
            marks,
            has_no_elements,
        })
    }

    /// Puts what comes next behind it.
    ///
    /// # Errors
    /// `Memory` where there is no room for it.
    pub fn follow(&mut self, more: &Given) -> Result<(), Memory>
        ensures { OnOk result (given_of self.new ≡ followed (given_of self.old) (given_of more.now)) }
    {
        self.marks.append(more.marks.as_slice())?;
        self.has_no_elements = self.has_no_elements || more.has_no_elements;
        Ok(())
    }

    /// The same in double quotes.
    ///
    /// # Errors
    /// `Memory` where there is no room for a mark.
    pub fn in_quotes(self) -> Result<Given, Memory>
        ensures { IfOk result (λ g. given_of g ≡ in_quotes_of (given_of self)) }
    {
        let mut marks = self.marks;
        close_quotes(&mut marks, self.has_no_elements)?;
        Ok(Given {
            marks,
            has_no_elements: false,
        })
    }

    /// The same as a word that stands for a value.
    ///
    /// # Errors
    /// `Memory` where there is no room for it.
    pub fn as_value(&self, alloc: Global) -> Result<Given, Memory>
        ensures { IfOk result (λ g. given_of g ≡ as_value_of (given_of self.now)) }
    {
        let marks = as_results(alloc, self.marks.as_slice())?;
        Ok(Given {
            marks,
            has_no_elements: false,
        })
    }

    /// The text that quote removal leaves.
    ///
    /// # Errors
    /// `Memory` where there is no room for it.
    pub fn bytes(&self, alloc: Global) -> Result<Bytes, Memory>
        ensures { IfOk result (λ text. text ≡ bytes_of (given_of self.now)) }
    {
        self.marks.unquoted(alloc)
    }
}
