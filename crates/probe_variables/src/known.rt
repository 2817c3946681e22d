use crate::place::{Place, read_name, read_place, refusal};
use crate::variables::READONLY;
use byte_class::{is_name, is_name_byte};
use eb_bytes::{Bytes, Memory};
use probe_base::{Answer, Fault, cut, read_text};
use shell_vars::{Elements, Value, Vars};
use std::alloc::Global;

/// The variables of a request, and the names of those that an answer tells.
#[derive(Drop)]
pub struct Known {
    pub vars: Vars,
    names: Vec<Bytes>,
}

impl Known {
    /// The variables that fields give, `NAME=TEXT`, `NAME[SUBSCRIPT]=TEXT`, or `!NAME` where it is readonly. An answer
    /// tells them, and those whose names stand in this text or in one that was given.
    pub fn new(alloc: Global, text: &[u8], given: &[&[u8]]) -> Result<Known, Fault> {
        let mut known = Known {
            vars: Vars::new(alloc)?,
            names: Vec::new(alloc),
        };
        known.push_names(alloc, text)?;
        for field in given {
            known.give(alloc, field)?;
        }
        Ok(known)
    }

    fn give(&mut self, alloc: Global, field: &[u8]) -> Result<(), Fault> {
        if let [b'!', name @ ..] = field {
            return self.vars.mark(read_name(name)?, READONLY).map_err(refusal);
        }
        let (place, text) = cut(field, b'=').ok_or(Fault::NoRequest)?;
        let place = read_place(place)?;
        self.push_names(alloc, place.name)?;
        let text = read_text(alloc, text)?;
        self.push_names(alloc, text.as_slice())?;
        self.set(place, text)
    }

    fn set(&mut self, place: Place<'_>, text: Bytes) -> Result<(), Fault> {
        let made = match place.subscript {
            None => self.vars.set(place.name, Value::Text(text)),
            Some(subscript) => self.vars.set_elem(place.name, subscript, text),
        };
        made.map_err(refusal)
    }

    /// An answer also tells the variables whose names stand in this text.
    pub fn push_names(&mut self, alloc: Global, text: &[u8]) -> Result<(), Memory> {
        for piece in text.split(|byte| !is_name_byte(*byte)) {
            if is_name(piece) && !self.is_last(piece) {
                self.names.push(Bytes::from_slice(alloc, piece)?)?;
            }
        }
        Ok(())
    }

    fn is_last(&self, name: &[u8]) -> bool {
        match self.names.last() {
            Some(last) => last.as_slice() == name,
            None => false,
        }
    }

    /// Puts the variables that have a value, in the order of their names.
    pub fn put(&mut self, answer: &mut Answer) {
        self.names.sort_unstable();
        self.names.dedup();
        for name in self.names.iter() {
            let name = name.as_slice();
            match self.vars.get(name) {
                None => {}
                Some(Value::Text(text)) => put_text(name, text, answer),
                Some(Value::Array(elements)) => put_elements(name, elements, answer),
            }
        }
    }
}

fn put_text(name: &[u8], text: &Bytes, answer: &mut Answer) {
    answer.word("");
    answer.push_name(name);
    answer.push_word("=");
    answer.push_text(text.as_slice());
}

fn put_elements(name: &[u8], elements: &Elements, answer: &mut Answer) {
    if elements.is_empty() {
        answer.word("");
        answer.push_name(name);
        answer.push_word("=()");
    }
    for (index, text) in elements.iter() {
        answer.word("");
        answer.push_name(name);
        answer.push_word("[");
        answer.push_number(*index);
        answer.push_word("]=");
        answer.push_text(text.as_slice());
    }
}
