//! The words of a declaration, as the probe's requests have them.

use crate::literals::elements;
use bash_assign::{Assignment, Given};
use bash_declare::Argument;
use byte_class::is_name;
use eb_bytes::Bytes;
use eb_syntax::DeclName;
use probe_base::Fault;
use std::alloc::Global;

/// The declaration of a name.
pub fn declaration_of(name: &[u8]) -> Result<DeclName, Fault> {
    match name {
        b"declare" => Ok(DeclName::Declare),
        b"typeset" => Ok(DeclName::Typeset),
        b"local" => Ok(DeclName::Local),
        b"export" => Ok(DeclName::Export),
        b"readonly" => Ok(DeclName::Readonly),
        _ => Err(Fault::NoRequest),
    }
}

/// How many of the words are options: those with a sign and letters that stand before all others.
pub fn count_options(words: &[Bytes]) -> usize {
    let end = words.iter().position(|word| !is_option(word.as_slice()));
    end.unwrap_or(words.len())
}

fn is_option(word: &[u8]) -> bool {
    match word {
        [b'-', b'-'] => false,
        [b'-' | b'+', _, ..] => true,
        _ => false,
    }
}

/// The words after the options, as arguments; a `--` at their beginning is none.
pub fn read_arguments(alloc: Global, words: &[Bytes]) -> Result<Vec<Argument>, Fault> {
    let mut arguments = Vec::new(alloc);
    for (place, word) in words.iter().enumerate() {
        let is_end = place == 0 && word.as_slice() == b"--".as_slice();
        if !is_end {
            arguments.push(read_argument(alloc, word.as_slice())?)?;
        }
    }
    Ok(arguments)
}

// NAME=TEXT, NAME+=TEXT, NAME[N]=TEXT and NAME=(..) assign.
fn read_argument(alloc: Global, word: &[u8]) -> Result<Argument, Fault> {
    let equals = word.iter().position(|byte| *byte == b'=');
    let Some(place) = equals else {
        return Ok(Argument::Said(Bytes::from_slice(alloc, word)?));
    };
    let value = word.get(place + 1..).unwrap_or(b"");
    let (left, appends) = match word.get(..place).unwrap_or(b"") {
        [left @ .., b'+'] => (left, true),
        left => (left, false),
    };
    let (name, at) = read_place(left)?;
    if !is_name(name) {
        return Ok(Argument::Said(Bytes::from_slice(alloc, word)?));
    }
    Ok(Argument::Assigns(Assignment {
        name: Bytes::from_slice(alloc, name)?,
        at,
        appends,
        given: read_given(alloc, value)?,
    }))
}

// A name, and the number between brackets after it.
fn read_place(left: &[u8]) -> Result<(&[u8], Option<i64>), Fault> {
    let Some(place) = left.iter().position(|byte| *byte == b'[') else {
        return Ok((left, None));
    };
    let name = left.get(..place).unwrap_or(b"");
    match left.get(place + 1..) {
        Some([digits @ .., b']']) => Ok((name, Some(read_index(digits)?))),
        _ => Err(Fault::NoRequest),
    }
}

fn read_index(digits: &[u8]) -> Result<i64, Fault> {
    signed_numbers::read_signed(digits).ok_or(Fault::NoRequest)
}

fn read_given(alloc: Global, value: &[u8]) -> Result<Given, Fault> {
    match value {
        [b'(', inner @ .., b')'] => Ok(Given::Array(elements(alloc, inner)?)),
        value => Ok(Given::Text(Bytes::from_slice(alloc, value)?)),
    }
}
