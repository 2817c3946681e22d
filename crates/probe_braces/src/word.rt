use crate::lexeme::{Lexeme, first};
use eb_bytes::{Bytes, Memory};
use eb_syntax::{Blank, Dollar, GroupPart, GroupPartOf, Piece, Plain, QPiece, Word};
use probe_base::Fault;
use shared::Shared;
use sqlite_items::Items;
use std::alloc::Global;

const NO_WORD: Fault = Fault::Refused("no");

// An extended group that is open: the byte before its parenthesis, and what was read of it.
#[derive(Drop)]
struct Group {
    kind: u8,
    parts: Items<GroupPart>,
}

// What was read of a word: the pieces before its open groups, and these, the outermost first.
#[derive(Drop)]
struct Reading {
    pieces: Items<Piece>,
    groups: Vec<Group>,
}

impl Reading {
    fn new(alloc: Global) -> Reading {
        Reading {
            pieces: Items::new(alloc),
            groups: Vec::new(alloc),
        }
    }

    // Puts a part after what was read. Only a piece stands outside of groups.
    fn put(&mut self, part: GroupPart) -> Result<(), Fault> {
        match (self.groups.last_mut(), part) {
            (Some(group), part) => group.parts.push(part)?,
            (None, GroupPartOf::Piece(piece)) => self.pieces.push(piece)?,
            (None, GroupPartOf::Blank(_) | GroupPartOf::Bar) => return Err(NO_WORD),
        }
        Ok(())
    }

    fn put_lexeme(&mut self, alloc: Global, lexeme: Lexeme<'_>) -> Result<(), Fault> {
        match lexeme {
            Lexeme::Byte(b'(') => self.open_group(alloc),
            Lexeme::Byte(b')') => self.close_group(alloc),
            Lexeme::Byte(b' ') => self.put(GroupPartOf::Blank(Blank::Space)),
            Lexeme::Byte(b'\t') => self.put(GroupPartOf::Blank(Blank::Tab)),
            Lexeme::Byte(b'|') => self.put(GroupPartOf::Bar),
            lexeme => {
                let piece = piece_of(alloc, lexeme)?;
                self.put(GroupPartOf::Piece(piece))
            }
        }
    }

    // Begins a group with the byte that was read last.
    fn open_group(&mut self, alloc: Global) -> Result<(), Fault> {
        let kind = self.take_byte().ok_or(NO_WORD)?;
        if !matches!(kind, b'?' | b'*' | b'+' | b'@' | b'!') {
            return Err(NO_WORD);
        }
        let parts = Items::new(alloc);
        self.groups.push(Group { kind, parts })?;
        Ok(())
    }

    // Takes away what was read last: an unquoted byte, if that was one.
    fn take_byte(&mut self) -> Option<u8> {
        let last = match self.groups.last_mut() {
            Some(group) => group.parts.pop(),
            None => self.pieces.pop().map(GroupPartOf::Piece),
        };
        match &last {
            Some(GroupPartOf::Piece(Piece::Plain(Plain::Byte(byte)))) => Some(*byte),
            _ => None,
        }
    }

    fn close_group(&mut self, alloc: Global) -> Result<(), Fault> {
        let Some(Group { kind, parts }) = self.groups.pop() else {
            return Err(NO_WORD);
        };
        let parts = Shared::new(alloc, parts)?;
        self.put(GroupPartOf::Piece(Piece::Group(kind, parts)))
    }

    fn finish(self, alloc: Global) -> Result<Word, Fault> {
        let Reading { pieces, groups } = self;
        if !groups.is_empty() {
            return Err(NO_WORD);
        }
        Ok(Word::of(alloc, pieces)?)
    }
}

/// The word that a text is.
pub(crate) fn read_word(alloc: Global, text: &[u8]) -> Result<Word, Fault> {
    let mut reading = Reading::new(alloc);
    read_lexemes(alloc, text, &mut reading)?;
    reading.finish(alloc)
}

fn read_lexemes(alloc: Global, text: &[u8], reading: &mut Reading) -> Result<(), Fault> {
    let mut rest = text;
    for _ in 0..text.len() {
        if rest.is_empty() {
            break;
        }
        let (lexeme, others) = first(rest).ok_or(NO_WORD)?;
        reading.put_lexeme(alloc, lexeme)?;
        rest = others;
    }
    Ok(())
}

fn piece_of(alloc: Global, lexeme: Lexeme<'_>) -> Result<Piece, Memory> {
    Ok(match lexeme {
        Lexeme::Byte(byte) => Piece::Plain(Plain::Byte(byte)),
        Lexeme::Escaped(b'\n') => Piece::Continuation,
        Lexeme::Escaped(byte) => Piece::Escaped(byte),
        Lexeme::Single(text) => Piece::Single(shared(alloc, text)?),
        Lexeme::Double(text) => Piece::Double(false, Shared::new(alloc, quoted(alloc, text)?)?),
        Lexeme::Name(b"") => Piece::Plain(Plain::Lone),
        Lexeme::Name(name) => Piece::Dollar(Dollar::Name(shared(alloc, name)?)),
    })
}

fn shared(alloc: Global, text: &[u8]) -> Result<Shared<Bytes>, Memory> {
    Ok(Shared::new(alloc, Bytes::from_slice(alloc, text)?)?)
}

fn quoted(alloc: Global, text: &[u8]) -> Result<Items<QPiece>, Memory> {
    let mut pieces = Items::new(alloc);
    for byte in text {
        pieces.push(QPiece::Byte(*byte))?;
    }
    Ok(pieces)
}
