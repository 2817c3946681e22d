use eb_bytes::{Bytes, Memory};
use eb_syntax::{Blank, Dollar, GroupPart, GroupPartOf, Piece, Plain, QPiece, Word};
use std::alloc::Global;

// How many groups in one another are written. The grammar has no more.
const NESTED: u8 = 200;

/// The text of a word, without its quotes and with each name as `${NAME}`.
pub(crate) fn text_of(alloc: Global, word: &Word) -> Result<Bytes, Memory> {
    let mut text = Bytes::new(alloc);
    for piece in word.pieces.get().as_slice() {
        push_piece(&mut text, piece, NESTED)?;
    }
    Ok(text)
}

// Puts a piece's text at the end, where so many groups in one another are still written.
#[cycle(piece)]
fn push_piece(text: &mut Bytes, piece: &Piece, nested: u8) -> Result<(), Memory> {
    match piece {
        Piece::Plain(Plain::Byte(byte)) | Piece::Escaped(byte) => text.push(*byte),
        Piece::Plain(Plain::Lone) => text.push(b'$'),
        Piece::Single(quoted) => text.extend(quoted.get().as_slice()),
        Piece::Double(_, quoted) => push_quoted(text, quoted.get().as_slice()),
        Piece::Dollar(Dollar::Name(name)) => push_name(text, name.get().as_slice()),
        Piece::Group(kind, parts) if 0 < nested => {
            text.extend(&[*kind, b'('])?;
            push_parts(text, parts.get().as_slice(), nested - 1)?;
            text.push(b')')
        }
        _ => Ok(()),
    }
}

#[cycle(piece)]
fn push_parts(text: &mut Bytes, parts: &[GroupPart], nested: u8) -> Result<(), Memory> {
    for part in parts {
        match part {
            GroupPartOf::Piece(piece) => push_piece(text, piece, nested)?,
            GroupPartOf::Blank(blank) => push_blank(text, *blank)?,
            GroupPartOf::Bar => text.push(b'|')?,
        }
    }
    Ok(())
}

fn push_blank(text: &mut Bytes, blank: Blank) -> Result<(), Memory> {
    match blank {
        Blank::Space => text.push(b' '),
        Blank::Tab => text.push(b'\t'),
        Blank::Continuation => Ok(()),
    }
}

fn push_quoted(text: &mut Bytes, pieces: &[QPiece]) -> Result<(), Memory> {
    for piece in pieces {
        if let QPiece::Byte(byte) = piece {
            text.push(*byte)?;
        }
    }
    Ok(())
}

fn push_name(text: &mut Bytes, name: &[u8]) -> Result<(), Memory> {
    text.extend(b"${")?;
    text.extend(name)?;
    text.push(b'}')
}
