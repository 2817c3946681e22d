use eb_bytes::{Bytes, Memory};
use eb_syntax::{
    AndOr, Command, Dollar, Item, ItemEnd, Items, Piece, Pipe, QPiece, Simple, Tail, Word,
};
use probe_base::{Answer, Fault, read_text};
use shared::Shared;
use sqlite_items::Items as List;
use std::alloc::Global;

/// `share KIND TEXT`: the kind and the text of the value that `share` gives of a tree of this kind and text.
///
/// `word` is a word of one piece in single quotes, `items` a list of commands whose one command is that word, and each
/// other kind a piece: `single`, `ansi`, `double`, `escaped`, `back`, or a Dollar: `name`, `digit`, `special`,
/// `command`.
pub fn share(fields: &[&[u8]], answer: &mut Answer) -> Result<(), Fault> {
    let [kind, text] = fields else {
        return Err(Fault::NoRequest);
    };
    let text = read_text(answer.alloc(), text)?;
    match *kind {
        b"word" => share_word(text.as_slice(), answer),
        b"items" => share_items(text.as_slice(), answer),
        kind => share_piece(kind, text.as_slice(), answer),
    }
}

fn share_word(text: &[u8], answer: &mut Answer) -> Result<(), Fault> {
    let word = word_of(answer.alloc(), text)?;
    let same = word.share()?;
    answer.word("word");
    put_word(&same, answer);
    Ok(())
}

fn share_items(text: &[u8], answer: &mut Answer) -> Result<(), Fault> {
    let items = items_of(answer.alloc(), text)?;
    let same = items.share()?;
    answer.word("items");
    put_items(&same, answer);
    Ok(())
}

fn share_piece(kind: &[u8], text: &[u8], answer: &mut Answer) -> Result<(), Fault> {
    let piece = piece_of(answer.alloc(), kind, text)?;
    let same = piece.share()?;
    put_piece(&same, answer);
    Ok(())
}

fn shared_text(alloc: Global, text: &[u8]) -> Result<Shared<Bytes>, Memory> {
    Ok(Shared::new(alloc, Bytes::from_slice(alloc, text)?)?)
}

fn piece_of(alloc: Global, kind: &[u8], text: &[u8]) -> Result<Piece, Fault> {
    match (kind, text) {
        (b"single", text) => Ok(Piece::Single(shared_text(alloc, text)?)),
        (b"ansi", text) => Ok(Piece::Ansi(shared_text(alloc, text)?)),
        (b"double", text) => double_of(alloc, text),
        (b"escaped", [byte]) => Ok(Piece::Escaped(*byte)),
        (b"back", text) => Ok(Piece::Back(items_of(alloc, text)?)),
        (kind, text) => Ok(Piece::Dollar(dollar_of(alloc, kind, text)?)),
    }
}

fn double_of(alloc: Global, text: &[u8]) -> Result<Piece, Fault> {
    let mut pieces = Vec::new(alloc);
    for byte in text {
        pieces.push(QPiece::Byte(*byte))?;
    }
    let pieces = Shared::new(alloc, List::from_vec(pieces))?;
    Ok(Piece::Double(false, pieces))
}

fn dollar_of(alloc: Global, kind: &[u8], text: &[u8]) -> Result<Dollar, Fault> {
    match (kind, text) {
        (b"name", text) => Ok(Dollar::Name(shared_text(alloc, text)?)),
        (b"digit", [byte]) => Ok(Dollar::Digit(*byte)),
        (b"special", [byte]) => Ok(Dollar::Special(*byte)),
        (b"command", text) => Ok(Dollar::Command(items_of(alloc, text)?)),
        _ => Err(Fault::NoRequest),
    }
}

fn word_of(alloc: Global, text: &[u8]) -> Result<Word, Memory> {
    let piece = Piece::Single(shared_text(alloc, text)?);
    let pieces = Vec::from_array(alloc, [piece])?;
    Word::of(alloc, List::from_vec(pieces))
}

/// A simple command that is one word, this text in single quotes.
pub fn command_of(alloc: Global, text: &[u8]) -> Result<Shared<Command>, Memory> {
    let tail = Tail {
        first: word_of(alloc, text)?,
        others: List::new(alloc),
    };
    let simple = Simple {
        before: List::new(alloc),
        tail: Some(tail),
    };
    Ok(Shared::new(alloc, Command::Simple(simple))?)
}

fn items_of(alloc: Global, text: &[u8]) -> Result<Items, Memory> {
    let pipe = Pipe {
        marks: List::new(alloc),
        first: command_of(alloc, text)?,
        others: List::new(alloc),
    };
    let list = AndOr {
        first: pipe,
        others: List::new(alloc),
    };
    let end = ItemEnd::Ahead;
    let items = Vec::from_array(alloc, [Item { list, end }])?;
    let items = Shared::new(alloc, List::from_vec(items))?;
    Ok(Items { items })
}

fn put_piece(piece: &Piece, answer: &mut Answer) {
    match piece {
        Piece::Single(text) => put_kind("single", text.get().as_slice(), answer),
        Piece::Ansi(text) => put_kind("ansi", text.get().as_slice(), answer),
        Piece::Double(_, pieces) => put_double(pieces.get().as_slice(), answer),
        Piece::Escaped(byte) => put_kind("escaped", &[*byte], answer),
        Piece::Dollar(dollar) => put_dollar(dollar, answer),
        Piece::Back(items) => {
            answer.word("back");
            put_items(items, answer);
        }
        _ => answer.word("other"),
    }
}

fn put_dollar(dollar: &Dollar, answer: &mut Answer) {
    match dollar {
        Dollar::Name(name) => put_kind("name", name.get().as_slice(), answer),
        Dollar::Digit(byte) => put_kind("digit", &[*byte], answer),
        Dollar::Special(byte) => put_kind("special", &[*byte], answer),
        Dollar::Command(items) => {
            answer.word("command");
            put_items(items, answer);
        }
        _ => answer.word("other"),
    }
}

fn put_kind(kind: &str, text: &[u8], answer: &mut Answer) {
    answer.word(kind);
    answer.text(text);
}

fn put_double(pieces: &[QPiece], answer: &mut Answer) {
    answer.word("double");
    for piece in pieces {
        if let QPiece::Byte(byte) = piece {
            answer.text(&[*byte]);
        }
    }
}

fn put_word(word: &Word, answer: &mut Answer) {
    for piece in word.pieces.get().as_slice() {
        if let Piece::Single(text) = piece {
            answer.text(text.get().as_slice());
        }
    }
}

fn put_items(items: &Items, answer: &mut Answer) {
    for item in items.items.get().as_slice() {
        put_command(item.list.first.first.get(), answer);
    }
}

/// Puts the text of a command that `command_of` made.
pub fn put_command(command: &Command, answer: &mut Answer) {
    if let Command::Simple(simple) = command
        && let Some(tail) = &simple.tail
    {
        put_word(&tail.first, answer);
    }
}
