use eb_bytes::{decimal, join_words, read_decimal, words_of};
use eb_digest::{Digest, digest_of};
use probe_base::{Answer, Fault, read_marks};
use shell_marks::Marked;
use signed_numbers::{read_signed, signed_decimal};
use std::alloc::Global;

/// `words TEXT`: the words of the text and the text with one blank between two of them.
pub fn words(text: &[u8], answer: &mut Answer) -> Result<(), Fault> {
    for word in words_of(answer.alloc(), text)? {
        answer.text(word.as_slice());
    }
    answer.word("joined");
    let joined = join_words(answer.alloc(), text)?;
    answer.text(joined.as_slice());
    Ok(())
}

/// `unsigned TEXT`: the text of the number that is read from the text, or `none`.
pub fn unsigned(text: &[u8], answer: &mut Answer) -> Result<(), Fault> {
    let number = read_decimal(text).ok_or(Fault::Refused("none"))?;
    let digits = decimal(answer.alloc(), number)?;
    answer.text(digits.as_slice());
    Ok(())
}

/// `signed TEXT`: the text of the number that is read from the text, which may have a sign and leading zeros, or
/// `none`.
pub fn signed(text: &[u8], answer: &mut Answer) -> Result<(), Fault> {
    let number = read_signed(text).ok_or(Fault::Refused("none"))?;
    let digits = signed_decimal(answer.alloc(), number)?;
    answer.text(digits.as_slice());
    Ok(())
}

/// `unquoted MARKS..`: the text that quote removal leaves of the lists, one after another.
pub fn unquoted(fields: &[&[u8]], answer: &mut Answer) -> Result<(), Fault> {
    let mut marks = Marked::new(answer.alloc());
    for field in fields {
        append(answer.alloc(), field, &mut marks)?;
    }
    let text = marks.unquoted(answer.alloc())?;
    answer.text(text.as_slice());
    Ok(())
}

fn append(alloc: Global, field: &[u8], marks: &mut Marked) -> Result<(), Fault> {
    let more = read_marks(alloc, field)?;
    marks.append(more.as_slice())?;
    Ok(())
}

/// `digest TEXT`: the MD5 of the text.
pub fn digest(text: &[u8], answer: &mut Answer) -> Result<(), Fault> {
    let digits = digest_of(text).hex(answer.alloc())?;
    answer.text(digits.as_slice());
    Ok(())
}

/// `read_digest TEXT`: the bytes of the digest that the text writes, or `none`.
pub fn read_digest(text: &[u8], answer: &mut Answer) -> Result<(), Fault> {
    match Digest::read(text) {
        Ok(digest) => answer.text(digest.bytes()),
        Err(_) => answer.word("none"),
    }
    Ok(())
}
