use crate::text::text_of;
use crate::word::read_word;
use bash_braces::BraceErr;
use eb_syntax::Word;
use probe_base::{Answer, Fault};

// What a refusal of braces answers.
fn refusal(error: BraceErr) -> Fault {
    match error {
        BraceErr::TooMany => Fault::Refused("many"),
        BraceErr::Memory => Fault::Memory,
    }
}

/// `braces TEXT`: `ok` and the text of each word that the text's braces give, without its quotes and with each name as
/// `${NAME}`, or `many`; `no` where the text is no word of unquoted bytes, backslashes with a byte, quoted bytes, `$NAME`s
/// and extended groups of these.
pub fn braces(text: &[u8], answer: &mut Answer) -> Result<(), Fault> {
    let word = read_word(answer.alloc(), text)?;
    let words = bash_braces::braces(answer.alloc(), &word).map_err(refusal)?;
    answer.word("ok");
    for word in &words {
        put_text(word, answer)?;
    }
    Ok(())
}

fn put_text(word: &Word, answer: &mut Answer) -> Result<(), Fault> {
    let text = text_of(answer.alloc(), word)?;
    answer.text(text.as_slice());
    Ok(())
}

/// `brace_count TEXT`: `ok` and how many words the text's braces give, else as `braces` does.
pub fn brace_count(text: &[u8], answer: &mut Answer) -> Result<(), Fault> {
    let word = read_word(answer.alloc(), text)?;
    let words = bash_braces::braces(answer.alloc(), &word).map_err(refusal)?;
    answer.word("ok");
    answer.number(words.len() as u64);
    Ok(())
}
