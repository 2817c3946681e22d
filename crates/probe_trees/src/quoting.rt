use eb_grammar::{AnsiErr, ansi_text, ansi_value};
use probe_base::{Answer, Fault};

// What a refusal of an escape answers.
fn refusal(error: AnsiErr) -> Fault {
    match error {
        AnsiErr::Quoting => Fault::Refused("Quoting"),
        AnsiErr::Memory => Fault::Memory,
    }
}

/// `ansi TEXT`: what `$'..'` around the text stands for, where escapes that are refused stay as they are written.
pub fn ansi(text: &[u8], answer: &mut Answer) -> Result<(), Fault> {
    let value = ansi_text(answer.alloc(), text)?;
    answer.text(value.as_slice());
    Ok(())
}

/// `ansi_value TEXT`: `ok` and what `$'..'` around the text stands for, or the error's name.
pub fn ansi_expanded(text: &[u8], answer: &mut Answer) -> Result<(), Fault> {
    let value = ansi_value(answer.alloc(), text).map_err(refusal)?;
    answer.word("ok");
    answer.text(value.as_slice());
    Ok(())
}
