use crate::capture::{capturing, put_status};
use bash_read::read;
use eb_bytes::Bytes;
use probe_base::{Answer, Fault, read_text, read_texts};
use probe_variables::{Known, before_set};
use shell_vars::{Value, VarErr};

/// `reads INPUT IFS [WORD].. [set GIVEN..]`: what `read` answers with this input and these variables: `ok`, the status,
/// what is printed, and `took` and how many bytes of the input were taken, or `fault` and its text; then the variables that were
/// given, and REPLY and those that are named in the words, where they have a value. `IFS` is a text, or `unset`.
pub fn reads(fields: &[&[u8]], answer: &mut Answer) -> Result<(), Fault> {
    let [input, ifs, fields @ ..] = fields else {
        return Err(Fault::NoRequest);
    };
    let (words, given) = before_set(fields);
    let mut known = Known::new(answer.alloc(), b"REPLY", given)?;
    set_ifs(ifs, &mut known, answer)?;
    reads_with(input, words, &mut known, answer)?;
    known.put(answer);
    Ok(())
}

fn set_ifs(field: &[u8], known: &mut Known, answer: &Answer) -> Result<(), Fault> {
    if field == b"unset".as_slice() {
        return Ok(());
    }
    let ifs = read_text(answer.alloc(), field)?;
    known.vars.set(b"IFS", Value::Text(ifs)).map_err(refusal)
}

fn refusal(error: VarErr) -> Fault {
    match error {
        VarErr::Memory => Fault::Memory,
        _ => Fault::NoRequest,
    }
}

fn reads_with(
    input: &[u8],
    fields: &[&[u8]],
    known: &mut Known,
    answer: &mut Answer,
) -> Result<(), Fault> {
    let words = read_texts(answer.alloc(), fields)?;
    for word in words.iter() {
        known.push_names(answer.alloc(), word.as_slice())?;
    }
    put_read(input, words.as_slice(), known, answer)
}

fn put_read(
    input: &[u8],
    words: &[Bytes],
    known: &mut Known,
    answer: &mut Answer,
) -> Result<(), Fault> {
    let mut io = capturing(answer.alloc())?;
    io.input = read_text(answer.alloc(), input)?;
    let status = read(answer.alloc(), words, &mut known.vars, &mut io);
    put_status(&status, &mut io, answer);
    if status.is_ok() {
        answer.word("took");
        answer.number(io.place as u64);
    }
    Ok(())
}
