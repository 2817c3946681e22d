use eb_bytes::Bytes;
use probe_base::{Answer, Fault};
use std::cmp::Ordering;
use version_funcs::{VerErr, compare_versions, read_version, ver_cut, ver_rs, ver_test};

// What a refusal of the version functions answers.
fn refusal(error: VerErr) -> Fault {
    match error {
        VerErr::BadRange => Fault::Refused("BadRange"),
        VerErr::BadVersion => Fault::Refused("BadVersion"),
        VerErr::BadOperator => Fault::Refused("BadOperator"),
        VerErr::Memory => Fault::Memory,
    }
}

/// `version A B`: `less`, `equal` or `greater`, as the first stands to the second; `none` where one is no version.
pub fn version(a: &[u8], b: &[u8], answer: &mut Answer) -> Result<(), Fault> {
    if read_version(a) && read_version(b) {
        answer.word(order_word(compare_versions(a, b)));
    } else {
        answer.word("none");
    }
    Ok(())
}

/// The word of an order.
pub fn order_word(order: Ordering) -> &'static str {
    match order {
        Ordering::Less => "less",
        Ordering::Equal => "equal",
        Ordering::Greater => "greater",
    }
}

/// `cut RANGE V`: `ok` and what is cut out, or the error's name.
pub fn cut(range: &[u8], v: &[u8], answer: &mut Answer) -> Result<(), Fault> {
    let text = ver_cut(answer.alloc(), range, v).map_err(refusal)?;
    put_text(&text, answer);
    Ok(())
}

/// `rs V [RANGE SEP]..`: `ok` and the text with its separators replaced, or the error's name.
pub fn rs(v: &[u8], pairs: &[Bytes], answer: &mut Answer) -> Result<(), Fault> {
    if pairs.len() % 2 != 0 {
        return Err(Fault::NoRequest);
    }
    let text = ver_rs(answer.alloc(), pairs, v).map_err(refusal)?;
    put_text(&text, answer);
    Ok(())
}

fn put_text(text: &Bytes, answer: &mut Answer) {
    answer.word("ok");
    answer.text(text.as_slice());
}

/// `test A OP B`: `true`, `false`, or the error's name.
pub fn test(a: &[u8], op: &[u8], b: &[u8], answer: &mut Answer) -> Result<(), Fault> {
    let holds = ver_test(a, op, b).map_err(refusal)?;
    answer.word(if holds { "true" } else { "false" });
    Ok(())
}
