use crate::patterns::pattern_refusal;
use bash_params::{CaseOp, ParamErr, Replace, Strip};
use bash_patterns::Pattern;
use eb_bytes::{Bytes, read_decimal};
use probe_base::{Answer, Fault, cut, read_marks, read_text, read_texts};
use shell_marks::Marked;
use shell_vars::Elements;
use signed_numbers::read_signed;
use std::alloc::Global;

// What a refusal of an operator answers.
fn refusal(error: ParamErr) -> Fault {
    match error {
        ParamErr::BadSubstitution => Fault::Refused("BadSubstitution"),
        ParamErr::ValueSize => Fault::Refused("ValueSize"),
        ParamErr::Memory => Fault::Memory,
    }
}

// An operator that has a pattern.
#[derive(Clone, Copy)]
enum Operator {
    Strip(Strip),
    Replace(Replace),
    Case(CaseOp),
}

fn read_operator(request: &[u8], op: &[u8]) -> Result<Operator, Fault> {
    match (request, op) {
        (b"strip", b"#") => Ok(Operator::Strip(Strip::ShortPrefix)),
        (b"strip", b"##") => Ok(Operator::Strip(Strip::LongPrefix)),
        (b"strip", b"%") => Ok(Operator::Strip(Strip::ShortSuffix)),
        (b"strip", b"%%") => Ok(Operator::Strip(Strip::LongSuffix)),
        (b"replace", b"/") => Ok(Operator::Replace(Replace::First)),
        (b"replace", b"//") => Ok(Operator::Replace(Replace::All)),
        (b"replace", b"/#") => Ok(Operator::Replace(Replace::AtStart)),
        (b"replace", b"/%") => Ok(Operator::Replace(Replace::AtEnd)),
        (b"case", b"^") => Ok(Operator::Case(CaseOp::UpFirst)),
        (b"case", b"^^") => Ok(Operator::Case(CaseOp::UpAll)),
        (b"case", b",") => Ok(Operator::Case(CaseOp::DownFirst)),
        (b"case", b",,") => Ok(Operator::Case(CaseOp::DownAll)),
        _ => Err(Fault::NoRequest),
    }
}

/// `strip OP MARKS TEXT`, `replace OP MARKS TEXT BY` and `case OP MARKS TEXT`: `ok` and the new text, or the error's
/// name; `deep` where the pattern's groups are nested too deep. Groups are read.
pub fn operate(request: &[u8], fields: &[&[u8]], answer: &mut Answer) -> Result<(), Fault> {
    let [op, marks, text, by @ ..] = fields else {
        return Err(Fault::NoRequest);
    };
    let operator = read_operator(request, op)?;
    let marks = read_marks(answer.alloc(), marks)?;
    operate_marks(operator, &marks, text, by, answer)
}

fn operate_marks(
    operator: Operator,
    marks: &Marked,
    field: &[u8],
    by: &[&[u8]],
    answer: &mut Answer,
) -> Result<(), Fault> {
    let pattern = Pattern::compile(answer.alloc(), marks, true).map_err(pattern_refusal)?;
    match (operator, by) {
        (Operator::Strip(op), []) => strip(op, &pattern, field, answer),
        (Operator::Case(op), []) => change_case(op, &pattern, field, answer),
        (Operator::Replace(op), [by]) => {
            let is_empty = marks.as_slice().iter().all(|mark| mark.byte().is_none());
            let pattern = if is_empty { None } else { Some(&pattern) };
            replace(op, pattern, field, by, answer)
        }
        _ => Err(Fault::NoRequest),
    }
}

fn strip(op: Strip, pattern: &Pattern, field: &[u8], answer: &mut Answer) -> Result<(), Fault> {
    let text = read_text(answer.alloc(), field)?;
    let left = bash_params::strip(answer.alloc(), op, text.as_slice(), pattern)?;
    put_text(&left, answer);
    Ok(())
}

fn change_case(
    op: CaseOp,
    pattern: &Pattern,
    field: &[u8],
    answer: &mut Answer,
) -> Result<(), Fault> {
    let text = read_text(answer.alloc(), field)?;
    let new = bash_params::change_case(answer.alloc(), op, text.as_slice(), pattern)?;
    put_text(&new, answer);
    Ok(())
}

fn replace(
    op: Replace,
    pattern: Option<&Pattern>,
    field: &[u8],
    by: &[u8],
    answer: &mut Answer,
) -> Result<(), Fault> {
    let text = read_text(answer.alloc(), field)?;
    let by = read_text(answer.alloc(), by)?;
    let (text, by) = (text.as_slice(), by.as_slice());
    let new = bash_params::replace(answer.alloc(), op, text, pattern, by).map_err(refusal)?;
    put_text(&new, answer);
    Ok(())
}

/// `sub TEXT FROM [LEN]`: `ok` and the substring, or the error's name.
pub fn substring(fields: &[&[u8]], answer: &mut Answer) -> Result<(), Fault> {
    let [text, from, len @ ..] = fields else {
        return Err(Fault::NoRequest);
    };
    let from = read_number(from)?;
    let len = match len {
        [] => None,
        [len] => Some(read_number(len)?),
        _ => return Err(Fault::NoRequest),
    };
    let text = read_text(answer.alloc(), text)?;
    let part = bash_params::substring(answer.alloc(), text.as_slice(), from, len).map_err(refusal)?;
    put_text(&part, answer);
    Ok(())
}

/// `slice FROM LEN [I=TEXT]..`: `ok` and the texts that the slice takes of these elements, or the error's name; `LEN` is
/// `-` where there is none.
pub fn slice(fields: &[&[u8]], answer: &mut Answer) -> Result<(), Fault> {
    let [from, len, pairs @ ..] = fields else {
        return Err(Fault::NoRequest);
    };
    let (from, len) = (read_number(from)?, read_length(len)?);
    let elements = read_elements(answer.alloc(), pairs)?;
    let texts = bash_params::slice(answer.alloc(), &elements, from, len).map_err(refusal)?;
    put_texts(texts.as_slice(), answer);
    Ok(())
}

/// `parameters FROM LEN ZERO [TEXT]..`: the same of these parameters, of which the first has the number 0.
pub fn parameters(fields: &[&[u8]], answer: &mut Answer) -> Result<(), Fault> {
    let [from, len, texts @ ..] = fields else {
        return Err(Fault::NoRequest);
    };
    let (from, len) = (read_number(from)?, read_length(len)?);
    let texts = read_texts(answer.alloc(), texts)?;
    put_parameters(from, len, texts.as_slice(), answer)
}

fn put_parameters(
    from: i64,
    len: Option<i64>,
    texts: &[Bytes],
    answer: &mut Answer,
) -> Result<(), Fault> {
    let [zero, args @ ..] = texts else {
        return Err(Fault::NoRequest);
    };
    let taken = bash_params::slice_parameters(
        answer.alloc(),
        zero.as_slice(),
        args,
        from,
        len,
    ).map_err(refusal)?;
    put_texts(taken.as_slice(), answer);
    Ok(())
}

fn read_elements(alloc: Global, pairs: &[&[u8]]) -> Result<Elements, Fault> {
    let mut elements = Elements::new(alloc);
    for pair in pairs {
        let (at, text) = cut(pair, b'=').ok_or(Fault::NoRequest)?;
        match read_decimal(at) {
            Some(at) if at < 1 << 63 => elements.insert(at, read_text(alloc, text)?)?,
            _ => return Err(Fault::NoRequest),
        }
    }
    Ok(elements)
}

fn read_length(field: &[u8]) -> Result<Option<i64>, Fault> {
    match field {
        b"-" => Ok(None),
        len => Ok(Some(read_number(len)?)),
    }
}

fn read_number(field: &[u8]) -> Result<i64, Fault> {
    read_signed(field).ok_or(Fault::NoRequest)
}

fn put_text(text: &Bytes, answer: &mut Answer) {
    answer.word("ok");
    answer.text(text.as_slice());
}

fn put_texts(texts: &[Bytes], answer: &mut Answer) {
    answer.word("ok");
    for text in texts {
        answer.text(text.as_slice());
    }
}
