//! Arguments and numbers.

use bash_calls::{Args, Calls};
use eb_bytes::{Bytes, read_decimal};
use probe_base::{Answer, Fault, cut, parts, read_texts};
use std::alloc::Global;

/// Arguments, `TEXT,..`.
pub fn read_args(alloc: Global, field: &[u8]) -> Result<Args, Fault> {
    let fields = parts(alloc, field, b',')?;
    Ok(Args::from_vec(read_texts(alloc, fields.as_slice())?))
}

/// Puts `args` and how many there are, then each.
pub fn put_args(args: &[Bytes], answer: &mut Answer) {
    answer.word("args");
    answer.number(args.len() as u64);
    for arg in args {
        answer.text(arg.as_slice());
    }
}

/// A number.
pub fn read_number(field: &[u8]) -> Result<usize, Fault> {
    let number = read_decimal(field).ok_or(Fault::NoRequest)?;
    usize::try_from(number).map_err(|_| Fault::NoRequest)
}

/// What is to be done, and how often: `WHAT*N`, or once.
pub fn read_count(field: &[u8]) -> Result<(&[u8], u64), Fault> {
    match cut(field, b'*') {
        Some((what, count)) => Ok((what, read_decimal(count).ok_or(Fault::NoRequest)?)),
        None => Ok((field, 1)),
    }
}

/// Drops so many arguments, or puts `few` where there are fewer.
pub fn shift(count: usize, calls: &mut Calls, answer: &mut Answer) {
    if count <= calls.args().len() {
        calls.shift(count);
    } else {
        answer.word("few");
    }
}
