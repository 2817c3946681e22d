ghost use Rattle.std.specs.Prelude.{◌≡◌, ◌<◌};

use crate::stops::put_truth;
use bash_cond::{Operands, text_test};
use eb_bytes::{Budget, Steps};
use eb_syntax::BinOp;
use probe_base::{Answer, Fault, read_marks, read_text};
use probe_variables::{Known, read_limit};
use shell_marks::Marked;
use shell_vars::Vars;
use std::marker::Brand;
use std::sync::ledger::{Blank, Ledger};

/// `unary LETTER TEXT`: the answer of the operator of `[[ .. ]]` that is `-` and this letter, but for `-v`: `true`,
/// `false`, or `fault` and its text.
pub fn unary(fields: &[&[u8]], answer: &mut Answer) -> Result<(), Fault> {
    let [[letter], text] = fields else {
        return Err(Fault::NoRequest);
    };
    if *letter == b'v' {
        return Err(Fault::NoRequest);
    }
    let text = read_text(answer.alloc(), text)?;
    put_truth(&text_test(answer.alloc(), *letter, text.as_slice()), answer);
    Ok(())
}

/// `binary OP TEXT MARKS [steps LIMIT] [NAME=TEXT]..`: the answer of an operator of `[[ .. ]]` with two operands, told
/// as that of `unary`; then `steps` and how many were used.
pub fn binary(fields: &[&[u8]], answer: &mut Answer) -> Result<(), Fault> {
    let [op, left, right, given @ ..] = fields else {
        return Err(Fault::NoRequest);
    };
    let op = operator_of(op).ok_or(Fault::NoRequest)?;
    let (limit, given) = read_limit(given)?;
    let mut known = Known::new(answer.alloc(), b"", given)?;
    binary_with(op, [left, right], limit, &mut known.vars, answer)
}

fn binary_with(
    op: BinOp,
    sides: [&[u8]; 2],
    limit: u64,
    vars: &mut Vars,
    answer: &mut Answer,
) -> Result<(), Fault> {
    let [left, right] = sides;
    let right = read_marks(answer.alloc(), right)?;
    binary_between(op, left, &right, limit, vars, answer)
}

fn binary_between(
    op: BinOp,
    left: &[u8],
    right: &Marked,
    limit: u64,
    vars: &mut Vars,
    answer: &mut Answer,
) -> Result<(), Fault> {
    let left = read_text(answer.alloc(), left)?;
    let operands = Operands {
        left: left.as_slice(),
        right,
    };
    put_binary::<Brand>(op, &operands, limit, vars, Blank::new(1), answer);
    Ok(())
}

fn put_binary<L: Ledger>(
    op: BinOp,
    operands: &Operands<'_>,
    limit: u64,
    vars: &mut Vars,
    blank: Blank,
    answer: &mut Answer,
)
    requires name { blank.name ≡ L.name }
    requires parts { blank.parts ≡ L.parts }
    requires some { 0 < blank.parts }
{
    let mut budget = Budget::new(limit);
    let truth = bash_cond::binary(
        answer.alloc(),
        op,
        operands,
        vars,
        &mut budget,
        &mut Steps::<L>::new(blank),
    );
    put_truth(&truth, answer);
    answer.word("steps");
    answer.number(budget.used());
}

// The operator that is written so.
fn operator_of(written: &[u8]) -> Option<BinOp> {
    match written {
        b"==" => Some(BinOp::DoubleEqual),
        b"=" => Some(BinOp::Equal),
        b"!=" => Some(BinOp::NotEqual),
        b"<" => Some(BinOp::Before),
        b">" => Some(BinOp::After),
        b"-eq" => Some(BinOp::NumberEqual),
        b"-ne" => Some(BinOp::NumberNotEqual),
        b"-lt" => Some(BinOp::NumberLess),
        b"-le" => Some(BinOp::NumberAtMost),
        b"-gt" => Some(BinOp::NumberGreater),
        b"-ge" => Some(BinOp::NumberAtLeast),
        b"-nt" => Some(BinOp::NewerFile),
        b"-ot" => Some(BinOp::OlderFile),
        b"-ef" => Some(BinOp::SameFile),
        _ => None,
    }
}
