ghost use Rattle.std.specs.Prelude.{◌≡◌, ◌<◌};

use bash_unary::unary;
use eb_bytes::{Budget, Bytes, Steps};
use probe_base::{Answer, Fault, read_texts};
use probe_conditions::put_stop;
use probe_variables::{Known, before_set};
use shell_vars::Vars;
use std::marker::Brand;
use std::sync::ledger::{Blank, Ledger};

// How many steps a request may take.
const STEPS: u64 = 10;

/// `condition OP TEXT [ARG].. [set NAME=TEXT..]`: the answer of `[[ OP TEXT ]]` with these positional parameters and
/// variables: `true`, `false`, or `fault` and its text; then `steps` and how many were used. It may take 10 steps.
pub fn condition(fields: &[&[u8]], answer: &mut Answer) -> Result<(), Fault> {
    let (fields, given) = before_set(fields);
    let [op, texts @ ..] = fields else {
        return Err(Fault::NoRequest);
    };
    let texts = read_texts(answer.alloc(), texts)?;
    let [operand, args @ ..] = texts.as_slice() else {
        return Err(Fault::NoRequest);
    };
    let mut known = Known::new(answer.alloc(), b"", given)?;
    put_condition::<Brand>(
        op,
        operand.as_slice(),
        args,
        &mut known.vars,
        Blank::new(1),
        answer,
    );
    Ok(())
}

fn put_condition<L: Ledger>(
    op: &[u8],
    operand: &[u8],
    args: &[Bytes],
    vars: &mut Vars,
    blank: Blank,
    answer: &mut Answer,
)
    requires name { blank.name ≡ L.name }
    requires parts { blank.parts ≡ L.parts }
    requires some { 0 < blank.parts }
{
    let mut budget = Budget::new(STEPS);
    let mut steps = Steps::<L>::new(blank);
    let truth = unary(
        answer.alloc(),
        op,
        operand,
        args,
        vars,
        &mut budget,
        &mut steps,
    );
    match &truth {
        Ok(true) => answer.word("true"),
        Ok(false) => answer.word("false"),
        Err(stop) => put_stop(stop, answer),
    }
    answer.word("steps");
    answer.number(budget.used());
}
