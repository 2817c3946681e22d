ghost use Rattle.std.specs.Prelude.{◌≡◌, ◌<◌};

use crate::fields::read_limit;
use crate::known::Known;
use crate::place::refusal;
use arith_syntax::{ReadErr, Refusal};
use bash_arith::{ArithErr, eval};
use eb_bytes::{Budget, Steps, read_decimal};
use probe_base::{Answer, Fault, read_text};
use shell_vars::Vars;
use std::marker::Brand;
use std::sync::ledger::{Blank, Ledger};

/// `arith TEXT [steps LIMIT] [GIVEN]..`: `ok` and the expression's number, or the fault's name and what it tells;
/// `steps` and how many were used; then each variable that was given or set, in the order of the names.
///
/// `GIVEN` is `NAME=TEXT`, `NAME[SUBSCRIPT]=TEXT`, or `!NAME` for a readonly name. A variable is told as it is given.
/// One that was not given is told where its name stands in one of the texts, without double quotes in it.
pub fn arith(fields: &[&[u8]], answer: &mut Answer) -> Result<(), Fault> {
    let [text, given @ ..] = fields else {
        return Err(Fault::NoRequest);
    };
    let (limit, given) = read_limit(given)?;
    let text = read_text(answer.alloc(), text)?;
    let mut known = Known::new(answer.alloc(), text.as_slice(), given)?;
    evaluate::<Brand>(
        text.as_slice(),
        limit,
        &mut known.vars,
        Blank::new(1),
        answer,
    );
    known.put(answer);
    Ok(())
}

fn evaluate<L: Ledger>(text: &[u8], limit: u64, vars: &mut Vars, blank: Blank, answer: &mut Answer)
    requires name { blank.name ≡ L.name }
    requires parts { blank.parts ≡ L.parts }
    requires some { 0 < blank.parts }
{
    let alloc = answer.alloc();
    let mut budget = Budget::new(limit);
    match eval(alloc, text, vars, &mut budget, &mut Steps::<L>::new(blank)) {
        Ok(number) => {
            answer.word("ok ");
            answer.push_signed(number);
        }
        Err(fault) => put_fault(&fault, answer),
    }
    answer.word("steps");
    answer.number(budget.used());
}

fn put_fault(fault: &ArithErr, answer: &mut Answer) {
    match fault {
        ArithErr::Syntax => answer.word("Syntax"),
        ArithErr::DivZero => answer.word("DivZero"),
        ArithErr::NegativeExponent => answer.word("NegativeExponent"),
        ArithErr::Nesting => answer.word("Nesting"),
        ArithErr::Unsupported(name) => {
            answer.word("Unsupported ");
            answer.push_name(name.as_slice());
        }
        ArithErr::Var(name, error) => {
            answer.word("Var ");
            answer.push_name(name.as_slice());
            answer.fail(refusal(*error));
        }
        ArithErr::Spent => answer.word("Spent"),
        ArithErr::Memory => answer.fail(Fault::Memory),
    }
}

// What a refusal of an expression's text answers.
fn read_refusal(error: ReadErr) -> Fault {
    match error {
        ReadErr::Refused(Refusal::Syntax) => Fault::Refused("Syntax"),
        ReadErr::Refused(Refusal::Nesting) => Fault::Refused("Nesting"),
        ReadErr::Memory => Fault::Memory,
    }
}

/// `read LEVELS TEXT`: `ok` and how many instructions the expression has, where so many nestings may be open at once,
/// or the refusal's name.
pub fn read(fields: &[&[u8]], answer: &mut Answer) -> Result<(), Fault> {
    let [levels, text] = fields else {
        return Err(Fault::NoRequest);
    };
    let levels = read_decimal(levels).ok_or(Fault::NoRequest)?;
    let Ok(levels) = u8::try_from(levels) else {
        return Err(Fault::NoRequest);
    };
    let text = read_text(answer.alloc(), text)?;
    let code = arith_syntax::read(answer.alloc(), text.as_slice(), levels).map_err(read_refusal)?;
    answer.word("ok");
    answer.number(code.len() as u64);
    Ok(())
}
