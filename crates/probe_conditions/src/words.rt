use crate::stops::put_truth;
use bash_cond::test_args;
use probe_base::{Answer, Fault, read_texts};
use probe_variables::{Known, before_set};
use shell_vars::Vars;

/// `truth [WORD].. [set NAME=TEXT..]`: the truth of the words of `test`, with these variables, `true` or `false`; or
/// `fault` and its text.
pub fn truth(fields: &[&[u8]], answer: &mut Answer) -> Result<(), Fault> {
    let (words, given) = before_set(fields);
    let known = Known::new(answer.alloc(), b"", given)?;
    truth_with(words, &known.vars, answer)
}

fn truth_with(fields: &[&[u8]], vars: &Vars, answer: &mut Answer) -> Result<(), Fault> {
    let words = read_texts(answer.alloc(), fields)?;
    put_truth(&test_args(answer.alloc(), words.as_slice(), vars), answer);
    Ok(())
}
