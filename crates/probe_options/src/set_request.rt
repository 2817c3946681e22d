use crate::given::{put_options, read_options};
use bash_options::set_options;
use eb_bytes::Bytes;
use probe_base::{Answer, Fault};
use probe_conditions::put_stop;

/// `set ON WORD..`, where `ON` has the names of the options that are on: `ok` and the names of those that are on then,
/// `parameters` and each that is given, where any are; or `fault` and its text.
pub fn set(on: &[u8], words: &[Bytes], answer: &mut Answer) -> Result<(), Fault> {
    let mut opts = read_options(answer.alloc(), on)?;
    match set_options(answer.alloc(), words, &mut opts) {
        Ok(parameters) => {
            answer.word("ok");
            put_options(opts, answer);
            put_parameters(parameters, answer);
        }
        Err(stop) => put_stop(&stop, answer),
    }
    Ok(())
}

fn put_parameters(parameters: Option<&[Bytes]>, answer: &mut Answer) {
    let Some(parameters) = parameters else {
        return;
    };
    answer.word("parameters");
    for parameter in parameters {
        answer.text(parameter.as_slice());
    }
}
