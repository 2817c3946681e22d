ghost use Rattle.std.specs.Prelude.{◌<◌, length};

use bash_parser::{ParseErr, parse_script};
use eb_bytes::Bytes;
use probe_base::{Answer, Fault};

// How many bytes a text has at most.
const LONGEST: usize = 4_294_967_294;

/// `parse TEXT`: `script` where the text is one, `refused` and the line where it is none, `deep` and the line where it nests
/// too deep.
pub fn parse(text: &[u8], answer: &mut Answer) -> Result<(), Fault> {
    if text.len() > LONGEST {
        return Err(Fault::NoRequest);
    }
    let text = Bytes::from_slice(answer.alloc(), text)?;
    put_reading(text, answer)
}

fn put_reading(text: Bytes, answer: &mut Answer) -> Result<(), Fault>
    requires { length text < 4294967295 }
{
    match parse_script(answer.alloc(), text) {
        Ok(_) => answer.word("script"),
        Err(ParseErr::Refused { line }) => {
            answer.word("refused");
            answer.number(u64::from(line));
        }
        Err(ParseErr::TooDeep { line }) => {
            answer.word("deep");
            answer.number(u64::from(line));
        }
        Err(ParseErr::Memory) => return Err(Fault::Memory),
    }
    Ok(())
}
