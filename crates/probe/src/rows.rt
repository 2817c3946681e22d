use crate::request::answer;
use probe_base::{Answer, End, Fault, Style, read_marks, read_text, split_before};
use std::alloc::{AllocError, Global};
use std::rt::Files;
use std::{fs, io};

/// How many rows there were, and how many of them differ.
#[derive(Clone, Copy)]
pub struct Count {
    pub rows: u64,
    pub differ: u64,
}

/// Checks the rows of these files, and prints each that differs.
pub fn check_files(rt: &(impl Files + Print + AllocGlobal), files: &[String]) -> io::Result<Count> {
    let mut count = Count { rows: 0, differ: 0 };
    for file in files {
        match fs::read(rt, file.as_str()) {
            Ok(text) => check_file(rt, file.as_str(), text.as_slice(), &mut count)?,
            Err(error) => {
                println!(rt; "{file}: cannot be read: {error}")?;
                count.differ = count.differ.saturating_add(1);
            }
        }
    }
    Ok(count)
}

fn check_file(
    rt: &(impl Print + AllocGlobal),
    file: &str,
    text: &[u8],
    count: &mut Count,
) -> io::Result<()> {
    for (above, line) in text.split(|byte| *byte == b'\n').enumerate() {
        if line.is_empty() || line.starts_with(b"#") {
            continue;
        }
        count.rows = count.rows.saturating_add(1);
        if !check_line(rt, file, above.saturating_add(1), line)? {
            count.differ = count.differ.saturating_add(1);
        }
    }
    Ok(())
}

// Whether the line is a row that agrees with its answer; if not, that is printed.
fn check_line(
    rt: &(impl Print + AllocGlobal),
    file: &str,
    number: usize,
    line: &[u8],
) -> io::Result<bool> {
    let Some((request, wanted)) = halves(line) else {
        println!(rt; "{file}:{number}: not a row")?;
        return Ok(false);
    };
    match agrees(rt.alloc(), request, wanted) {
        Ok(true) => return Ok(true),
        Ok(false) => print_difference(rt, file, number, request, wanted)?,
        Err(Fault::Memory) => return Err(AllocError.into()),
        Err(_) => println!(rt; "{file}:{number}: not an answer")?,
    }
    Ok(false)
}

// Whether the answer to the request is the one that is wanted; `NoRequest` where that is written as no answer is.
fn agrees(alloc: Global, request: &[u8], wanted: &[u8]) -> Result<bool, Fault> {
    let plain = plain(alloc, wanted)?;
    let came = answer(alloc, request, Style::Hexadecimal);
    match (came.finished(), plain.finished()) {
        (Ok(came), Ok(plain)) => Ok(came == plain),
        _ => Err(Fault::Memory),
    }
}

fn print_difference(
    rt: &(impl Print + AllocGlobal),
    file: &str,
    number: usize,
    request: &[u8],
    wanted: &[u8],
) -> io::Result<()> {
    let wanted = String::from_utf8_lossy(rt.alloc(), wanted)?;
    let came = answer(rt.alloc(), request, Style::Readable);
    let came = came.finished().unwrap_or("out of memory");
    println!(rt; "{file}:{number}: wanted {wanted}, came {came}")
}

// The request and the answer of a row.
fn halves(line: &[u8]) -> Option<(&[u8], &[u8])> {
    match split_before(line, End::Text(b" => ")) {
        (request, [b' ', b'=', b'>', b' ', wanted @ ..]) => Some((request, wanted)),
        _ => None,
    }
}

// An answer with its texts and marks in hexadecimal.
fn plain(alloc: Global, wanted: &[u8]) -> Result<Answer, Fault> {
    let mut plain = Answer::new(alloc, Style::Hexadecimal);
    push_plain(wanted, &mut plain)?;
    Ok(plain)
}

fn push_plain(wanted: &[u8], plain: &mut Answer) -> Result<(), Fault> {
    let mut rest = wanted;
    for _ in 0..=wanted.len() {
        let (part, after) = split_before(rest, End::OneOf(b" ,=()"));
        push_part(part, plain)?;
        let [joint, others @ ..] = after else {
            break;
        };
        plain.push_name(&[*joint]);
        rest = others;
    }
    Ok(())
}

fn push_part(part: &[u8], plain: &mut Answer) -> Result<(), Fault> {
    match part {
        part if !part.contains(&b'"') => plain.push_name(part),
        [b'L' | b'R' | b'Q', ..] => {
            let marks = read_marks(plain.alloc(), part)?;
            plain.push_marks(marks.as_slice());
        }
        part => {
            let text = read_text(plain.alloc(), part)?;
            plain.push_text(text.as_slice());
        }
    }
    Ok(())
}
