//! Answers requests to the libraries, for measurements, comparisons and tests. No part of the product.
//!
//! Without arguments it reads one request a line from standard input and writes one answer a line, to the end of the
//! input. With arguments `rows FILE..` it checks the rows of these files, `REQUEST => ANSWER` a line, prints each that
//! differs, and at the end `N rows, M differ`; its status is 1 where one differs. Empty lines and lines that begin with
//! `#` may stand between rows.
//!
//! Fields are separated by blanks. A text is lower-case hexadecimal, `-` where it is empty, or readable in double
//! quotes: printable bytes as they are, `\"`, `\\`, `\n`, `\t`, `\xHH`. Texts are joined by `+`, and `64*` before one
//! says how often it stands there. Answers to standard input write texts in hexadecimal.
//!
//! A list of marks is its marks joined by commas, `-` where it is empty: `L` and a text for literals, `R` for bytes of
//! a result, `Q` for quoted bytes, `E` for empty quotes, `B` for a break; `64*` may stand before one. Answers write
//! each mark alone, its byte in hexadecimal. A name of a variable is written as it is.
//!
//! | request | answer |
//! |---|---|
//! | `words TEXT` | the words, then `joined` and the text of them with one blank between two |
//! | `unsigned TEXT`; `signed TEXT` | the text of the number that the text writes, or `none` |
//! | `name TEXT` | whether it is the name of a shell variable, `yes` or `no` |
//! | `unquoted MARKS..` | the text that quote removal leaves of the lists, one after another |
//! | `digest TEXT`; `read_digest TEXT` | the digits of the MD5; the bytes that digits stand for, or `none` |
//! | `eapi TEXT` | the EAPI that an ebuild's text names |
//! | `key EAPI KEY`; `phase EAPI NAME` | has it, accumulates it, each `yes` or `no`; `yes` or `no`; `none` |
//! | `phases EAPI` | the names of its phase functions, in the order of the phases; `none` |
//! | `eclass TEXT` | whether it has the form of an eclass's name, `yes` or `no` |
//! | `entry TEXT` | `ok` and the text that writing the entry gives, or `bad` |
//! | `make TEXT [KEY=TEXT].. [ECLASS=TEXT]..` | `ok` and the entry of this ebuild and its eclasses, or `incomplete` |
//! | `version A B` | `less`, `equal` or `greater`; `none` where one is no version |
//! | `cut RANGE V`; `rs V [RANGE SEP]..` | `ok TEXT`, or the error's name |
//! | `test A OP B` | `true`, `false`, or the error's name |
//! | `names CAT PN FILE` | CATEGORY, PN, PV, PR, P, PVR and PF, or `bad` and the part that does not hold |
//! | `paths CAT PN FILE CAT PN FILE` | `less`, `equal` or `greater` |
//! | `category TEXT`; `package TEXT`; `flag TEXT` | whether it is the name of one, `yes` or `no` |
//! | `split IFS MARKS` | the fields as lists of marks, `.` for one without marks; `-` where there is none |
//! | `matches EXTENDED MARKS TEXT` | `yes` or `no`, or `deep`; `EXTENDED` is 1 where groups are read, else 0 |
//! | `match EXTENDED MARKS TEXT` | the same, then the shortest and the longest prefix and suffix and the first match |
//! | `first EXTENDED MARKS TEXT FROM` | the first match from this place on, `BEGIN-END` or `none` |
//! | `all EXTENDED MARKS TEXT` | all matches from left to right, `BEGIN-END` each, or `none` |
//! | `strip OP MARKS TEXT`; `case OP MARKS TEXT` | `ok` and the new text, or `deep`; groups are read |
//! | `replace OP MARKS TEXT BY` | the same, or `ValueSize` |
//! | `sub TEXT FROM [LEN]` | `ok` and the substring, or `BadSubstitution` |
//! | `slice FROM LEN [I=TEXT]..` | `ok` and the elements taken, or `BadSubstitution`; `LEN` may be `-` |
//! | `parameters FROM LEN ZERO [TEXT]..` | the same of these parameters, the first with the number 0 |
//! | `vars CALL..` | what the calls answer, as the head of `data/variables.rows` says |
//! | `funcs CALL..` | what the calls answer, as the head of `data/functions.rows` says |
//! | `calls CALL..` | what the calls answer, as the head of `data/calls.rows` says |
//! | `declares [steps N] CALL..` | what declarations answer, as the head of `data/declarations.rows` says; `steps N` |
//! | `braces TEXT` | `ok` and the text of each word that the text's braces give, `many`, or `no` where it is no word |
//! | `brace_count TEXT` | `ok` and how many words the text's braces give, or the same |
//! | `shopt ON WORD..` | `ok`, the status, what is printed, the steps used of 10, the options on; or `fault` and its text |
//! | `set ON WORD..` | `ok`, the options on, and `parameters` and each where they are given; or `fault` and its text |
//! | `ansi TEXT`; `ansi_value TEXT` | what `$'..'` around the text stands for; `ok` and that, or `Quoting` |
//! | `fault NAME [FIELD]..` | the text of the fault of a script; a text or a number in decimal for each field |
//! | `word TEXT` | `place N`, where a word at the text's start ends; `no`, `deep LINE`, or `commands` where some stand in it |
//! | `assign TEXT`; `redir TEXT`; `regex TEXT` | the same of an assignment, a redirection, a regular expression |
//! | `mark TEXT` | the same of a here-document's word, then `bare` or `quoted` and the text that ends its body |
//! | `documents TEXT` | the same of redirections, assignments and lines, then what is read of their here-documents |
//! | `builtin TEXT` | which builtin has this name, or `none`; `plain` or `declaration` before it tells its kind |
//! | `parse TEXT` | `script` where the text is one; `refused LINE` or `deep LINE` |
//! | `share KIND TEXT` | the kind and the text of what `share` gives of a tree of this kind and text |
//! | `truth [WORD].. [set NAME=TEXT..]` | the truth of the words of `test`, `true` or `false`, or `fault` and its text |
//! | `condition OP TEXT [ARG].. [set NAME=TEXT..]` | the same of `[[ OP TEXT ]]`, then `steps N` |
//! | `unary LETTER TEXT` | the same of `[[ -LETTER TEXT ]]`, but for `-v` |
//! | `binary OP TEXT MARKS [steps LIMIT] [NAME=TEXT]..` | the same of `[[ TEXT OP MARKS ]]`, then `steps N` |
//! | `arith TEXT [steps LIMIT] [GIVEN]..` | `ok N` or the fault, `steps N`, then each variable given or set |
//! | `echo [steps LIMIT] [WORD]..` | `ok`, the status and what is printed, or `fault` and its text; then `steps N` |
//! | `printf [steps LIMIT] [WORD].. [set GIVEN..]` | the same, then each variable given, or named in the first four words |
//! | `reads INPUT IFS [WORD].. [set GIVEN..]` | `ok`, the status, what `read` prints, `took N` bytes of the input, variables |
//! | `read LEVELS TEXT` | `ok` and the number of an expression's instructions, or the refusal's name |
//!
//! A line that is no request answers `what`. `GIVEN` is `NAME=TEXT`, `NAME[SUBSCRIPT]=TEXT`, or `!NAME` where the name
//! is readonly.
#![tactic(auto)]

mod request;
mod rows;

use crate::request::answer;
use crate::rows::check_files;
use probe_base::Style;
use std::alloc::AllocError;
use std::process::ExitCode;
use std::{env, io};

fn answer_lines(rt: &HostRuntime) -> io::Result<()> {
    for line in rt.lines(rt.alloc()) {
        print_answer(rt, line?.as_str())?;
    }
    Ok(())
}

fn print_answer(rt: &HostRuntime, line: &str) -> io::Result<()> {
    let answer = answer(rt.alloc(), line.as_bytes(), Style::Hexadecimal);
    match answer.finished() {
        Ok(line) => println!(rt; "{line}"),
        Err(_) => Err(AllocError.into()),
    }
}

fn run(rt: &HostRuntime) -> io::Result<ExitCode> {
    let words: Vec<String> = env::args(rt)?.skip(1).collect(rt.alloc())?;
    match words.as_slice() {
        [] => {
            answer_lines(rt)?;
            Ok(ExitCode::SUCCESS)
        }
        [word, files @ ..] if word.as_str() == "rows" && !files.is_empty() => {
            let count = check_files(rt, files)?;
            println!(rt; "{} rows, {} differ", count.rows, count.differ)?;
            Ok(ExitCode::from(u8::from(count.differ > 0)))
        }
        _ => {
            eprintln!(rt; "usage: probe [rows FILE..]")?;
            Ok(ExitCode::from(2))
        }
    }
}

fn main(rt: HostRuntime) -> io::Result<ExitCode> {
    run(&rt)
}
