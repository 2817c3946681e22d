use eb_bytes::Bytes;
use probe_base::{Answer, Fault, Style, parts, read_texts};
use probe_braces::{brace_count, braces};
use probe_builtins::{echo, printf, reads};
use probe_calls::calls;
use probe_conditions::{binary, truth, unary};
use probe_declare::declares;
use probe_names::builtin;
use probe_options::{set, shopt};
use probe_packages::{
    cut, digest, eapi, entry, form, key, make, names, paths, phase, phases, read_digest, rs,
    signed, test, unquoted, unsigned, version, words,
};
use probe_patterns::{Search, find, operate, parameters, slice, split, substring};
use probe_redirs::{assign, documents, mark, redir, regex};
use probe_scripts::{condition, parse};
use probe_trees::{ansi, ansi_expanded, fault, funcs, share};
use probe_variables::{arith, read, vars};
use probe_words::word;
use std::alloc::Global;

/// The answer to a line.
pub fn answer(alloc: Global, line: &[u8], style: Style) -> Answer {
    let mut answer = Answer::new(alloc, style);
    if let Err(fault) = answer_line(line, &mut answer) {
        answer.fail(fault);
    }
    answer
}

fn answer_line(line: &[u8], answer: &mut Answer) -> Result<(), Fault> {
    let mut fields = parts(answer.alloc(), line, b' ')?;
    fields.retain(|field| !field.is_empty());
    match fields.as_slice() {
        [request, fields @ ..] => answer_fields(request, fields, answer),
        [] => Err(Fault::NoRequest),
    }
}

// Answers a request whose fields are not all texts.
fn answer_fields(request: &[u8], fields: &[&[u8]], answer: &mut Answer) -> Result<(), Fault> {
    match request {
        b"unquoted" => unquoted(fields, answer),
        b"split" => split(fields, answer),
        b"match" => find(Search::Each, fields, answer),
        b"matches" => find(Search::Whole, fields, answer),
        b"first" => find(Search::First, fields, answer),
        b"all" => find(Search::All, fields, answer),
        b"strip" | b"replace" | b"case" => operate(request, fields, answer),
        b"sub" => substring(fields, answer),
        b"slice" => slice(fields, answer),
        b"parameters" => parameters(fields, answer),
        b"vars" => vars(fields, answer),
        b"funcs" => funcs(fields, answer),
        b"calls" => calls(fields, answer),
        b"declares" => declares(fields, answer),
        b"share" => share(fields, answer),
        b"make" => make(fields, answer),
        b"fault" => fault(fields, answer),
        b"arith" => arith(fields, answer),
        b"truth" => truth(fields, answer),
        b"condition" => condition(fields, answer),
        b"unary" => unary(fields, answer),
        b"binary" => binary(fields, answer),
        b"echo" => echo(fields, answer),
        b"printf" => printf(fields, answer),
        b"reads" => reads(fields, answer),
        b"read" => read(fields, answer),
        request => {
            let texts = read_texts(answer.alloc(), fields)?;
            answer_texts(request, texts.as_slice(), answer)
        }
    }
}

// Answers a request whose fields are texts.
fn answer_texts(request: &[u8], texts: &[Bytes], answer: &mut Answer) -> Result<(), Fault> {
    match (request, texts) {
        (b"rs", [v, pairs @ ..]) => rs(v.as_slice(), pairs, answer),
        (b"shopt", [on, words @ ..]) => shopt(on.as_slice(), words, answer),
        (b"set", [on, words @ ..]) => set(on.as_slice(), words, answer),
        (b"names", [category, package, file]) => names([category, package, file], answer),
        (b"paths", [a, b, c, d, e, f]) => paths([a, b, c], [d, e, f], answer),
        (b"test", [a, op, b]) => test(a.as_slice(), op.as_slice(), b.as_slice(), answer),
        (request, [text]) => answer_text(request, text.as_slice(), answer),
        (request, [a, b]) => answer_two(request, a.as_slice(), b.as_slice(), answer),
        _ => Err(Fault::NoRequest),
    }
}

// Answers a request of one text.
fn answer_text(request: &[u8], text: &[u8], answer: &mut Answer) -> Result<(), Fault> {
    match request {
        b"words" => words(text, answer),
        b"word" => word(text, answer),
        b"assign" => assign(text, answer),
        b"redir" => redir(text, answer),
        b"regex" => regex(text, answer),
        b"mark" => mark(text, answer),
        b"documents" => documents(text, answer),
        b"builtin" => builtin(text, answer),
        b"parse" => parse(text, answer),
        b"unsigned" => unsigned(text, answer),
        b"signed" => signed(text, answer),
        b"digest" => digest(text, answer),
        b"read_digest" => read_digest(text, answer),
        b"eapi" => eapi(text, answer),
        b"phases" => phases(text, answer),
        b"entry" => entry(text, answer),
        b"braces" => braces(text, answer),
        b"brace_count" => brace_count(text, answer),
        b"ansi" => ansi(text, answer),
        b"ansi_value" => ansi_expanded(text, answer),
        request => form(request, text, answer),
    }
}

// Answers a request of two texts.
fn answer_two(request: &[u8], a: &[u8], b: &[u8], answer: &mut Answer) -> Result<(), Fault> {
    match request {
        b"key" => key(a, b, answer),
        b"phase" => phase(a, b, answer),
        b"version" => version(a, b, answer),
        b"cut" => cut(a, b, answer),
        _ => Err(Fault::NoRequest),
    }
}
