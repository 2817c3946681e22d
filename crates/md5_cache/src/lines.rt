ghost use Rattle.std.specs.Prelude.{◌≡◌, MatchOption};
ghost use Rattle.std.specs.List.{prefix_len};
ghost use Rattle.md5_cache.specs.Parts.{BeginsLine, BeginsValue, HasNoLine, HasNoValueLine, IsCut, Lacks, differs};

use eapi_tables::Key;
use memchr::memchr;

// A line `NAME=value` at the front of a text, and what stands after its newline.
#[derive(Clone, Copy)]
pub struct Line<'a> {
    pub name: &'a [u8],
    pub value: &'a [u8],
    pub rest: &'a [u8],
}

// A line `KEY=value` at the front of a text, and what stands after its newline.
#[derive(Clone, Copy)]
pub struct ValueLine<'a> {
    pub key: Key,
    pub value: &'a [u8],
    pub rest: &'a [u8],
}

// How many bytes stand before the first of this value.
fn len_before(text: &[u8], byte: u8) -> usize
    ensures { result ≡ prefix_len (differs byte) text.now }
{
    memchr(byte, text).unwrap_or(text.len())
}

// What stands before the first byte of this value, and after it.
pub fn cut(text: &[u8], byte: u8) -> Option<(&[u8], &[u8])>
    ensures { MatchOption result (Lacks byte text.now) (λ cut. IsCut byte text.now cut.0.now cut.1.now) }
{
    let (front, back) = text.split_at(len_before(text, byte));
    match back {
        [] => None,
        [_, rest @ ..] => Some((front, rest)),
    }
}

// The line at the front of the text.
pub fn first_line(text: &[u8]) -> Option<Line<'_>>
    ensures { MatchOption result (HasNoLine text.now) (λ found. BeginsLine text.now found.name.now found.value.now found.rest.now) }
{
    let (content, rest) = cut(text, b'\n')?;
    let (name, value) = cut(content, b'=')?;
    Some(Line { name, value, rest })
}

// The line of a key at the front of the text.
pub fn first_value(text: &[u8]) -> Option<ValueLine<'_>>
    ensures { MatchOption result (HasNoValueLine text.now) (λ found. BeginsValue text.now (found.key, found.value.now) found.rest.now) }
{
    let line = first_line(text)?;
    let key = Key::read(line.name)?;
    Some(ValueLine {
        key,
        value: line.value,
        rest: line.rest,
    })
}
