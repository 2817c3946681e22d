ghost use Rattle.std.specs.Prelude.{◌≡◌, ◌↔◌, ℕ, List, IfOk, IsTrue, MatchOption};
ghost use Rattle.md5_cache.specs.Entry.{EntryContent};
ghost use Rattle.md5_cache.specs.Parts.{AreFirstValues, AreLastLines, IsMd5Line, IsPlainText};

use crate::eclasses::read_record;
use crate::lines::{first_line, first_value};
use crate::record::as_digest;
use eapi_tables::Key;
use eb_bytes::{Bytes, Memory};
use eb_digest::Digest;
use std::alloc::Global;

// The values of the first lines, and what stands after these.
#[derive(Drop)]
struct FirstValues<'a> {
    values: Vec<(Key, Bytes)>,
    rest: &'a [u8],
}

// What the lines after the values say.
#[derive(Drop)]
struct LastLines {
    eclasses: Vec<(Bytes, Digest)>,
    md5: Digest,
}

// What the lines of a text say, before the rules of entries are checked.
#[derive(Drop)]
pub struct Parts {
    pub values: Vec<(Key, Bytes)>,
    pub eclasses: Vec<(Bytes, Digest)>,
    pub md5: Digest,
}

fn read_values(alloc: Global, text: &[u8]) -> Result<FirstValues<'_>, Memory>
    ensures { IfOk result (λ first. AreFirstValues text.now first.values.items first.rest.now) }
{
    let mut values = Vec::new(alloc);
    let mut rest = text;
    while let Some(line) = first_value(rest) {
        values.push((line.key, Bytes::from_slice(alloc, line.value)?))?;
        rest = line.rest;
    }
    Ok(FirstValues { values, rest })
}

fn is_text(text: &[u8], other: &[u8]) -> bool
    ensures { IsTrue result ↔ (text.now ≡ other.now) }
{
    text == other
}

// The MD5 where the text is the line of one.
fn read_md5(text: &[u8]) -> Option<Digest>
    ensures { MatchOption result ((md5 : List ℕ) → ¬ IsMd5Line text.now md5) (λ md5. IsMd5Line text.now md5) }
{
    let line = first_line(text)?;
    if !is_text(line.name, b"_md5_") {
        return None;
    }
    if !is_text(line.rest, b"") {
        return None;
    }
    let md5 = Digest::read(line.value).ok()?;
    Some(as_digest(md5))
}

// What the lines of the eclasses and of the MD5 say, if the text is these.
fn read_last(alloc: Global, text: &[u8]) -> Result<Option<LastLines>, Memory>
    ensures { IfOk result (λ found. MatchOption found ((eclasses : List (List ℕ × List ℕ)) (md5 : List ℕ) → ¬ AreLastLines text.now eclasses md5) (λ last. AreLastLines text.now last.eclasses.items last.md5)) }
{
    let Some(line) = first_line(text) else {
        return Ok(None);
    };
    if !is_text(line.name, b"_eclasses_") {
        return match read_md5(text) {
            Some(md5) => Ok(Some(LastLines {
                eclasses: Vec::new(alloc),
                md5,
            })),
            None => Ok(None),
        };
    }
    let Some(eclasses) = read_record(alloc, line.value)? else {
        return Ok(None);
    };
    match read_md5(line.rest) {
        Some(md5) => Ok(Some(LastLines { eclasses, md5 })),
        None => Ok(None),
    }
}

// What the lines of the text say, if they have the form of an entry's lines.
pub fn read_parts(alloc: Global, text: &[u8]) -> Result<Option<Parts>, Memory>
    ensures { IfOk result (λ found. MatchOption found ((entry : EntryContent) → ¬ IsPlainText text.now entry) (λ parts. IsPlainText text.now (record { values = parts.values.items; eclasses = parts.eclasses.items; md5 = parts.md5 }))) }
{
    let first = read_values(alloc, text)?;
    match read_last(alloc, first.rest)? {
        Some(last) => Ok(Some(Parts {
            values: first.values,
            eclasses: last.eclasses,
            md5: last.md5,
        })),
        None => Ok(None),
    }
}
