ghost use Rattle.std.specs.Prelude.{◌≡◌, ◌++◌, IfOk, MatchOption};
ghost use Rattle.std.specs.Option.{option_copied};
ghost use Rattle.md5_cache.specs.Parts.{BeginsEclass, HasNoEclass, IsNoRecord, IsRecordText, Lacks, after_eclass};

use crate::lines::cut;
use crate::record::as_digest;
use eapi_tables::is_eclass_name;
use eb_bytes::{Bytes, Memory};
use eb_digest::Digest;
use std::alloc::Global;

// A field at the front of a text, and where a tab follows, what stands after it.
#[derive(Clone, Copy)]
struct Field<'a> {
    text: &'a [u8],
    rest: Option<&'a [u8]>,
}

// An eclass at the front of a text, and where a tab follows, what stands after it.
#[derive(Clone, Copy)]
struct FirstEclass<'a> {
    name: &'a [u8],
    md5: Digest,
    rest: Option<&'a [u8]>,
}

fn first_field(text: &[u8]) -> Field<'_>
    ensures is { text.now ≡ result.text.now ++ after_eclass (option_copied result.rest) }
    ensures lacks { Lacks 9 result.text.now }
{
    match cut(text, b'\t') {
        Some((field, rest)) => Field {
            text: field,
            rest: Some(rest),
        },
        None => Field { text, rest: None },
    }
}

fn first_eclass(text: &[u8]) -> Option<FirstEclass<'_>>
    ensures { MatchOption result (HasNoEclass text.now) (λ found. BeginsEclass text.now (found.name.now, found.md5) (option_copied found.rest)) }
{
    let (name, after) = cut(text, b'\t')?;
    if !is_eclass_name(name) {
        return None;
    }
    let field = first_field(after);
    let md5 = Digest::read(field.text).ok()?;
    Some(FirstEclass {
        name,
        md5: as_digest(md5),
        rest: field.rest,
    })
}

// The eclasses of a record, in its order, if the text is a record of at least one.
pub fn read_record(alloc: Global, text: &[u8]) -> Result<Option<Vec<(Bytes, Digest)>>, Memory>
    ensures { IfOk result (λ found. MatchOption found (IsNoRecord text.now) (λ list. IsRecordText text.now list.items)) }
{
    let mut eclasses = Vec::new(alloc);
    let mut rest = Some(text);
    while let Some(left) = rest {
        let Some(first) = first_eclass(left) else {
            return Ok(None);
        };
        eclasses.push((Bytes::from_slice(alloc, first.name)?, first.md5))?;
        rest = first.rest;
    }
    Ok(Some(eclasses))
}
