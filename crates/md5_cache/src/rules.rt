ghost use Rattle.std.specs.Prelude.{◌≡◌, ◌↔◌, map, All, IfOk, IsTrue};
ghost use Rattle.std.specs.List.{list_all};
ghost use Rattle.std.specs.List.Sorted.{IsStrictlySortedBy};
ghost use Rattle.std.specs.Ordering.{is_lt, nat_cmp};
ghost use Rattle.std.specs.Cmp.Lexicographic.{slice_cmp};
ghost use Rattle.eapi_tables.specs.Key.{key_place};
ghost use Rattle.eb_bytes.specs.Text.{norm};
ghost use Rattle.md5_cache.specs.Entry.{HasNoZero};
ghost use Rattle.md5_cache.specs.Parts.{KeepsRules, agree, all_agree};
ghost use Rattle.md5_cache.specs.Record.{AreByName, HasOneMd5};

use byte_class::is_nul;
use eapi_tables::{Eapi, Key, has_key};
use eb_bytes::{Bytes, Memory, join_words};
use eb_digest::Digest;
use std::alloc::Global;

/// Whether a text holds no byte 0, as `Entry::new` requires of each value. Takes no memory.
pub fn has_no_zero(text: &[u8]) -> bool
    ensures { IsTrue result ↔ HasNoZero text.now }
{
    text.iter().all(|byte| !is_nul(*byte))
}

// Whether these are not two MD5s of one name.
fn agree(a: &(Bytes, Digest), b: &(Bytes, Digest)) -> bool
    ensures { result ≡ agree a.now b.now }
{
    a.0 != b.0 || a.1 == b.1
}

fn agrees_with_each(eclass: &(Bytes, Digest), eclasses: &[(Bytes, Digest)]) -> bool
    ensures { result ≡ list_all (agree eclass.now) eclasses.now }
{
    eclasses.iter().all(|other| agree(eclass, other))
}

fn all_agree(eclasses: &[(Bytes, Digest)]) -> bool
    ensures { result ≡ all_agree eclasses.now }
{
    eclasses
        .iter()
        .all(|eclass| agrees_with_each(eclass, eclasses))
}

/// Whether each name has one MD5, as `Entry::new` requires of the eclasses that were read. Takes no memory; its time
/// grows with the square of their number.
pub fn have_one_md5(eclasses: &[(Bytes, Digest)]) -> bool
    ensures { IsTrue result ↔ HasOneMd5 eclasses.now }
{
    all_agree(eclasses)
}

fn is_normal(alloc: Global, text: &[u8]) -> Result<bool, Memory>
    ensures { IfOk result (λ normal. IsTrue normal ↔ (norm text.now ≡ text.now)) }
{
    Ok(join_words(alloc, text)?.as_slice() == text)
}

fn keeps_rules(alloc: Global, eapi: Eapi, value: &(Key, Bytes)) -> Result<bool, Memory>
    ensures { IfOk result (λ keeps. IsTrue keeps ↔ KeepsRules eapi value.now) }
{
    let text = value.1.as_slice();
    let normal = is_normal(alloc, text)?;
    Ok(has_key(eapi, value.0) && normal && !text.is_empty() && has_no_zero(text))
}

// Whether each value keeps the rules of an entry of this EAPI.
pub fn all_keep_rules(alloc: Global, eapi: Eapi, values: &[(Key, Bytes)]) -> Result<bool, Memory>
    ensures { IfOk result (λ keep. IsTrue keep ↔ All (KeepsRules eapi) values.now) }
{
    for value in values {
        if !keeps_rules(alloc, eapi, value)? {
            return Ok(false);
        }
    }
    Ok(true)
}

fn is_before(a: Key, b: Key) -> bool
    ensures { result ≡ is_lt (nat_cmp (key_place a) (key_place b)) }
{
    a < b
}

fn is_below(a: &Bytes, b: &Bytes) -> bool
    ensures { result ≡ is_lt (slice_cmp nat_cmp a.now b.now) }
{
    a.cmp(b).is_lt()
}

// Whether the values stand in the order of an entry's lines, no key twice.
pub fn are_in_order(values: &[(Key, Bytes)]) -> bool
    ensures { IsTrue result ↔ IsStrictlySortedBy nat_cmp (map (λ value. key_place value.0) values.now) }
{
    values.is_sorted_by(|a, b| is_before(a.0, b.0))
}

// Whether the eclasses stand by name, none twice.
pub fn are_by_name(eclasses: &[(Bytes, Digest)]) -> bool
    ensures { IsTrue result ↔ AreByName eclasses.now }
{
    eclasses.is_sorted_by(|a, b| is_below(&a.0, &b.0))
}
