ghost use Rattle.std.specs.Prelude.{◌≡◌, ◌≢◌, ◌==◌, false, All, IfOk, IsTrue, IsSome, OnOk, find};
ghost use Rattle.std.specs.Option.{option_copied};
ghost use Rattle.eb_bytes.specs.Text.{has_bytes};
ghost use Rattle.eapi_tables.specs.EclassName.{IsEclassName};
ghost use Rattle.eapi_tables.specs.Key.{key_place};
ghost use Rattle.md5_cache.specs.Entry.{HasNoZero, IsEntry, eapi_of, is_complete, kept_value, kept_values, value_of, words_of};
ghost use Rattle.md5_cache.specs.Parts.{IsPlain};
ghost use Rattle.md5_cache.specs.Record.{HasOneMd5, IsRecordOf};

use crate::parts::Parts;
use crate::record::{as_digest, record_of};
use crate::rules::{all_keep_rules, are_by_name, are_in_order};
use eapi_tables::{Eapi, Key, has_key};
use eb_bytes::{Bytes, Memory, join_words};
use eb_digest::Digest;
use std::alloc::Global;
use std::marker::Model;
use thiserror::Error;

/// What the cache records of one ebuild: the values of its keys, the eclasses that were read, and its MD5.
#[derive(Drop)]
pub struct Entry {
    values: Vec<(Key, Bytes)>,
    eclasses: Vec<(Bytes, Digest)>,
    md5: Digest,
}

impl Model for Entry {
    ghost use Rattle.md5_cache.specs.Entry.{EntryContent, IsEntry};

    ghost Value = { EntryContent };

    ghost view = { λ e. record { values = e.values.items; eclasses = e.eclasses.items; md5 = e.md5 } };

    ghost invariant = { λ e. IsEntry (record { values = e.values.items; eclasses = e.eclasses.items; md5 = e.md5 }) };
}

/// Why there is no entry.
#[derive(Clone, Copy, Debug, PartialEq, Eq, Error)]
pub enum EntryErr {
    /// A key that stands in every entry has no words.
    #[error("no EAPI, DEFINED_PHASES or SLOT")]
    Incomplete,
    /// A text is that of no entry.
    #[error("not the text of a cache entry")]
    BadEntry,
    /// Out of memory.
    #[error("out of memory")]
    Memory,
}

impl From<Memory> for EntryErr {
    ghost use Rattle.std.specs.Prelude.{◌≡◌};
    ghost use Rattle.md5_cache.specs.declared.entry.EntryErr.TheVariants as why;

    ghost from_gives = { λ _ error. error ≡ why.Memory };

    fn from(_error: Memory) -> EntryErr {
        EntryErr::Memory
    }
}

fn is_same_key(a: Key, b: Key) -> bool
    ensures { result ≡ (key_place a == key_place b) }
{
    a == b
}

// The first value of the key, with the key.
fn find_value<'a>(values: &'a [(Key, Bytes)], key: Key) -> Option<&'a (Key, Bytes)>
    ensures { option_copied result ≡ find (λ value. key_place value.0 == key_place key) values.now }
{
    values.iter().find(|value| is_same_key(value.0, key))
}

// The key's value, empty where there is none.
fn value_of<'a>(values: &'a [(Key, Bytes)], key: Key) -> &'a [u8]
    ensures { result.now ≡ value_of key values.now }
{
    match find_value(values, key) {
        Some(value) => value.1.as_slice(),
        None => b"",
    }
}

// The words of the key's value, joined by one blank.
fn words_of(alloc: Global, values: &[(Key, Bytes)], key: Key) -> Result<Bytes, Memory>
    ensures { IfOk result (λ text. text ≡ words_of key values.now) }
{
    join_words(alloc, value_of(values, key))
}

// Whether each key that always stands has words.
fn is_complete(alloc: Global, values: &[(Key, Bytes)]) -> Result<bool, Memory>
    ensures { IfOk result (λ complete. complete ≡ is_complete values.now) }
{
    let phases = words_of(alloc, values, Key::DefinedPhases)?;
    let eapi = words_of(alloc, values, Key::Eapi)?;
    let slot = words_of(alloc, values, Key::Slot)?;
    Ok(!phases.is_empty() && !eapi.is_empty() && !slot.is_empty())
}

// The EAPI that the values name, if they do.
fn eapi_of(alloc: Global, values: &[(Key, Bytes)]) -> Result<Option<Eapi>, Memory>
    ensures { IfOk result (λ eapi. eapi ≡ eapi_of values.now) }
{
    let text = words_of(alloc, values, Key::Eapi)?;
    Ok(Eapi::read(text.as_slice()).ok())
}

// The key with its words, where the EAPI has the key and there are words.
fn kept_value(
    alloc: Global,
    values: &[(Key, Bytes)],
    eapi: Eapi,
    key: Key,
) -> Result<Option<(Key, Bytes)>, Memory>
    requires { eapi_of values.now ≡ Some eapi }
    ensures { IfOk result (λ kept. kept ≡ kept_value values.now key) }
{
    if !has_key(eapi, key) {
        return Ok(None);
    }
    let text = words_of(alloc, values, key)?;
    if text.is_empty() {
        return Ok(None);
    }
    Ok(Some((key, text)))
}

// The values that an entry of this EAPI keeps, in the order of its lines.
fn kept_values(
    alloc: Global,
    values: &[(Key, Bytes)],
    eapi: Eapi,
) -> Result<Vec<(Key, Bytes)>, Memory>
    requires { eapi_of values.now ≡ Some eapi }
    ensures { IfOk result (λ kept. kept.items ≡ kept_values values.now) }
{
    let mut kept = Vec::new(alloc);
    for key in Key::ALL {
        if let Some(value) = kept_value(alloc, values, eapi, key)? {
            kept.push(value)?;
        }
    }
    Ok(kept)
}

// The values that an entry keeps, where each key that always stands has words.
fn complete_values(alloc: Global, values: &[(Key, Bytes)]) -> Result<Vec<(Key, Bytes)>, EntryErr>
    requires { IsTrue (has_bytes (words_of Key.Eapi values.now)) → IsSome (eapi_of values.now) }
    ensures complete { OnOk result (IsTrue (is_complete values.now)) }
    ensures eapi { OnOk result (IsSome (eapi_of values.now)) }
    ensures incomplete { result ≡ Err EntryErr.Incomplete → is_complete values.now ≡ false }
    ensures values { IfOk result (λ kept. kept.items ≡ kept_values values.now) }
    ensures never_bad { result ≢ Err EntryErr.BadEntry }
{
    if !is_complete(alloc, values)? {
        return Err(EntryErr::Incomplete);
    }
    let Some(eapi) = eapi_of(alloc, values)? else {
        return Err(EntryErr::Incomplete);
    };
    Ok(kept_values(alloc, values, eapi)?)
}

impl Entry {
    /// The entry of these values, in any order, of the eclasses that were read, in any order and as often as they
    /// were, and of the ebuild's MD5. A value becomes its words joined by one blank; a key without words, or that the
    /// EAPI does not have, is left out; of two values of one key the first counts.
    ///
    /// Requires that no value holds byte 0 (`has_no_zero`), that the value of EAPI, where it has words, is one digit
    /// from 0 to 8, that the eclasses have names of eclasses (`is_eclass_name`), and that each name has one MD5
    /// (`have_one_md5`).
    ///
    /// # Errors
    /// `Incomplete` where EAPI, DEFINED_PHASES or SLOT has no words, and `Memory` where there is no room.
    pub fn new(
        alloc: Global,
        values: Vec<(Key, Bytes)>,
        eclasses: Vec<(Bytes, Digest)>,
        md5: Digest,
    ) -> Result<Entry, EntryErr>
        requires no_zero { All (λ value. HasNoZero value.1) values.items }
        requires eapi { IsTrue (has_bytes (words_of Key.Eapi values.items)) → IsSome (eapi_of values.items) }
        requires names { All (λ eclass. IsEclassName eclass.0) eclasses.items }
        requires one_md5 { HasOneMd5 eclasses.items }
        ensures complete { OnOk result (IsTrue (is_complete values.items)) }
        ensures incomplete { result ≡ Err EntryErr.Incomplete → is_complete values.items ≡ false }
        ensures values { IfOk result (λ entry. entry.values ≡ kept_values values.items) }
        ensures eclasses { IfOk result (λ entry. IsRecordOf eclasses.items entry.eclasses) }
        ensures md5 { IfOk result (λ entry. entry.md5 ≡ md5) }
        ensures never_bad { result ≢ Err EntryErr.BadEntry }
    {
        let kept = complete_values(alloc, values.as_slice())?;
        let record = record_of(alloc, eclasses)?;
        Ok(Entry {
            values: kept,
            eclasses: record,
            md5: as_digest(md5),
        })
    }

    // The entry of these parts as they stand, if they keep the rules.
    pub(crate) fn of_parts(alloc: Global, parts: Parts) -> Result<Entry, EntryErr>
        requires { IsPlain (record { values = parts.values.items; eclasses = parts.eclasses.items; md5 = parts.md5 }) }
        ensures same { IfOk result (λ entry. entry ≡ record { values = parts.values.items; eclasses = parts.eclasses.items; md5 = parts.md5 }) }
        ensures rules { IfOk result IsEntry }
        ensures bad { result ≡ Err EntryErr.BadEntry → ¬ IsEntry (record { values = parts.values.items; eclasses = parts.eclasses.items; md5 = parts.md5 }) }
        ensures never_incomplete { result ≢ Err EntryErr.Incomplete }
    {
        let values = parts.values.as_slice();
        let Some(eapi) = eapi_of(alloc, values)? else {
            return Err(EntryErr::BadEntry);
        };
        if !is_complete(alloc, values)? {
            return Err(EntryErr::BadEntry);
        }
        if !all_keep_rules(alloc, eapi, values)? {
            return Err(EntryErr::BadEntry);
        }
        if !are_in_order(values) {
            return Err(EntryErr::BadEntry);
        }
        if !are_by_name(parts.eclasses.as_slice()) {
            return Err(EntryErr::BadEntry);
        }
        Ok(Entry {
            values: parts.values,
            eclasses: parts.eclasses,
            md5: parts.md5,
        })
    }

    /// The values, in the order of the entry's lines.
    pub fn values(&self) -> &[(Key, Bytes)]
        ensures values { result.now ≡ self.now.values }
        ensures rules { IsEntry self.now }
    {
        self.values.as_slice()
    }

    /// The eclasses that were read, by name, and their MD5s.
    pub fn eclasses(&self) -> &[(Bytes, Digest)]
        ensures eclasses { result.now ≡ self.now.eclasses }
        ensures rules { IsEntry self.now }
    {
        self.eclasses.as_slice()
    }

    /// The MD5 of the ebuild.
    pub fn md5(&self) -> Digest
        ensures { result ≡ self.now.md5 }
    {
        self.md5
    }
}
