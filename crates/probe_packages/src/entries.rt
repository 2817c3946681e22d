ghost use Rattle.std.specs.Prelude.{◌≡◌, ◌==◌, All, IfOk, IsSome, IsTrue, find};
ghost use Rattle.std.specs.Option.{option_copied};
ghost use Rattle.eapi_tables.specs.EclassName.{IsEclassName};
ghost use Rattle.eapi_tables.specs.Key.{key_place};
ghost use Rattle.eb_bytes.specs.Text.{has_bytes};
ghost use Rattle.md5_cache.specs.Entry.{HasNoZero, eapi_of, value_of, words_of};

use eapi_tables::{Eapi, Key, is_eclass_name};
use eb_bytes::{Bytes, Memory, join_words};
use eb_digest::{Digest, digest_of};
use md5_cache::{Entry, EntryErr, has_no_zero, have_one_md5, read_entry, write_entry};
use probe_base::{Answer, Fault, cut, read_text};
use std::alloc::Global;

// What a refusal of an entry answers.
fn refusal(error: EntryErr) -> Fault {
    match error {
        EntryErr::BadEntry => Fault::Refused("bad"),
        EntryErr::Incomplete => Fault::Refused("incomplete"),
        EntryErr::Memory => Fault::Memory,
    }
}

/// `entry TEXT`: `ok` and the text that writing the entry of this text gives, or `bad` where it is that of none.
pub fn entry(text: &[u8], answer: &mut Answer) -> Result<(), Fault> {
    let entry = read_entry(answer.alloc(), text).map_err(refusal)?;
    put_entry(&entry, answer)
}

fn put_entry(entry: &Entry, answer: &mut Answer) -> Result<(), Fault> {
    let text = write_entry(answer.alloc(), entry)?;
    answer.word("ok");
    answer.text(text.as_slice());
    Ok(())
}

/// `make TEXT [KEY=TEXT].. [ECLASS=TEXT]..`: `ok` and the text of the entry of an ebuild of this text, whose variables
/// have these values, and which reads these eclasses in this order, or `incomplete`. Keys are written as in an entry.
pub fn make(fields: &[&[u8]], answer: &mut Answer) -> Result<(), Fault> {
    let [ebuild, given @ ..] = fields else {
        return Err(Fault::NoRequest);
    };
    let ebuild = read_text(answer.alloc(), ebuild)?;
    let read = Read::new(answer.alloc(), given)?;
    let entry = read.entry(answer.alloc(), ebuild.as_slice())?;
    put_entry(&entry, answer)
}

// The values of variables, and the eclasses with the MD5s of their texts.
#[derive(Drop)]
struct Read {
    values: Vec<(Key, Bytes)>,
    eclasses: Vec<(Bytes, Digest)>,
}

impl Read {
    fn new(alloc: Global, given: &[&[u8]]) -> Result<Read, Fault> {
        let mut read = Read {
            values: Vec::new(alloc),
            eclasses: Vec::new(alloc),
        };
        for field in given {
            read.push(alloc, field)?;
        }
        Ok(read)
    }

    fn push(&mut self, alloc: Global, field: &[u8]) -> Result<(), Fault> {
        let (name, text) = cut(field, b'=').ok_or(Fault::NoRequest)?;
        let text = read_text(alloc, text)?;
        match Key::read(name) {
            Some(key) => self.values.push((key, text))?,
            None => {
                let name = Bytes::from_slice(alloc, name)?;
                self.eclasses.push((name, digest_of(text.as_slice())))?;
            }
        }
        Ok(())
    }

    // `NoRequest` where an entry cannot be asked for.
    fn entry(self, alloc: Global, ebuild: &[u8]) -> Result<Entry, Fault> {
        let values = self.values.as_slice();
        let eclasses = self.eclasses.as_slice();
        if !have_no_zero(values) || !have_names(eclasses) || !have_one_md5(eclasses) {
            return Err(Fault::NoRequest);
        }
        if !has_eapi(alloc, values)? {
            return Err(Fault::NoRequest);
        }
        let md5 = digest_of(ebuild);
        Entry::new(alloc, self.values, self.eclasses, md5).map_err(refusal)
    }
}

fn have_no_zero(values: &[(Key, Bytes)]) -> bool
    ensures { IsTrue result → All (λ value. HasNoZero value.1) values.now }
{
    values.iter().all(|value| has_no_zero(value.1.as_slice()))
}

fn have_names(eclasses: &[(Bytes, Digest)]) -> bool
    ensures { IsTrue result → All (λ eclass. IsEclassName eclass.0) eclasses.now }
{
    eclasses
        .iter()
        .all(|eclass| is_eclass_name(eclass.0.as_slice()))
}

// Whether the value of EAPI is one digit from 0 to 8, or has no words.
fn has_eapi(alloc: Global, values: &[(Key, Bytes)]) -> Result<bool, Memory>
    ensures { IfOk result (λ has. IsTrue has → IsTrue (has_bytes (words_of Key.Eapi values.now)) → IsSome (eapi_of values.now)) }
{
    let words = join_words(alloc, value_of(values, Key::Eapi))?;
    Ok(words.is_empty() || Eapi::read(words.as_slice()).is_ok())
}

// The first value of the key, empty where there is none.
fn value_of<'a>(values: &'a [(Key, Bytes)], key: Key) -> &'a [u8]
    ensures { result.now ≡ value_of key values.now }
{
    match find_value(values, key) {
        Some(value) => value.1.as_slice(),
        None => b"",
    }
}

fn find_value<'a>(values: &'a [(Key, Bytes)], key: Key) -> Option<&'a (Key, Bytes)>
    ensures { option_copied result ≡ find (λ value. key_place value.0 == key_place key) values.now }
{
    values.iter().find(|value| is_same_key(value.0, key))
}

fn is_same_key(a: Key, b: Key) -> bool
    ensures { result ≡ (key_place a == key_place b) }
{
    a == b
}
