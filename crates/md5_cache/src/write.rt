ghost use Rattle.std.specs.Prelude.{◌≡◌, ◌∷◌, [], ◌++◌, IfOk, OnOk};
ghost use Rattle.std.specs.List.{flat_map};
ghost use Rattle.md5_cache.specs.Entry.{HasNoEntryBefore, IsTextOfOne, eclasses_line, entry_text, line, value_line};
ghost use Rattle.md5_cache.specs.Record.{eclass_text, record_text};

use crate::entry::Entry;
use eapi_tables::Key;
use eb_bytes::{Bytes, Memory};
use eb_digest::Digest;
use std::alloc::Global;

fn put_line(out: &mut Bytes, name: &[u8], value: &[u8]) -> Result<(), Memory>
    ensures { OnOk result (out.new ≡ out.old ++ line name.now value.now) }
{
    out.extend(name)?;
    out.extend(b"=")?;
    out.extend(value)?;
    out.extend(b"\n")
}

fn put_values(out: &mut Bytes, values: &[(Key, Bytes)]) -> Result<(), Memory>
    ensures { OnOk result (out.new ≡ out.old ++ flat_map value_line values.now) }
{
    for value in values {
        put_line(out, value.0.name(), value.1.as_slice())?;
    }
    Ok(())
}

fn put_eclass(alloc: Global, out: &mut Bytes, eclass: &(Bytes, Digest)) -> Result<(), Memory>
    ensures { OnOk result (out.new ≡ out.old ++ eclass_text eclass.now) }
{
    let md5 = eclass.1.hex(alloc)?;
    out.extend(eclass.0.as_slice())?;
    out.extend(b"\t")?;
    out.extend(md5.as_slice())
}

// Names and MD5s alternating, separated by tabs.
fn record_text(alloc: Global, eclasses: &[(Bytes, Digest)]) -> Result<Bytes, Memory>
    ensures { IfOk result (λ text. text ≡ record_text eclasses.now) }
{
    let mut text = Bytes::new(alloc);
    for (i, eclass) in eclasses.iter().enumerate() {
        if i > 0 {
            text.extend(b"\t")?;
        }
        put_eclass(alloc, &mut text, eclass)?;
    }
    Ok(text)
}

// The line of the eclasses, where there are some.
fn put_eclasses(alloc: Global, out: &mut Bytes, eclasses: &[(Bytes, Digest)]) -> Result<(), Memory>
    ensures { OnOk result (out.new ≡ out.old ++ eclasses_line eclasses.now) }
{
    if eclasses.is_empty() {
        return Ok(());
    }
    let record = record_text(alloc, eclasses)?;
    put_line(out, b"_eclasses_", record.as_slice())
}

/// The file of an entry: a line `KEY=value` for each value, the line of the eclasses where there are some, and the
/// line of the MD5, each ended by a newline. No other entry has this text, and none has a text that it begins with and
/// that is shorter.
///
/// # Errors
/// `Memory` where there is no room for it.
pub fn write_entry(alloc: Global, entry: &Entry) -> Result<Bytes, Memory>
    ensures text { IfOk result (λ text. text ≡ entry_text entry.now) }
    ensures one { IfOk result (λ text. IsTextOfOne text entry.now) }
    ensures whole { IfOk result HasNoEntryBefore }
{
    let mut out = Bytes::new(alloc);
    put_values(&mut out, entry.values())?;
    put_eclasses(alloc, &mut out, entry.eclasses())?;
    let md5 = entry.md5().hex(alloc)?;
    put_line(&mut out, b"_md5_", md5.as_slice())?;
    Ok(out)
}
