ghost use Rattle.std.specs.Prelude.{◌≡◌, All, Contains, IfOk};
ghost use Rattle.eb_digest.specs.Digest.{IsDigest};
ghost use Rattle.md5_cache.specs.Record.{AreByName, HasOneMd5, IsRecordOf};

use eb_bytes::{Bytes, Memory};
use eb_digest::Digest;
use std::alloc::Global;
use std::collections::BTreeMap;

// The same digest, with the fact that it is one.
pub(crate) fn as_digest(md5: Digest) -> Digest
    ensures same { result ≡ md5 }
    ensures digest { IsDigest md5 }
{
    let _ = md5.bytes();
    md5
}

// The eclasses as a map from their names.
fn map_of(alloc: Global, eclasses: Vec<(Bytes, Digest)>) -> Result<BTreeMap<Bytes, Digest>, Memory>
    requires { HasOneMd5 eclasses.items }
    ensures only_read { IfOk result (λ map. All (Contains eclasses.items) map.entries) }
    ensures all_read { IfOk result (λ map. All (Contains map.entries) eclasses.items) }
    ensures digests { IfOk result (λ map. All (λ eclass. IsDigest eclass.1) map.entries) }
{
    let mut map = BTreeMap::new(alloc);
    for (name, md5) in eclasses {
        map.insert(name, as_digest(md5))?;
    }
    Ok(map)
}

fn entries_of(alloc: Global, map: BTreeMap<Bytes, Digest>) -> Result<Vec<(Bytes, Digest)>, Memory>
    ensures items { IfOk result (λ list. list.items ≡ map.entries) }
    ensures by_name { IfOk result (λ list. AreByName list.items) }
{
    let mut list = Vec::new(alloc);
    for (name, md5) in map {
        list.push((name, md5))?;
    }
    Ok(list)
}

/// The eclasses that were read, each once, by name. One name has one MD5.
///
/// # Errors
/// `Memory` where there is no room for them.
pub fn record_of(
    alloc: Global,
    eclasses: Vec<(Bytes, Digest)>,
) -> Result<Vec<(Bytes, Digest)>, Memory>
    requires { HasOneMd5 eclasses.items }
    ensures record { IfOk result (λ list. IsRecordOf eclasses.items list.items) }
    ensures digests { IfOk result (λ list. All (λ eclass. IsDigest eclass.1) list.items) }
{
    entries_of(alloc, map_of(alloc, eclasses)?)
}
