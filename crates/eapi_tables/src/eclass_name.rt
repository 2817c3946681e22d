ghost use Rattle.std.specs.Prelude.{◌≡◌, ◌↔◌, IsTrue};
ghost use Rattle.std.specs.List.{AllPass};
ghost use Rattle.eapi_tables.specs.EclassName.{IsEclassName, begins_name, is_eclass_name_byte};

use byte_class::{is_name_byte, is_name_start};

/// Whether a text has the form of an eclass's name (Package Manager Specification, "Eclass names"): ASCII letters,
/// digits, `_`, `.` and `-`, a letter or `_` first, and not `default`. Takes no memory.
pub fn is_eclass_name(text: &[u8]) -> bool
    ensures { IsTrue result ↔ IsEclassName text.now }
{
    are_name_bytes(text) && begins_name(text) && text != b"default".as_slice()
}

fn are_name_bytes(text: &[u8]) -> bool
    ensures { IsTrue result ↔ AllPass is_eclass_name_byte text.now }
{
    text.iter().all(|byte| is_eclass_name_byte(*byte))
}

fn begins_name(text: &[u8]) -> bool
    ensures { result ≡ begins_name text.now }
{
    match text.first() {
        Some(byte) => is_name_start(*byte),
        None => false,
    }
}

fn is_eclass_name_byte(byte: u8) -> bool
    ensures { result ≡ is_eclass_name_byte byte }
{
    is_name_byte(byte) || matches!(byte, b'.' | b'-')
}
