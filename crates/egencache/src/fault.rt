ghost use Rattle.std.specs.Prelude.{◌≡◌, ◌++◌, OnOk};
ghost use Rattle.egencache.specs.Faults.{fault_text, mismatch_text, shown};

use eb_bytes::{Bytes, Memory, decimal, join_words};
use ebuild_names::NameKind;
use std::alloc::Global;

/// Why an ebuild has no entry.
#[derive(Drop)]
pub enum Fault {
    /// The first part of its path that is malformed.
    NameBad(NameKind),
    /// The text cannot be read yet: the number of its first line that is not plain, or 0 where the file is too large.
    FormNotYet(u32),
    /// The EAPI that the text names is none of 0 to 8: that text.
    EapiUnknown(Bytes),
    /// The EAPI that the text names, and the different value of the variable EAPI after the run.
    EapiMismatch(Bytes, Bytes),
    /// SLOT is blank.
    SlotMissing,
}

// Appends a text as a report shows it: its words joined by one blank, or a hyphen where it has none.
fn append_shown(alloc: Global, to: &mut Bytes, text: &[u8]) -> Result<(), Memory>
    ensures { OnOk result (to.new ≡ to.old ++ shown text.now) }
{
    let words = join_words(alloc, text)?;
    if words.is_empty() {
        to.extend(b"-")?;
    } else {
        to.extend(words.as_slice())?;
    }
    Ok(())
}

/// Appends a fault's text: its name, and each of its fields after one blank.
///
/// # Errors
/// `Memory` where there is no room for it; some first bytes of it may have been appended then.
pub fn append_fault(alloc: Global, to: &mut Bytes, fault: &Fault) -> Result<(), Memory>
    ensures { OnOk result (to.new ≡ to.old ++ fault_text fault.now) }
{
    match fault {
        Fault::NameBad(kind) => {
            to.extend(b"NameBad ")?;
            to.extend(kind.name())?;
        }
        Fault::FormNotYet(line) => {
            let number = decimal(alloc, u64::from(*line))?;
            to.extend(b"FormNotYet ")?;
            to.extend(number.as_slice())?;
        }
        Fault::EapiUnknown(text) => {
            to.extend(b"EapiUnknown ")?;
            append_shown(alloc, to, text.as_slice())?;
        }
        Fault::EapiMismatch(parsed, found) => {
            append_mismatch(alloc, to, parsed.as_slice(), found.as_slice())?;
        }
        Fault::SlotMissing => to.extend(b"SlotMissing")?,
    }
    Ok(())
}

fn append_mismatch(alloc: Global, to: &mut Bytes, parsed: &[u8], found: &[u8]) -> Result<(), Memory>
    ensures { OnOk result (to.new ≡ to.old ++ mismatch_text parsed.now found.now) }
{
    to.extend(b"EapiMismatch ")?;
    append_shown(alloc, to, parsed)?;
    to.extend(b" ")?;
    append_shown(alloc, to, found)?;
    Ok(())
}
