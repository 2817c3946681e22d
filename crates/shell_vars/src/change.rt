ghost use Rattle.std.specs.Prelude.{◌≡◌, ◌-◌, ◌^◌, min};
ghost use Rattle.shell_vars.specs.Changes.{gained as gains};

use crate::attr::Attr;
use crate::elements::Elements;
use crate::value::Value;
use eb_bytes::Bytes;

/// What a call does to a binding.
#[derive(Drop)]
pub(crate) enum Change {
    /// It has this value.
    Set(Value),
    /// Its array has this text at the index.
    Element(u64, Bytes),
    /// Its text, or element 0 of its array, has these bytes at the end.
    Append(Bytes),
    /// Its array has these elements after the greatest index.
    Join(Elements),
    /// Its array has no element at the index.
    Without(u64),
    /// It has these attributes too.
    Mark(Attr),
    /// It is the mark without attributes.
    Unset,
}

impl Change {
    /// What the change adds to the size of the value, as far as the number goes.
    pub(crate) fn gained(&self) -> u64
        ensures { result ≡ min (gains self.now) (2 ^ 64 - 1) }
    {
        match self {
            Change::Set(value) => value.size(),
            Change::Element(_, text) => (text.len() as u64).saturating_add(16),
            Change::Append(text) => text.len() as u64,
            Change::Join(more) => more.size(),
            Change::Without(_) => 0,
            Change::Mark(_) => 0,
            Change::Unset => 0,
        }
    }
}
