ghost use Rattle.std.specs.Prelude.{◌≡◌, ◌-◌, ◌^◌, min, IfOk, OnOk, OnErr};
ghost use Rattle.shell_vars.specs.Store.{unset_here as the_mark};
ghost use Rattle.shell_vars.specs.Changes.{changed, lost as loses, CanChange};

use crate::attr::Attr;
use crate::change::Change;
use crate::value::{
    Value, append_text, element_size, join_elements, put_element, size_of, take_element,
};
use eb_bytes::Memory;
use std::alloc::Global;

/// What a frame says of a name: its value, or without one the mark "unset here", and its attributes.
#[derive(Drop)]
pub struct Binding {
    /// The value; none where the name is marked "unset here".
    pub value: Option<Value>,
    /// The attributes.
    pub attr: Attr,
}

impl Binding {
    /// The mark without attributes.
    pub(crate) fn unset_here() -> Binding
        ensures { result ≡ the_mark }
    {
        Binding {
            value: None,
            attr: Attr::none(),
        }
    }

    /// An equal binding.
    pub(crate) fn copy(&self, alloc: Global) -> Result<Binding, Memory>
        ensures { IfOk result (λ copy. copy ≡ self.now) }
    {
        let value = match &self.value {
            None => None,
            Some(value) => Some(value.copy(alloc)?),
        };
        Ok(Binding {
            value,
            attr: self.attr,
        })
    }

    /// Makes a change; after an `Err` the binding is as before.
    pub(crate) fn change(&mut self, alloc: Global, change: Change) -> Result<(), Memory>
        requires { CanChange change self.old }
        ensures ok { OnOk result (self.new ≡ changed change self.old) }
        ensures err { OnErr result (self.new ≡ self.old) }
    {
        match change {
            Change::Set(value) => {
                self.value = Some(value);
                Ok(())
            }
            Change::Element(at, text) => put_element(alloc, &mut self.value, at, text),
            Change::Append(text) => append_text(&mut self.value, text.as_slice()),
            Change::Join(more) => join_elements(alloc, &mut self.value, more),
            Change::Without(at) => {
                take_element(alloc, &mut self.value, at);
                Ok(())
            }
            Change::Mark(attr) => {
                self.attr = self.attr.with(attr);
                Ok(())
            }
            Change::Unset => {
                *self = Binding::unset_here();
                Ok(())
            }
        }
    }

    /// What a change takes from the size of the value, as far as the number goes.
    pub(crate) fn lost(&self, change: &Change) -> u64
        ensures { result ≡ min (loses change.now self.now) (2 ^ 64 - 1) }
    {
        match change {
            Change::Set(_) => size_of(&self.value),
            Change::Element(at, _) => element_size(&self.value, *at),
            Change::Append(_) => 0,
            Change::Join(_) => 0,
            Change::Without(at) => element_size(&self.value, *at),
            Change::Mark(_) => 0,
            Change::Unset => size_of(&self.value),
        }
    }
}
