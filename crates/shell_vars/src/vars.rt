ghost use Rattle.std.specs.Prelude.{◌≡◌, ◌↔◌, ◌<◌, ◌≤◌, ◌∷◌, [], length, is_some, IsTrue, IfOk, IfErr, OnOk, OnErr};
ghost use Rattle.std.specs.Option.{option_copied};
ghost use Rattle.shell_vars.specs.Store.{kinds, size};
ghost use Rattle.shell_vars.specs.Stores.{Refuses, open_sub, drop_sub};
ghost use Rattle.shell_vars.specs.Calls as call;

use crate::attr::Attr;
use crate::binding::Binding;
use crate::error::VarErr;
use crate::kind::FrameKind;
use crate::store::Store;
use crate::value::Value;
use eb_bytes::{Bytes, Memory};
use std::alloc::Global;
use std::collections::VecDeque;
use std::marker::Model;

/// The variables of a shell, with dynamic scope (Bash Reference Manual, "Shell Functions"). Contracts see the present
/// store, and the one that each open subshell brings back at its end.
///
/// A store is a list of frames, the innermost first, the global one last. A frame says of each of its names either a
/// value or the mark "unset here", each with attributes. Where a call is refused all is as before.
#[derive(Drop)]
pub struct Vars {
    present: Store,
    saved: VecDeque<Store>,
}

impl Model for Vars {
    ghost use Rattle.shell_vars.specs.Stores.{Stores, stores_code};

    ghost Value = { Stores };

    ghost coded = { stores_code };

    ghost view = { λ v. record { present = v.present; saved = v.saved.items } };
}

impl Vars {
    /// One global frame without names, and no open subshell.
    ///
    /// # Errors
    /// `Memory`.
    pub fn new(alloc: Global) -> Result<Vars, Memory>
        ensures { IfOk result (λ vars. vars ≡ record { present = call.fresh; saved = [] }) }
    {
        Ok(Vars {
            present: Store::new(alloc)?,
            saved: VecDeque::new(alloc),
        })
    }

    /// The value of a name in the innermost frame that has it; none where that is the mark, or where no frame has it.
    pub fn get(&self, name: &[u8]) -> Option<&Value>
        ensures { option_copied result ≡ call.get name.now self.now.present }
    {
        self.present.get(name)
    }

    /// The attributes of a name in the innermost frame that has it; none where no frame has it.
    pub fn attr(&self, name: &[u8]) -> Attr
        ensures { result ≡ call.attr name.now self.now.present }
    {
        self.present.attr(name)
    }

    /// Gives a name a value in the innermost frame that has it, else in the global one. Its attributes stay.
    ///
    /// # Errors
    /// `Readonly`, `ValueSize`, `TotalSize`, in this order, and `Memory`.
    pub fn set(&mut self, name: &[u8], value: Value) -> Result<(), VarErr>
        ensures ok { OnOk result (call.set name.now value self.old.present ≡ Ok self.new.present) }
        ensures refused { IfErr result (λ e. Refuses e (call.set name.now value self.old.present)) }
        ensures unchanged { OnErr result (self.new ≡ self.old) }
        ensures saved { self.new.saved ≡ self.old.saved }
        ensures kinds { kinds self.new.present ≡ kinds self.old.present }
    {
        let depth = self.present.target(name);
        self.present.write(depth, name, value)
    }

    /// Gives a name an element where `set` would give it a value; a text becomes element 0 of an array first. A
    /// negative subscript has the greatest index plus one added.
    ///
    /// # Errors
    /// `Readonly`, `BadSubscript` where the subscript is negative still, `ValueSize`, `TotalSize`, in this order, and
    /// `Memory`.
    pub fn set_elem(&mut self, name: &[u8], at: i64, text: Bytes) -> Result<(), VarErr>
        ensures ok { OnOk result (call.set_elem name.now at text self.old.present ≡ Ok self.new.present) }
        ensures refused { IfErr result (λ e. Refuses e (call.set_elem name.now at text self.old.present)) }
        ensures unchanged { OnErr result (self.new ≡ self.old) }
        ensures saved { self.new.saved ≡ self.old.saved }
        ensures kinds { kinds self.new.present ≡ kinds self.old.present }
    {
        self.present.set_elem(name, at, text)
    }

    /// The text of the element of a name's value that a subscript means, none where there is no such element; without a
    /// subscript, of element 0. A text is its own element 0, and a negative subscript has the greatest index plus one
    /// added.
    ///
    /// # Errors
    /// `BadSubscript` where the subscript is negative still.
    pub fn element(&self, name: &[u8], at: Option<i64>) -> Result<Option<&Bytes>, VarErr>
        ensures found { IfOk result (λ text. call.element name.now at self.now.present ≡ Ok (option_copied text)) }
        ensures refused { IfErr result (λ e. call.element name.now at self.now.present ≡ Err e) }
    {
        Value::element_at(self.get(name), at)
    }

    /// Gives a text to a name where `set` would give it a value, or to the element that a subscript means. Without a
    /// subscript, a name that holds an array has its element 0 set.
    ///
    /// # Errors
    /// `Readonly`, `BadSubscript` where a subscript is negative still, `ValueSize`, `TotalSize`, in this order, and
    /// `Memory`.
    pub fn assign(&mut self, name: &[u8], at: Option<i64>, text: Bytes) -> Result<(), VarErr>
        ensures ok { OnOk result (call.assign name.now at text self.old.present ≡ Ok self.new.present) }
        ensures refused { IfErr result (λ e. Refuses e (call.assign name.now at text self.old.present)) }
        ensures unchanged { OnErr result (self.new ≡ self.old) }
        ensures saved { self.new.saved ≡ self.old.saved }
        ensures kinds { kinds self.new.present ≡ kinds self.old.present }
    {
        self.present.assign(name, at, text)
    }

    /// Appends to a name's value where `set` would write: a text to a text, a text to element 0 of an array, or an
    /// array's elements after the greatest index; a text becomes element 0 of an array before the latter. Where there
    /// is no value it is `set`.
    ///
    /// # Errors
    /// `Readonly`, `BadSubscript` where an index would pass 9223372036854775807, `ValueSize`, `TotalSize`, in this
    /// order, and `Memory`.
    pub fn append(&mut self, name: &[u8], value: Value) -> Result<(), VarErr>
        ensures ok { OnOk result (call.append name.now value self.old.present ≡ Ok self.new.present) }
        ensures refused { IfErr result (λ e. Refuses e (call.append name.now value self.old.present)) }
        ensures unchanged { OnErr result (self.new ≡ self.old) }
        ensures saved { self.new.saved ≡ self.old.saved }
        ensures kinds { kinds self.new.present ≡ kinds self.old.present }
    {
        self.present.append(name, value)
    }

    /// The binding of a name in the innermost Call frame, which `local` would change; none where no call is open.
    pub fn local_binding(&self, name: &[u8]) -> Option<&Binding>
        ensures { option_copied result ≡ call.local_binding name.now self.now.present }
    {
        self.present.local_binding(name)
    }

    /// Binds a name in the innermost Call frame. Without a value it gets the mark there, unless it is bound there
    /// already.
    ///
    /// # Errors
    /// `LocalOutside` where there is no Call frame; `Readonly` where the name is readonly there and would change, or
    /// where it is seen in the global frame and is readonly there; `ValueSize`, `TotalSize`, in this order, and
    /// `Memory`.
    pub fn local(&mut self, name: &[u8], value: Option<Value>) -> Result<(), VarErr>
        ensures ok { OnOk result (call.local name.now value self.old.present ≡ Ok self.new.present) }
        ensures refused { IfErr result (λ e. Refuses e (call.local name.now value self.old.present)) }
        ensures unchanged { OnErr result (self.new ≡ self.old) }
        ensures saved { self.new.saved ≡ self.old.saved }
        ensures kinds { kinds self.new.present ≡ kinds self.old.present }
    {
        self.present.local(name, value)
    }

    /// Gives a name a value in the innermost frame, which must be a Prefix frame. Its attributes there stay.
    ///
    /// # Errors
    /// `Readonly`, `ValueSize`, `TotalSize`, in this order, and `Memory`.
    pub fn bind(&mut self, name: &[u8], value: Value) -> Result<(), VarErr>
        requires { IsTrue (call.is_prefix_open self.old.present) }
        ensures ok { OnOk result (call.bind name.now value self.old.present ≡ Ok self.new.present) }
        ensures refused { IfErr result (λ e. Refuses e (call.bind name.now value self.old.present)) }
        ensures unchanged { OnErr result (self.new ≡ self.old) }
        ensures saved { self.new.saved ≡ self.old.saved }
        ensures kinds { kinds self.new.present ≡ kinds self.old.present }
    {
        self.present.write(0, name, value)
    }

    /// Adds attributes to a name where `set` would write; where it has no binding it gets the mark with them. It takes
    /// none away, and a readonly name may get more.
    ///
    /// # Errors
    /// `TotalSize`, and `Memory`.
    pub fn mark(&mut self, name: &[u8], attr: Attr) -> Result<(), VarErr>
        ensures ok { OnOk result (call.mark name.now attr self.old.present ≡ Ok self.new.present) }
        ensures refused { IfErr result (λ e. Refuses e (call.mark name.now attr self.old.present)) }
        ensures unchanged { OnErr result (self.new ≡ self.old) }
        ensures saved { self.new.saved ≡ self.old.saved }
        ensures kinds { kinds self.new.present ≡ kinds self.old.present }
    {
        self.present.mark(name, attr)
    }

    /// Unsets a name in the innermost frame that has it, and answers whether it had a value. In the innermost Call
    /// frame the mark without attributes stays; in another one the binding goes, and what it hid is seen.
    ///
    /// # Errors
    /// `Readonly`, and `Memory`.
    pub fn unset(&mut self, name: &[u8]) -> Result<bool, VarErr>
        ensures ok { OnOk result (call.unset name.now self.old.present ≡ Ok self.new.present) }
        ensures answer { IfOk result (λ had. had ≡ is_some (call.get name.now self.old.present)) }
        ensures refused { IfErr result (λ e. Refuses e (call.unset name.now self.old.present)) }
        ensures unchanged { OnErr result (self.new ≡ self.old) }
        ensures saved { self.new.saved ≡ self.old.saved }
        ensures kinds { kinds self.new.present ≡ kinds self.old.present }
    {
        self.present.unset(name)
    }

    /// Takes an element away from the value that `get` gives; a text becomes element 0 of an array first. Where there
    /// is no such element the binding stays as it is.
    ///
    /// # Errors
    /// `Readonly` where the binding is readonly, `BadSubscript` where a negative subscript with the greatest index plus
    /// one added is negative still, in this order, and `Memory`.
    pub fn unset_elem(&mut self, name: &[u8], at: i64) -> Result<(), VarErr>
        ensures ok { OnOk result (call.unset_elem name.now at self.old.present ≡ Ok self.new.present) }
        ensures refused { IfErr result (λ e. Refuses e (call.unset_elem name.now at self.old.present)) }
        ensures unchanged { OnErr result (self.new ≡ self.old) }
        ensures saved { self.new.saved ≡ self.old.saved }
        ensures kinds { kinds self.new.present ≡ kinds self.old.present }
    {
        self.present.unset_elem(name, at)
    }

    /// The value of a name in the global frame.
    pub fn global(&self, name: &[u8]) -> Option<&Value>
        ensures { option_copied result ≡ call.global name.now self.now.present }
    {
        self.present.global(name)
    }

    /// Gives a name a value in the global frame. Its attributes there stay.
    ///
    /// # Errors
    /// `Readonly`, `ValueSize`, `TotalSize`, in this order, and `Memory`.
    pub fn set_global(&mut self, name: &[u8], value: Value) -> Result<(), VarErr>
        ensures ok { OnOk result (call.set_global name.now value self.old.present ≡ Ok self.new.present) }
        ensures refused { IfErr result (λ e. Refuses e (call.set_global name.now value self.old.present)) }
        ensures unchanged { OnErr result (self.new ≡ self.old) }
        ensures saved { self.new.saved ≡ self.old.saved }
        ensures kinds { kinds self.new.present ≡ kinds self.old.present }
    {
        let depth = self.present.global_depth();
        self.present.write(depth, name, value)
    }

    /// Removes the binding of a name in the global frame.
    ///
    /// # Errors
    /// `Readonly`, and `Memory`.
    pub fn unset_global(&mut self, name: &[u8]) -> Result<(), VarErr>
        ensures ok { OnOk result (call.unset_global name.now self.old.present ≡ Ok self.new.present) }
        ensures refused { IfErr result (λ e. Refuses e (call.unset_global name.now self.old.present)) }
        ensures unchanged { OnErr result (self.new ≡ self.old) }
        ensures saved { self.new.saved ≡ self.old.saved }
        ensures kinds { kinds self.new.present ≡ kinds self.old.present }
    {
        self.present.unset_global(name)
    }

    /// Opens a frame inside all others.
    ///
    /// # Errors
    /// `Memory`.
    pub fn push_frame(&mut self, kind: FrameKind) -> Result<(), Memory>
        ensures ok { OnOk result (self.new ≡ record self.old { present = call.push_frame kind self.old.present }) }
        ensures err { OnErr result (self.new ≡ self.old) }
    {
        self.present.push_frame(kind)
    }

    /// Closes the innermost frame, which must not be the global one.
    pub fn pop_frame(&mut self)
        requires { 1 < length self.old.present }
        ensures { self.new ≡ record self.old { present = call.pop_frame self.old.present } }
    {
        self.present.pop_frame();
    }

    /// Whether the innermost frame is of kind Prefix, as `bind` asks.
    pub fn is_prefix_open(&self) -> bool
        ensures { result ≡ call.is_prefix_open self.now.present }
    {
        self.present.is_prefix_open()
    }

    /// Whether a frame inside the global one is open, as `pop_frame` asks.
    pub fn is_frame_open(&self) -> bool
        ensures { IsTrue result ↔ (1 < length self.now.present) }
    {
        self.present.is_frame_open()
    }

    /// Whether a subshell is open, as `drop_sub` asks.
    pub fn is_sub_open(&self) -> bool
        ensures { IsTrue result ↔ (0 < length self.now.saved) }
    {
        !self.saved.is_empty()
    }

    /// Opens a subshell: keeps a copy of the store for its end.
    ///
    /// # Errors
    /// `Memory`.
    pub fn open_sub(&mut self) -> Result<(), Memory>
        ensures ok { OnOk result (self.new ≡ open_sub self.old) }
        ensures err { OnErr result (self.new ≡ self.old) }
    {
        let copy = self.present.copy()?;
        self.saved.push_front(copy)?;
        Ok(())
    }

    /// Ends the innermost subshell, which must be open: the whole store is as it was when that was opened.
    pub fn drop_sub(&mut self)
        requires { 0 < length self.old.saved }
        ensures { self.new ≡ drop_sub self.old }
    {
        if let Some(store) = self.saved.pop_front() {
            self.present = store;
        }
    }

    /// The bytes of all bindings together: of each its name's length and, for each element, its length and 16. At most
    /// 33,554,432.
    pub fn bytes_used(&self) -> u64
        ensures value { result ≡ size self.now.present }
        ensures within { result ≤ 33554432 }
    {
        self.present.bytes_used()
    }
}
