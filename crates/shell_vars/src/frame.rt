ghost use Rattle.std.specs.Prelude.{◌≡◌, ◌-◌, ◌^◌, min, unwrap_or, IfOk, OnOk, OnErr};
ghost use Rattle.std.specs.Option.{option_copied};
ghost use Rattle.std.specs.FinMap as map;
ghost use Rattle.shell_vars.specs.Store.{unset_here, names_size, is_call};
ghost use Rattle.shell_vars.specs.Calls.{kind_seen, is_prefix};
ghost use Rattle.shell_vars.specs.Changes.{changed, CanChange};

use crate::binding::Binding;
use crate::change::Change;
use crate::kind::FrameKind;
use crate::names::Names;
use eb_bytes::Memory;
use std::alloc::Global;
use std::marker::Model;

/// A frame: what opened it, where it is not the global one, and its names.
#[derive(Drop)]
pub(crate) struct Frame {
    kind: Option<FrameKind>,
    names: Names,
}

impl Model for Frame {
    ghost use Rattle.shell_vars.specs.Store.{Frame as StoreFrame, frame_code};
    ghost use Rattle.shell_vars.specs.Calls.{kind_seen};

    ghost Value = { StoreFrame };

    ghost coded = { frame_code };

    ghost view = { λ f. record { kind = kind_seen f.kind; names = f.names } };
}

impl Frame {
    /// A frame without names. Takes no memory.
    pub(crate) fn new(alloc: Global, kind: Option<FrameKind>) -> Frame
        ensures { result ≡ record { kind = kind_seen kind; names = map.empty } }
    {
        Frame {
            kind,
            names: Names::new(alloc),
        }
    }

    /// Whether a call opened it.
    pub(crate) fn is_call(&self) -> bool
        ensures { result ≡ is_call self.now.kind }
    {
        matches!(self.kind, Some(FrameKind::Call))
    }

    /// Whether assignments before a command opened it.
    pub(crate) fn is_prefix(&self) -> bool
        ensures { result ≡ is_prefix self.now.kind }
    {
        matches!(self.kind, Some(FrameKind::Prefix))
    }

    /// The binding of a name.
    pub(crate) fn get(&self, name: &[u8]) -> Option<&Binding>
        ensures { option_copied result ≡ map.get self.now.names name.now }
    {
        self.names.get(name)
    }

    /// Makes a change of a name's binding, or of the mark where it has none.
    pub(crate) fn change(&mut self, name: &[u8], change: Change) -> Result<(), Memory>
        requires { CanChange change (unwrap_or (map.get self.old.names name.now) unset_here) }
        ensures ok { OnOk result (self.new ≡ record self.old { names = map.insert self.old.names name.now (changed change (unwrap_or (map.get self.old.names name.now) unset_here)) }) }
        ensures err { OnErr result (self.new ≡ self.old) }
    {
        self.names.change(name, change)
    }

    /// Takes the binding of a name away, if it has one.
    pub(crate) fn remove(&mut self, name: &[u8])
        ensures { self.new ≡ record self.old { names = map.remove self.old.names name.now } }
    {
        self.names.remove(name);
    }

    /// An equal frame.
    pub(crate) fn copy(&self) -> Result<Frame, Memory>
        ensures { IfOk result (λ copy. copy ≡ self.now) }
    {
        Ok(Frame {
            kind: self.kind,
            names: self.names.copy()?,
        })
    }

    /// The sizes of its bindings together; 18446744073709551615 where that is more.
    pub(crate) fn size(&self) -> u64
        ensures { result ≡ min (names_size self.now.names) (2 ^ 64 - 1) }
    {
        self.names.size()
    }
}
