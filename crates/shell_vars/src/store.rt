ghost use Rattle.std.specs.Prelude.{◌≡◌, ◌↔◌, ◌+◌, ◌-◌, ◌<◌, ◌≤◌, ◌^◌, [], ◌∷◌, ◌++◌, min, length, sum_by, is_some, IsTrue, IsSome, IfOk, IfErr, IfSome, IfNone, OnOk, OnErr, MatchOption};
ghost use Rattle.std.specs.Option.{option_copied};
ghost use Rattle.shell_vars.specs.Store.{holder as holder_of, call_depth as call_depth_of, target as target_of, global_depth, binding_at, held_at, bind_at, unbind_at, unset_here, size, kinds, admitted};
ghost use Rattle.shell_vars.specs.Stores.{Refuses};
ghost use Rattle.shell_vars.specs.Changes.{changed, CanChange, new_name, lost as loses, gained as gains};
ghost use Rattle.shell_vars.specs.Calls.{fresh, is_prefix_open as prefix_open, push_frame as pushed, pop_frame as popped};

use crate::binding::Binding;
use crate::change::Change;
use crate::error::VarErr;
use crate::frame::Frame;
use crate::kind::FrameKind;
use crate::value::size_of;
use eb_bytes::Memory;
use std::alloc::Global;
use std::collections::VecDeque;
use std::marker::Model;

/// Bytes in all bindings together, at most: each name's length and, for each element, its length and 16.
const TOTAL_LIMIT: u64 = 33_554_432;

/// A store: its frames, the innermost first, the global one last. It counts its bytes, of which it never has too many.
#[derive(Drop)]
pub(crate) struct Store {
    frames: VecDeque<Frame>,
    used: u64,
    alloc: Global,
}

impl Model for Store {
    ghost use Rattle.shell_vars.specs.Store.{Store as Frames, store_code, Counts};

    ghost Value = { Frames };

    ghost coded = { store_code };

    ghost view = { λ s. s.frames.items };

    ghost invariant = { λ s. Counts s.frames.items s.used };
}

impl Store {
    /// A store with a global frame without names.
    ///
    /// # Errors
    /// `Memory`.
    pub(crate) fn new(alloc: Global) -> Result<Store, Memory>
        ensures { IfOk result (λ store. store ≡ fresh) }
    {
        let mut frames = VecDeque::new(alloc);
        frames.push_front(Frame::new(alloc, None))?;
        Ok(Store {
            frames,
            used: 0,
            alloc,
        })
    }

    /// How many frames are inside the innermost one that has the name.
    pub(crate) fn holder(&self, name: &[u8]) -> Option<usize>
        ensures value { result ≡ holder_of name.now self.now }
        ensures within { IfSome result (λ depth. depth < length self.now) }
    {
        holder_in(&self.frames, name)
    }

    /// How many frames are inside the innermost one that a call opened.
    pub(crate) fn call_depth(&self) -> Option<usize>
        ensures value { result ≡ call_depth_of self.now }
        ensures within { IfSome result (λ depth. depth < length self.now) }
    {
        call_depth_in(&self.frames)
    }

    /// How many frames are inside the global one.
    pub(crate) fn global_depth(&self) -> usize
        ensures value { result ≡ global_depth self.now }
        ensures within { result < length self.now }
    {
        self.frames.len() - 1
    }

    /// How many frames are inside the one that an assignment writes into.
    pub(crate) fn target(&self, name: &[u8]) -> usize
        ensures value { result ≡ target_of name.now self.now }
        ensures within { result < length self.now }
    {
        match self.holder(name) {
            Some(depth) => depth,
            None => self.global_depth(),
        }
    }

    /// The binding of a name in the frame with so many inside it.
    pub(crate) fn binding(&self, depth: usize, name: &[u8]) -> Option<&Binding>
        requires { depth < length self.now }
        ensures { option_copied result ≡ binding_at depth name.now self.now }
    {
        self.frames[depth].get(name)
    }

    /// The same, and the mark that is passed where the name is not bound there.
    pub(crate) fn held<'a>(&'a self, depth: usize, name: &[u8], mark: &'a Binding) -> &'a Binding
        requires within { depth < length self.now }
        requires mark { mark.now ≡ unset_here }
        ensures { result.now ≡ held_at depth name.now self.now }
    {
        match self.binding(depth, name) {
            Some(binding) => binding,
            None => mark,
        }
    }

    /// Makes a change of a name's binding there, or of the mark where it has none.
    ///
    /// # Errors
    /// `TotalSize` where the store would have too many bytes, `Memory`; nothing changes then.
    pub(crate) fn change(&mut self, depth: usize, name: &[u8], change: Change) -> Result<(), VarErr>
        requires within { depth < length self.old }
        requires can { CanChange change (held_at depth name.now self.old) }
        ensures ok { OnOk result (admitted (bind_at depth name.now (changed change (held_at depth name.now self.old)) self.old) ≡ Ok self.new) }
        ensures kinds { kinds self.new ≡ kinds self.old }
        ensures refused { IfErr result (λ e. Refuses e (admitted (bind_at depth name.now (changed change (held_at depth name.now self.old)) self.old))) }
        ensures unchanged { OnErr result (self.new ≡ self.old) }
    {
        let Some(used) = self.used_after(depth, name, &change) else {
            return Err(VarErr::TotalSize);
        };
        self.frames[depth].change(name, change)?;
        self.used = used;
        Ok(())
    }

    /// Takes the binding of a name away there, if it has one.
    pub(crate) fn unbind(&mut self, depth: usize, name: &[u8])
        requires { depth < length self.old }
        ensures means { self.new ≡ unbind_at depth name.now self.old }
        ensures kinds { kinds self.new ≡ kinds self.old }
    {
        let freed = self.bound_size(depth, name);
        self.frames[depth].remove(name);
        self.used -= freed;
    }

    // The bytes of the store after a change; none where they would be too many.
    fn used_after(&self, depth: usize, name: &[u8], change: &Change) -> Option<u64>
        requires within { depth < length self.now }
        requires can { CanChange change.now (held_at depth name.now self.now) }
        ensures value { IfSome result (λ used. used ≡ size (bind_at depth name.now (changed change.now (held_at depth name.now self.now)) self.now)) }
        ensures within { IfSome result (λ used. used ≤ 33554432) }
        ensures above { IfNone result (33554432 < size (bind_at depth name.now (changed change.now (held_at depth name.now self.now)) self.now)) }
    {
        let kept = self.used - self.lost(depth, name, change);
        let gained = self.gained(depth, name, change);
        if gained > TOTAL_LIMIT - kept {
            None
        } else {
            Some(kept + gained)
        }
    }

    // The bytes that a change takes away.
    fn lost(&self, depth: usize, name: &[u8], change: &Change) -> u64
        requires { depth < length self.now }
        ensures value { result ≡ loses change.now (held_at depth name.now self.now) }
        ensures within { result ≤ size self.now }
    {
        let _ = &self.used;
        match self.binding(depth, name) {
            Some(binding) => binding.lost(change),
            None => 0,
        }
    }

    // The bytes that it adds, as far as the number goes.
    fn gained(&self, depth: usize, name: &[u8], change: &Change) -> u64
        requires { depth < length self.now }
        ensures { result ≡ min (gains change.now + new_name depth name.now self.now) (2 ^ 64 - 1) }
    {
        match self.binding(depth, name) {
            Some(_) => change.gained(),
            None => change.gained().saturating_add(name.len() as u64),
        }
    }

    // The bytes of a name's binding there.
    fn bound_size(&self, depth: usize, name: &[u8]) -> u64
        requires { depth < length self.now }
        ensures { result + size (unbind_at depth name.now self.now) ≡ size self.now }
    {
        let _ = &self.used;
        match self.binding(depth, name) {
            Some(binding) => name.len() as u64 + size_of(&binding.value),
            None => 0,
        }
    }

    /// Whether the innermost frame is of kind Prefix.
    pub(crate) fn is_prefix_open(&self) -> bool
        ensures { result ≡ prefix_open self.now }
    {
        match self.frames.front() {
            Some(frame) => frame.is_prefix(),
            None => false,
        }
    }

    /// Whether a frame inside the global one is open.
    pub(crate) fn is_frame_open(&self) -> bool
        ensures { IsTrue result ↔ (1 < length self.now) }
    {
        self.frames.len() > 1
    }

    /// Opens a frame inside all others.
    ///
    /// # Errors
    /// `Memory`; the store is as before then.
    pub(crate) fn push_frame(&mut self, kind: FrameKind) -> Result<(), Memory>
        ensures ok { OnOk result (self.new ≡ pushed kind self.old) }
        ensures err { OnErr result (self.new ≡ self.old) }
    {
        self.frames.push_front(Frame::new(self.alloc, Some(kind)))?;
        Ok(())
    }

    /// Closes the innermost frame.
    pub(crate) fn pop_frame(&mut self)
        requires { 1 < length self.old }
        ensures { self.new ≡ popped self.old }
    {
        if let Some(frame) = self.frames.pop_front() {
            self.used -= frame.size();
        }
    }

    /// An equal store.
    ///
    /// # Errors
    /// `Memory`.
    pub(crate) fn copy(&self) -> Result<Store, Memory>
        ensures { IfOk result (λ copy. copy ≡ self.now) }
    {
        let frames = copy_frames(self.alloc, &self.frames)?;
        Ok(Store {
            frames,
            used: self.used,
            alloc: self.alloc,
        })
    }

    /// The bytes of all bindings together.
    pub(crate) fn bytes_used(&self) -> u64
        ensures value { result ≡ size self.now }
        ensures within { result ≤ 33554432 }
    {
        self.used
    }
}

// How many frames are inside the innermost one that has the name.
fn holder_in(frames: &VecDeque<Frame>, name: &[u8]) -> Option<usize>
    ensures value { result ≡ holder_of name.now frames.now.items }
    ensures within { IfSome result (λ depth. depth < length frames.now.items) }
{
    for depth in 0..frames.len() {
        if frames[depth].get(name).is_some() {
            return Some(depth);
        }
    }
    None
}

// How many frames are inside the innermost one that a call opened.
fn call_depth_in(frames: &VecDeque<Frame>) -> Option<usize>
    ensures value { result ≡ call_depth_of frames.now.items }
    ensures within { IfSome result (λ depth. depth < length frames.now.items) }
{
    for depth in 0..frames.len() {
        if frames[depth].is_call() {
            return Some(depth);
        }
    }
    None
}

// A copy of the frames, in their order.
fn copy_frames(alloc: Global, frames: &VecDeque<Frame>) -> Result<VecDeque<Frame>, Memory>
    ensures { IfOk result (λ copy. copy.items ≡ frames.now.items) }
{
    let mut copy = VecDeque::new(alloc);
    for frame in frames {
        push_copy(&mut copy, frame)?;
    }
    Ok(copy)
}

// A copy of a frame, after the others.
fn push_copy(copy: &mut VecDeque<Frame>, frame: &Frame) -> Result<(), Memory>
    ensures { OnOk result (copy.new.items ≡ copy.old.items ++ frame.now ∷ []) }
{
    copy.push_back(frame.copy()?)?;
    Ok(())
}
