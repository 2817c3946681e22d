ghost use Rattle.std.specs.Prelude.{◌≡◌, ◌≤◌, [], ◌∷◌, drop, length, OnErr, OnOk, IfNone, IfOk, IfSome};
ghost use Rattle.shell_state.specs.Opening.{depth as depth_of, is_counted as is_counted_of, is_too_deep as is_too_deep_of};
ghost use Rattle.bash_calls.specs.Nesting.{has_none, keeping_input, keeping_outputs, kinds, kinds_of};

use crate::args::Args;
use crate::layer::{Input, Layer, Outputs};
use eb_bytes::{Bytes, Memory};
use shell_state::Opened;
use std::alloc::Global;
use std::collections::VecDeque;
use std::marker::Model;

// How many may be open at once, redirections not counted.
const MAX_OPEN: usize = 200;

/// What is open, and the arguments and the loops inside it. Contracts see just these.
#[derive(Drop)]
pub struct Nesting {
    args: Args,
    loops: usize,
    opened: VecDeque<Layer>,
}

impl Model for Nesting {
    ghost use Rattle.std.specs.Coded.{codes};
    ghost use Rattle.bash_calls.specs.Nesting.{Nested};
    ghost use Rattle.bash_calls.specs.contracts.layer.Layer as layer;

    ghost Value = { Nested };

    ghost coded = { Prim.hlevel (codes, layer.the_row.coded) };

    ghost view = { λ n. record { args = n.args; loops = n.loops; opened = n.opened.items } };
}

impl Nesting {
    /// Nothing is open. Takes no memory.
    pub(crate) fn new(alloc: Global) -> Nesting
        ensures { result ≡ record { args = []; loops = 0; opened = [] } }
    {
        Nesting {
            args: Args::new(alloc),
            loops: 0,
            opened: VecDeque::new(alloc),
        }
    }

    /// The arguments.
    pub fn args(&self) -> &[Bytes]
        ensures { result.now ≡ self.now.args }
    {
        self.args.as_slice()
    }

    /// The loops that can be left.
    pub fn loops(&self) -> usize
        ensures { result ≡ self.now.loops }
    {
        self.loops
    }

    /// Whether nothing is open.
    pub fn is_empty(&self) -> bool
        ensures { result ≡ has_none self.now.opened }
    {
        self.opened.is_empty()
    }

    /// Whether one more may not be open.
    pub(crate) fn is_too_deep(&self, kind: Opened) -> bool
        ensures { result ≡ is_too_deep_of kind (kinds self.now) }
    {
        is_counted(kind) && self.depth() >= MAX_OPEN
    }

    // How many are open, redirections not counted.
    fn depth(&self) -> usize
        ensures { result ≡ depth_of (kinds self.now) }
    {
        depth_in(&self.opened)
    }

    /// Opens one more, inside all that is open.
    ///
    /// # Errors
    /// `Memory` where there is no room for it; nothing changed then.
    pub(crate) fn push(&mut self, layer: Layer) -> Result<(), Memory>
        ensures ok { OnOk result (self.new ≡ record self.old { opened = layer ∷ self.old.opened }) }
        ensures err { OnErr result (self.new ≡ self.old) }
    {
        self.opened.push_front(layer)?;
        Ok(())
    }

    /// Takes the innermost one away.
    pub(crate) fn pop(&mut self) -> Option<Layer>
        ensures some { IfSome result (λ layer. self.old.opened ≡ layer ∷ self.new.opened) }
        ensures none { IfNone result (self.old.opened ≡ []) }
        ensures same { self.new ≡ record self.old { opened = self.new.opened } }
    {
        self.opened.pop_front()
    }

    /// Other arguments.
    pub(crate) fn set_args(&mut self, args: Args)
        ensures { self.new ≡ record self.old { args = args } }
    {
        self.args = args;
    }

    /// Drops so many arguments from the first on; there must be so many.
    pub(crate) fn shift(&mut self, count: usize)
        requires { count ≤ length self.old.args }
        ensures { self.new ≡ record self.old { args = drop count self.old.args } }
    {
        self.args.shift(count);
    }

    /// Other loops.
    pub(crate) fn set_loops(&mut self, loops: usize)
        ensures { self.new ≡ record self.old { loops = loops } }
    {
        self.loops = loops;
    }

    /// Equal arguments.
    ///
    /// # Errors
    /// `Memory` where there is no room for them.
    pub(crate) fn copied_args(&self, alloc: Global) -> Result<Args, Memory>
        ensures { IfOk result (λ copy. copy ≡ self.now.args) }
    {
        self.args.copy(alloc)
    }

    /// Keeps outputs for the end of the innermost one that is open, unless it keeps some already.
    pub(crate) fn keep_outputs(&mut self, outputs: Outputs)
        ensures { self.new ≡ record self.old { opened = keeping_outputs outputs self.old.opened } }
    {
        if let Some(layer) = self.opened.front_mut() {
            if layer.outputs.is_none() {
                layer.outputs = Some(outputs);
            }
        }
    }

    /// Keeps an input for the end of the innermost one that is open, unless it keeps one already.
    pub(crate) fn keep_input(&mut self, input: Input)
        ensures { self.new ≡ record self.old { opened = keeping_input input self.old.opened } }
    {
        if let Some(layer) = self.opened.front_mut() {
            if layer.input.is_none() {
                layer.input = Some(input);
            }
        }
    }
}

// How many of these count to the limit.
fn depth_in(layers: &VecDeque<Layer>) -> usize
    ensures { result ≡ depth_of (kinds_of layers.now.items) }
{
    let mut depth = 0;
    for at in 0..layers.len() {
        if is_counted(layers[at].kind) {
            depth += 1;
        }
    }
    depth
}

// Whether what is open counts to the limit.
fn is_counted(kind: Opened) -> bool
    ensures { result ≡ is_counted_of kind }
{
    match kind {
        Opened::Call | Opened::Eval | Opened::Source | Opened::Sub | Opened::Compound => true,
        Opened::Redirs => false,
    }
}
