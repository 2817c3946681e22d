//! The function table of a shell, with the tables that its open subshells bring back.

ghost use Rattle.std.specs.Prelude.{◌≡◌, ◌↔◌, ◌<◌, length, is_some, IsTrue, OnOk, OnErr};
ghost use Rattle.std.specs.Option.{option_copied};
ghost use Rattle.shell_functions.specs.Funcs.{body_of, with_body, without, HaveDistinctNames};
ghost use Rattle.shell_functions.specs.Funcs.{no_tables, now_present, open_sub, drop_sub};

use crate::table::FuncTable;
use eb_bytes::Memory;
use eb_syntax::Command;
use shared::Shared;
use std::alloc::Global;
use std::collections::VecDeque;
use std::marker::Model;

/// The functions of a shell by name, in the order in which the names were first defined. Contracts see the present
/// table, and the one that each open subshell brings back at its end, the innermost first. No name stands twice in any
/// of them.
pub struct Funcs {
    present: FuncTable,
    saved: VecDeque<FuncTable>,
}

impl Model for Funcs {
    ghost use Rattle.shell_functions.specs.Funcs.{Tables, AllDistinct};
    ghost use Rattle.eb_syntax.specs.contracts.tree.Command as command;
    ghost use Rattle.std.specs.Prelude.{◌∷◌};
    ghost use Rattle.std.specs.Coded.{codes};

    ghost Value = { Tables };

    ghost coded = { Prim.hlevel (codes, command.the_row.coded) };

    ghost view = { λ funcs. record { present = funcs.present; saved = funcs.saved.items } };

    ghost invariant = { λ funcs. AllDistinct (funcs.present ∷ funcs.saved.items) };
}

impl Funcs {
    /// No functions, and no open subshell. Takes no memory.
    #[tactic(auto, using(crate::proofs::FunctionNames::none_distinct))]
    pub fn new(alloc: Global) -> Funcs
        ensures { result ≡ no_tables }
    {
        Funcs {
            present: FuncTable::new(alloc),
            saved: VecDeque::new(alloc),
        }
    }

    /// The body of the function of this name, `None` where there is no such function.
    pub fn get(&self, name: &[u8]) -> Option<&Shared<Command>>
        ensures body { option_copied result ≡ body_of name.now self.now.present }
        ensures distinct { HaveDistinctNames self.now }
    {
        self.present.get(name)
    }

    /// Makes this the body of the function of this name. A new name goes to the end, a known one keeps its place.
    ///
    /// # Errors
    /// `Memory` where there is no room; nothing changed then.
    #[tactic(auto, using(crate::proofs::FunctionNames::kept_distinct))]
    pub fn define(&mut self, name: &[u8], body: Shared<Command>) -> Result<(), Memory>
        ensures ok { OnOk result (self.new ≡ now_present (with_body name.now body self.old.present) self.old) }
        ensures err { OnErr result (self.new ≡ self.old) }
        ensures distinct { HaveDistinctNames self.new }
    {
        self.present.define(name, body)
    }

    /// Removes the function of this name, and says whether there was one. The others keep their order.
    pub fn remove(&mut self, name: &[u8]) -> bool
        ensures there { result ≡ is_some (body_of name.now self.old.present) }
        ensures rest { self.new ≡ now_present (without name.now self.old.present) self.old }
        ensures distinct { HaveDistinctNames self.new }
    {
        self.present.remove(name)
    }

    /// Whether a subshell is open, as `drop_sub` asks.
    pub fn is_sub_open(&self) -> bool
        ensures { IsTrue result ↔ (0 < length self.now.saved) }
    {
        !self.saved.is_empty()
    }

    /// Opens a subshell: keeps a copy of the table for its end.
    ///
    /// # Errors
    /// `Memory` where there is no room for it; nothing changed then.
    #[tactic(auto, using(crate::proofs::FunctionNames::saved_distinct))]
    pub fn open_sub(&mut self) -> Result<(), Memory>
        ensures ok { OnOk result (self.new ≡ open_sub self.old) }
        ensures err { OnErr result (self.new ≡ self.old) }
        ensures distinct { HaveDistinctNames self.new }
    {
        let copy = self.present.copy()?;
        self.saved.push_front(copy)?;
        Ok(())
    }

    /// Ends the innermost subshell, which must be open: the table is as it was when that was opened. Takes no memory.
    #[tactic(auto, using(crate::proofs::FunctionNames::back_distinct))]
    pub fn drop_sub(&mut self)
        requires { 0 < length self.old.saved }
        ensures tables { self.new ≡ drop_sub self.old }
        ensures distinct { HaveDistinctNames self.new }
    {
        if let Some(table) = self.saved.pop_front() {
            self.present = table;
        }
    }
}

// A crate above that lets the functions go calls this, and proves nothing of what they hold.
impl Drop for Funcs {
    fn drop(self) {
        let Funcs { present, saved } = self;
        drop(present);
        drop(saved);
    }
}
