//! One table of functions.

ghost use Rattle.std.specs.Prelude.{◌≡◌, [], is_some, IfOk, OnOk, OnErr};
ghost use Rattle.std.specs.Option.{option_copied};
ghost use Rattle.shell_functions.specs.Funcs.{body_of, with_body, without, HasDistinctNames};

use eb_bytes::Memory;
use eb_syntax::Command;
use indexmap::IndexMap;
use shared::Shared;
use std::alloc::Global;
use std::marker::Model;

/// Functions by name, in order of definition. Contracts see it as a list of names and bodies.
#[doc(hidden)]
#[derive(Drop)]
pub struct FuncTable {
    entries: IndexMap<Vec<u8>, Shared<Command>>,
}

impl Model for FuncTable {
    ghost use Rattle.shell_functions.specs.Funcs.{Table, names_as_bytes};
    ghost use Rattle.eb_syntax.specs.contracts.tree.Command as command;
    ghost use Rattle.std.specs.Coded.{codes};

    ghost Value = { Table };

    ghost coded = { Prim.hlevel (codes, command.the_row.coded) };

    ghost view = { λ table. names_as_bytes table.entries.entries };
}

impl FuncTable {
    pub(crate) fn new(alloc: Global) -> FuncTable
        ensures { result ≡ [] }
    {
        FuncTable {
            entries: IndexMap::new(alloc),
        }
    }

    pub(crate) fn get(&self, name: &[u8]) -> Option<&Shared<Command>>
        ensures { option_copied result ≡ body_of name.now self.now }
    {
        self.entries.get(name)
    }

    pub(crate) fn define(&mut self, name: &[u8], body: Shared<Command>) -> Result<(), Memory>
        ensures ok { OnOk result (self.new ≡ with_body name.now body self.old) }
        ensures err { OnErr result (self.new ≡ self.old) }
        ensures distinct { OnOk result (HasDistinctNames self.new) }
    {
        let name = Vec::from_slice(*self.entries.allocator(), name)?;
        let _ = self.entries.insert(name, body)?;
        Ok(())
    }

    pub(crate) fn remove(&mut self, name: &[u8]) -> bool
        ensures there { result ≡ is_some (body_of name.now self.old) }
        ensures rest { self.new ≡ without name.now self.old }
        ensures distinct { HasDistinctNames self.new }
    {
        self.entries.shift_remove(name).is_some()
    }

    pub(crate) fn copy(&self) -> Result<FuncTable, Memory>
        ensures { IfOk result (λ table. table ≡ self.now) }
    {
        Ok(FuncTable {
            entries: self.entries.clone()?,
        })
    }
}
