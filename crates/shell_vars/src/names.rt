ghost use Rattle.std.specs.Prelude.{◌≡◌, ◌-◌, ◌^◌, min, length, sum_by, unwrap_or, IsSome, IfOk, OnOk, OnErr};
ghost use Rattle.std.specs.Option.{option_copied};
ghost use Rattle.std.specs.Ordering.{nat_cmp};
ghost use Rattle.std.specs.Cmp.Lexicographic.{slice_cmp};
ghost use Rattle.std.specs.FinMap as map;
ghost use Rattle.shell_vars.specs.Store.{unset_here, binding_size, names_size};
ghost use Rattle.shell_vars.specs.Changes.{changed, CanChange};

use crate::binding::Binding;
use crate::change::Change;
use crate::value::size_of;
use eb_bytes::Memory;
use std::alloc::Global;
use std::collections::BTreeMap;
use std::marker::Model;

/// The names of a frame and their bindings. Contracts see them as a finite map.
#[derive(Drop)]
pub(crate) struct Names {
    tree: BTreeMap<Vec<u8>, Binding>,
    alloc: Global,
}

impl Model for Names {
    ghost use Rattle.std.specs.Prelude.{map as map_list};
    ghost use Rattle.std.specs.Ordering.{nat_cmp};
    ghost use Rattle.std.specs.Cmp.Lexicographic.{slice_cmp};
    ghost use Rattle.std.specs.FinMap as map;
    ghost use Rattle.shell_vars.specs.Store.{Names as NameMap, names_code};

    ghost Value = { NameMap };

    ghost coded = { names_code };

    ghost view = { λ n. map.from_entries (map_list (λ e. (e.0.items, e.1)) n.tree.entries) };
}

impl Names {
    /// No names. Takes no memory.
    pub(crate) fn new(alloc: Global) -> Names
        ensures { result ≡ map.empty }
    {
        Names {
            tree: BTreeMap::new(alloc),
            alloc,
        }
    }

    /// The binding of a name.
    pub(crate) fn get(&self, name: &[u8]) -> Option<&Binding>
        ensures { option_copied result ≡ map.get self.now name.now }
    {
        self.tree.get(name)
    }

    /// Makes a change of a name's binding, or of the mark where it has none.
    ///
    /// # Errors
    /// `Memory`; the names are as before then.
    pub(crate) fn change(&mut self, name: &[u8], change: Change) -> Result<(), Memory>
        requires { CanChange change (unwrap_or (map.get self.old name.now) unset_here) }
        ensures ok { OnOk result (self.new ≡ map.insert self.old name.now (changed change (unwrap_or (map.get self.old name.now) unset_here))) }
        ensures err { OnErr result (self.new ≡ self.old) }
    {
        if self.get(name).is_some() {
            return self.change_bound(name, change);
        }
        let mut binding = Binding::unset_here();
        binding.change(self.alloc, change)?;
        self.insert(name, binding)
    }

    // Makes a change of the binding that a name has, in place.
    fn change_bound(&mut self, name: &[u8], change: Change) -> Result<(), Memory>
        requires bound { IsSome (map.get self.old name.now) }
        requires can { CanChange change (unwrap_or (map.get self.old name.now) unset_here) }
        ensures ok { OnOk result (self.new ≡ map.insert self.old name.now (changed change (unwrap_or (map.get self.old name.now) unset_here))) }
        ensures err { OnErr result (self.new ≡ self.old) }
    {
        let alloc = self.alloc;
        match self.tree.get_mut(name) {
            Some(binding) => binding.change(alloc, change),
            None => {
                drop(change);
                Ok(())
            }
        }
    }

    // Gives a name this binding.
    fn insert(&mut self, name: &[u8], binding: Binding) -> Result<(), Memory>
        ensures ok { OnOk result (self.new ≡ map.insert self.old name.now binding) }
        ensures err { OnErr result (self.new ≡ self.old) }
    {
        let key = Vec::from_slice(self.alloc, name)?;
        match self.tree.insert(key, binding) {
            Ok(_) => Ok(()),
            Err(_) => Err(Memory),
        }
    }

    /// Takes the binding of a name away, if it has one.
    pub(crate) fn remove(&mut self, name: &[u8])
        ensures { self.new ≡ map.remove self.old name.now }
    {
        drop(self.tree.remove(name));
    }

    /// Equal names.
    ///
    /// # Errors
    /// `Memory`.
    pub(crate) fn copy(&self) -> Result<Names, Memory>
        ensures { IfOk result (λ copy. copy ≡ self.now) }
    {
        let mut copy = Names::new(self.alloc);
        for (name, binding) in self.tree.iter() {
            copy.insert(name.as_slice(), binding.copy(self.alloc)?)?;
        }
        Ok(copy)
    }

    /// The sizes of the bindings together; 18446744073709551615 where that is more.
    pub(crate) fn size(&self) -> u64
        ensures { result ≡ min (names_size self.now) (2 ^ 64 - 1) }
    {
        let mut total = 0u64;
        for (name, binding) in self.tree.iter() {
            total = total
                .saturating_add(name.len() as u64)
                .saturating_add(size_of(&binding.value));
        }
        total
    }
}
