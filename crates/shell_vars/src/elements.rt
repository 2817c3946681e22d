ghost use Rattle.std.specs.Prelude.{◌≡◌, ◌↔◌, ◌+◌, ◌≤◌, ◌<◌, ◌^◌, ◌++◌, ◌-◌, ◌&&◌, [], IsTrue, IfOk, OnOk, OnErr, cond, length, min, ℕ, nat_le, nat_lt, sum_by, unwrap_or, Option, Result};
ghost use Rattle.std.specs.List.{list_all};
ghost use Rattle.std.specs.Option.{option_copied};
ghost use Rattle.std.specs.Ordering.{nat_cmp};
ghost use Rattle.std.specs.FinMap as map;
ghost use Rattle.shell_vars.specs.Elements.{have_indices, next_index, joined, can_join, element_size, elements_size};
ghost use Rattle.shell_vars.specs.Value.{is_short};

use eb_bytes::{Bytes, Memory};
use std::alloc::Global;
use std::collections::BTreeMap;
use std::collections::btree_map::Iter;
use std::marker::Model;

/// The elements of an indexed array: texts by their indices, each of which is at most 9223372036854775807. Contracts
/// see them as a finite map from index to text.
#[derive(Drop)]
pub struct Elements {
    tree: BTreeMap<u64, Bytes>,
}

impl Model for Elements {
    ghost use Rattle.std.specs.Prelude.{IsTrue};
    ghost use Rattle.std.specs.Ordering.{nat_cmp};
    ghost use Rattle.std.specs.FinMap as map;
    ghost use Rattle.shell_vars.specs.Elements.{Elements as ElementMap, elements_code, have_indices};

    ghost Value = { ElementMap };

    ghost coded = { elements_code };

    ghost view = { λ e. map.from_entries e.tree.entries };

    ghost invariant = { λ e. IsTrue (have_indices e.tree.entries) };
}

impl Elements {
    /// No elements. Takes no memory.
    pub fn new(alloc: Global) -> Elements
        ensures { result ≡ map.empty }
    {
        Elements {
            tree: BTreeMap::new(alloc),
        }
    }

    /// The indices and their texts, in the order of the indices.
    pub fn iter(&self) -> Iter<'_, u64, Bytes>
        ensures entries { result ≡ map.entries self.now }
        ensures indices { IsTrue (have_indices result) }
    {
        self.tree.iter()
    }

    /// How many elements there are.
    pub fn len(&self) -> usize
        ensures { result ≡ map.len self.now }
    {
        self.tree.len()
    }

    /// Whether there are none.
    pub fn is_empty(&self) -> bool
        ensures { IsTrue result ↔ (map.len self.now ≡ 0) }
    {
        self.len() == 0
    }

    /// The text at an index.
    pub fn get(&self, at: u64) -> Option<&Bytes>
        ensures { option_copied result ≡ map.get self.now at }
    {
        self.tree.get(&at)
    }

    /// One more than the greatest index, and 0 without elements.
    pub fn next_index(&self) -> u64
        ensures value { result ≡ next_index self.now }
        ensures within { result ≤ 2 ^ 63 }
    {
        let _ = self.tree.len();
        match self.tree.last_key_value() {
            Some((at, _)) => *at + 1,
            None => 0,
        }
    }

    /// Puts a text at an index.
    ///
    /// # Errors
    /// `Memory`; the elements are as before then.
    pub fn insert(&mut self, at: u64, text: Bytes) -> Result<(), Memory>
        requires { at < 2 ^ 63 }
        ensures ok { OnOk result (self.new ≡ map.insert self.old at text) }
        ensures err { OnErr result (self.new ≡ self.old) }
    {
        match self.tree.insert(at, text) {
            Ok(_) => Ok(()),
            Err(_) => Err(Memory),
        }
    }

    /// Puts more bytes at the end of the text at an index, in place.
    ///
    /// # Errors
    /// `Memory`; the elements are as before then.
    pub(crate) fn extend(&mut self, at: u64, more: &[u8]) -> Result<(), Memory>
        requires { IsTrue (map.contains_key self.old at) }
        ensures ok { OnOk result (self.new ≡ map.insert self.old at (unwrap_or (map.get self.old at) [] ++ more.now)) }
        ensures err { OnErr result (self.new ≡ self.old) }
    {
        match self.tree.get_mut(&at) {
            Some(text) => text.extend(more),
            None => Ok(()),
        }
    }

    /// Takes the text at an index away, if there is one.
    pub fn remove(&mut self, at: u64)
        ensures { self.new ≡ map.remove self.old at }
    {
        drop(self.tree.remove(&at));
    }

    /// Puts the texts of other elements after the greatest index, in the order of theirs.
    ///
    /// # Errors
    /// `Memory`; the elements are as before then.
    pub fn join(&mut self, more: Elements) -> Result<(), Memory>
        requires { IsTrue (can_join self.old more) }
        ensures ok { OnOk result (self.new ≡ joined self.old more) }
        ensures err { OnErr result (self.new ≡ self.old) }
    {
        let start = self.next_index();
        let mut at = start;
        let Elements { tree } = more;
        let _ = tree.len();
        for text in tree.into_values() {
            if self.insert(at, text).is_err() {
                self.remove_between(start, at);
                return Err(Memory);
            }
            at += 1;
        }
        Ok(())
    }

    // Takes the texts away whose indices are from `start` up to and without `end`.
    fn remove_between(&mut self, start: u64, end: u64)
        requires { start ≤ end }
        ensures { (q : ℕ) → map.get self.new q ≡ cond (nat_le start q && nat_lt q end) None (map.get self.old q) }
    {
        for at in start..end {
            self.remove(at);
        }
    }

    /// Equal elements.
    ///
    /// # Errors
    /// `Memory`.
    pub fn copy(&self, alloc: Global) -> Result<Elements, Memory>
        ensures { IfOk result (λ copy. copy ≡ self.now) }
    {
        let mut copy = Elements::new(alloc);
        for (at, text) in self.iter() {
            copy.insert(*at, text.copy(alloc)?)?;
        }
        Ok(copy)
    }

    /// For each element its length and 16, together; 18446744073709551615 where that is more.
    pub fn size(&self) -> u64
        ensures { result ≡ min (elements_size self.now) (2 ^ 64 - 1) }
    {
        let mut total = 0u64;
        for (_, text) in self.iter() {
            total = total.saturating_add(text.len() as u64).saturating_add(16);
        }
        total
    }

    /// Whether each text has at most 1,048,576 bytes.
    pub fn are_short(&self) -> bool
        ensures { result ≡ list_all (λ e. is_short e.1) (map.entries self.now) }
    {
        for (_, text) in self.iter() {
            if text.len() > 1_048_576 {
                return false;
            }
        }
        true
    }
}
