//! A list to which elements are added at its end, and of which a copy costs next to nothing.

ghost use Rattle.std.specs.Prelude.{◌≡◌, [], ◌∷◌, ◌++◌, IfOk, OnOk, OnErr};

use eb_bytes::Memory;
use shared::Shared;
use sqlite_items::Items as List;
use std::alloc::Global;
use std::marker::Model;

/// A list to which elements are added at its end. Its copies share the runs that it is made of, each of which is longer
/// than the one after it, so that a list of n elements has log n runs, and a copy takes as many steps.
#[derive(Drop)]
pub struct Trail<T> {
    runs: List<Shared<List<Shared<T>>>>,
    alloc: Global,
}

impl<T> Model for Trail<T> {
    ghost use Rattle.std.specs.Prelude.{List};
    ghost use Rattle.std.specs.List.{flat_map};
    ghost use Rattle.std.specs.Coded.{coded_list};

    ghost Value = { List T };

    ghost coded = { coded_list T.code };

    ghost view = { λ trail. flat_map (λ run. run) trail.runs };
}

// The same elements, shared.
fn shared<T: Drop>(alloc: Global, items: &[Shared<T>]) -> Result<List<Shared<T>>, Memory>
    ensures { IfOk result (λ copy. copy ≡ items.now) }
{
    let mut copy = List::new(alloc);
    for item in items {
        copy.push(item.share()?)?;
    }
    Ok(copy)
}

// The elements of a run, and those after them.
fn joined<T: Drop>(
    alloc: Global,
    first: &[Shared<T>],
    others: List<Shared<T>>,
) -> Result<List<Shared<T>>, Memory>
    ensures { IfOk result (λ joined. joined ≡ first.now ++ others) }
{
    let mut joined = shared(alloc, first)?;
    joined.append(others)?;
    Ok(joined)
}

impl<T: Drop> Trail<T> {
    /// No elements. Takes no memory.
    pub fn new(alloc: Global) -> Trail<T>
        ensures { result ≡ [] }
    {
        Trail {
            runs: List::new(alloc),
            alloc,
        }
    }

    /// The same elements. None is copied.
    ///
    /// # Errors
    /// `Memory` where there is no room for the runs.
    pub fn copy(&self) -> Result<Trail<T>, Memory>
        ensures { IfOk result (λ copy. copy ≡ self.now) }
    {
        Ok(Trail {
            runs: shared(self.alloc, self.runs.as_slice())?,
            alloc: self.alloc,
        })
    }

    /// Puts this element at the end. A run that is as long as those after it becomes one with them.
    ///
    /// # Errors
    /// `Memory` where there is no room for it; nothing was put then.
    #[tactic(auto, using(crate::proofs::Trails::flat_snoc))]
    pub fn push(&mut self, item: T) -> Result<(), Memory>
        ensures ok { OnOk result (self.new ≡ self.old ++ item ∷ []) }
        ensures err { OnErr result (self.new ≡ self.old) }
    {
        let mut runs = shared(self.alloc, self.runs.as_slice())?;
        let mut last = List::new(self.alloc);
        last.push(Shared::new(self.alloc, item)?)?;
        for _run in 0..runs.len() {
            match runs.pop() {
                Some(run) if run.get().len() == last.len() => {
                    last = joined(self.alloc, run.get().as_slice(), last)?;
                }
                Some(run) => {
                    runs.push(run)?;
                    break;
                }
                None => break,
            }
        }
        runs.push(Shared::new(self.alloc, last)?)?;
        self.runs = runs;
        Ok(())
    }

    /// The elements, in their order.
    ///
    /// # Errors
    /// `Memory` where there is no room for the list.
    #[tactic(auto, using(crate::proofs::Trails::flat_snoc))]
    pub fn list(&self) -> Result<List<Shared<T>>, Memory>
        ensures { IfOk result (λ list. list ≡ self.now) }
    {
        let mut list = List::new(self.alloc);
        for run in self.runs.as_slice() {
            list.append(shared(self.alloc, run.get().as_slice())?)?;
        }
        Ok(list)
    }
}
