ghost use Rattle.std.specs.Prelude.{◌≡◌, [], ◌∷◌, ◌++◌, ◌<◌, length, MatchOption, OnOk};

use eb_bytes::Memory;
use std::alloc::Global;
use std::collections::VecDeque;
use std::marker::Model;

// A list that grows and shrinks at both ends. Contracts see the list.
#[derive(Drop)]
pub(crate) struct Queue<T> {
    items: VecDeque<T>,
}

impl<T> Model for Queue<T> {
    ghost use Rattle.std.specs.Prelude.{List};

    ghost Value = { List T };

    ghost view = { λ q. q.items.items };
}

impl<T: Drop> Queue<T> {
    ghost use Rattle.std.specs.Option.{option_copied};
    ghost use Rattle.std.specs.Prelude.{slice_get, slice_index_or};

    pub(crate) fn new(alloc: Global) -> Queue<T>
        ensures { result ≡ [] }
    {
        Queue {
            items: VecDeque::new(alloc),
        }
    }

    pub(crate) fn len(&self) -> usize
        ensures { result ≡ length self.now }
    {
        self.items.len()
    }

    pub(crate) fn put_first(&mut self, item: T) -> Result<(), Memory>
        ensures { OnOk result (self.new ≡ item ∷ self.old) }
    {
        self.items.push_front(item)?;
        Ok(())
    }

    pub(crate) fn put_last(&mut self, item: T) -> Result<(), Memory>
        ensures { OnOk result (self.new ≡ self.old ++ item ∷ []) }
    {
        self.items.push_back(item)?;
        Ok(())
    }

    pub(crate) fn first(&self) -> Option<&T>
        ensures { option_copied result ≡ slice_get self.now 0 }
    {
        self.items.get(0)
    }

    pub(crate) fn at(&self, index: usize) -> &T
        requires { index < length self.now }
        ensures { result.now ≡ slice_index_or self.now index result.now }
    {
        &self.items[index]
    }

    // Moves the items of `more` to the end.
    pub(crate) fn append(&mut self, more: Queue<T>) -> Result<(), Memory>
        ensures { OnOk result (self.new ≡ self.old ++ more) }
    {
        let Queue { mut items } = more;
        self.items.append(&mut items)?;
        Ok(())
    }

    pub(crate) fn take_first(&mut self) -> Option<T>
        ensures { MatchOption result ((self.old ≡ []) × (self.new ≡ [])) (λ item. self.old ≡ item ∷ self.new) }
    {
        self.items.pop_front()
    }

    pub(crate) fn take_last(&mut self) -> Option<T>
        ensures { MatchOption result ((self.old ≡ []) × (self.new ≡ [])) (λ item. self.old ≡ self.new ++ item ∷ []) }
    {
        self.items.pop_back()
    }

    // All items, in order.
    pub(crate) fn into_vec(self) -> Vec<T>
        ensures { result.items ≡ self }
    {
        self.items.into_vec()
    }
}

impl<T: Copy> Queue<T> {
    // Puts these items before it.
    #[tactic(auto, using(crate::proofs::Placing::drop_step))]
    pub(crate) fn put_all_first(&mut self, items: &Queue<T>) -> Result<(), Memory>
        ensures { OnOk result (self.new ≡ items.now ++ self.old) }
    {
        let mut left = items.len();
        while 0 < left {
            left -= 1;
            self.put_first(*items.at(left))?;
        }
        Ok(())
    }

    // Puts these items after it.
    #[tactic(auto, using(std::proofs::lemmas::List::take_more))]
    pub(crate) fn put_all_last(&mut self, items: &Queue<T>) -> Result<(), Memory>
        ensures { OnOk result (self.new ≡ self.old ++ items.now) }
    {
        for index in 0..items.len() {
            self.put_last(*items.at(index))?;
        }
        Ok(())
    }
}
