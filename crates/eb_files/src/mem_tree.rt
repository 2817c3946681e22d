ghost use Rattle.std.specs.Prelude.{◌≡◌, ◌++◌, ◌∷◌, ◌≤◌, [], Some, OnOk, OnErr, IfOk, IfSome, is_ok, length};
ghost use Rattle.std.specs.Option.{option_copied};
ghost use Rattle.std.specs.FinMap as map;
ghost use Rattle.eb_files.specs.Causes.{HasCause};
ghost use Rattle.eb_files.specs.Files.{Files, IfMemory, Reads, is_failed};
ghost use Rattle.eb_files.specs.Plans.{asked, has_plan};
ghost use Rattle.eb_files.specs.Trees.{after_call, answer_of_read};

use crate::call::{Call, CallKind, Left};
use crate::faults::Faults;
use crate::path::Path;
use crate::plan;
use crate::plan::Plan;
use crate::store::Store;
use crate::tree::{Tree, TreeErr};
use eb_bytes::{Bytes, Memory};
use std::alloc::Global;
use std::marker::Model;

/// Files in memory, whose calls fail where that was asked for. Contracts see its files, the failures to come, the
/// faults so far and the calls so far.
#[derive(Drop)]
pub struct MemTree {
    alloc: Global,
    store: Store,
    plans: Vec<Plan<Left>>,
    faults: Faults,
    calls: Vec<Call>,
}

impl Model for MemTree {
    ghost use Rattle.std.specs.Coded.{codes};
    ghost use Rattle.eb_files.specs.Files.{files_code};
    ghost use Rattle.eb_files.specs.Trees.{Kept};

    ghost Value = { Kept };

    ghost coded = { Prim.hlevel (codes, files_code) };

    ghost view = { λ t. record { files = t.store; plans = t.plans.items; faults = t.faults; calls = t.calls.items } };
}

impl MemTree {
    /// No file; no failure is asked for, no fault and no call came. Takes no memory.
    pub fn new(alloc: Global) -> MemTree
        ensures { result ≡ record { files = map.empty; plans = []; faults = 0; calls = [] } }
    {
        MemTree {
            alloc,
            store: Store::new(alloc),
            plans: Vec::new(alloc),
            faults: Faults::new(),
            calls: Vec::new(alloc),
        }
    }

    /// The path holds these bytes from now on. This is no call.
    ///
    /// # Errors
    /// `Memory` where there is no room for them; nothing changed then.
    pub fn put(&mut self, path: &Path, bytes: &[u8]) -> Result<(), Memory>
        ensures ok { OnOk result (self.new ≡ record self.old { files = map.insert self.old.files path.now bytes.now }) }
        ensures err { OnErr result (self.new ≡ self.old) }
    {
        let path = path.copy(self.alloc)?;
        let bytes = Bytes::from_slice(self.alloc, bytes)?;
        self.store.insert(path, bytes)
    }

    /// The path holds no file from now on. This is no call, and takes no memory.
    pub fn delete(&mut self, path: &Path)
        ensures { self.new ≡ record self.old { files = map.remove self.old.files path.now } }
    {
        self.store.remove(path);
    }

    /// The bytes of the file at the path, where there is one. This is no call.
    pub fn get(&self, path: &Path) -> Option<&[u8]>
        ensures { option_copied result ≡ map.get self.now.files path.now }
    {
        Some(self.store.get(path)?.as_slice())
    }

    /// Asks that the call after the next `after` ones fails, and leaves `left`. Where several fall on one call, they
    /// come with it together, and it leaves what the one asked for last says. A read leaves all as it is.
    ///
    /// # Errors
    /// `Memory` where there is no room to keep that; nothing was asked for then.
    pub fn fail(&mut self, after: u64, left: Left) -> Result<(), Memory>
        ensures ok { OnOk result (self.new ≡ record self.old { plans = asked self.old.plans after left }) }
        ensures err { OnErr result (self.new ≡ self.old) }
    {
        self.plans.push(Plan { after, left })?;
        Ok(())
    }

    /// The calls so far, in order, without those that ran out of memory.
    pub fn calls(&self) -> &[Call]
        ensures { result.now ≡ self.now.calls }
    {
        self.calls.as_slice()
    }

    // Records a call, and brings the failures to come one call nearer.
    fn note(&mut self, kind: CallKind, path: &Path, ok: bool) -> Result<(), Memory>
        ensures ok { OnOk result (self.new ≡ after_call self.old kind path.now ok) }
        ensures err { OnErr result (self.new ≡ self.old) }
    {
        let path = path.copy(self.alloc)?;
        self.calls.push(Call { kind, path, ok })?;
        if plan::due(&self.plans).is_some() {
            self.faults.raise();
        }
        plan::advance(&mut self.plans);
        Ok(())
    }

    // What a read answers, before it is recorded.
    fn look(&self, alloc: Global, path: &Path, limit: usize) -> Result<Option<Bytes>, TreeErr>
        ensures { IfMemory result (Unit {0}) (result ≡ answer_of_read self.now path.now limit) }
    {
        match plan::due(&self.plans) {
            Some(_) => Err(TreeErr::Failed),
            None => self.store.read(alloc, path, limit),
        }
    }
}

impl Tree for MemTree {
    ghost use Rattle.std.specs.Prelude.{Some};
    ghost use Rattle.eb_files.specs.Plans.{has_plan};

    ghost files = { λ t. Some t.files };

    ghost faults = { λ t. t.faults };

    ghost may_fail = { λ t. has_plan t.plans };

    fn read(&mut self, alloc: Global, path: &Path, limit: usize) -> Result<Option<Bytes>, TreeErr>
        ensures answer { IfMemory result (Unit {0}) (result ≡ answer_of_read self.old path.now limit) }
        ensures tree { IfMemory result (self.new ≡ self.old) (self.new ≡ after_call self.old CallKind.Read path.now (is_ok result)) }
        ensures same { Some self.new.files ≡ Some self.old.files }
        ensures means { (f : Files) → Some self.old.files ≡ Some f → Reads result (map.get f path.now) limit }
        ensures bound { IfOk result (λ o. IfSome o (λ bytes. length bytes ≤ limit)) }
        ensures cause { HasCause (is_failed result) self.old.faults self.new.faults (has_plan self.old.plans) (has_plan self.new.plans) }
        ensures memory { IfMemory result (has_plan self.new.plans ≡ has_plan self.old.plans) (Unit {0}) }
    {
        let answer = self.look(alloc, path, limit);
        if matches!(&answer, Err(TreeErr::Memory)) {
            return answer;
        }
        self.note(CallKind::Read, path, answer.is_ok())?;
        answer
    }
}
