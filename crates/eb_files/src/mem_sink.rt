ghost use Rattle.std.specs.Prelude.{◌≡◌, [], OnOk, OnErr, is_ok, is_none};
ghost use Rattle.eb_bytes.specs.Text.{Text};
ghost use Rattle.eb_files.specs.Causes.{HasCause};
ghost use Rattle.eb_files.specs.Plans.{asked, due, has_plan};
ghost use Rattle.eb_files.specs.Written.{after_put, Appended, IfPutMemory, is_put_failed};

use crate::faults::Faults;
use crate::plan;
use crate::plan::Plan;
use crate::sink::{Sink, SinkErr};
use eb_bytes::{Bytes, Memory};
use std::alloc::Global;
use std::marker::Model;

/// Output in memory, whose puts fail where that was asked for. Contracts see the bytes put, the failures to come and
/// the faults so far.
#[derive(Drop)]
pub struct MemSink {
    held: Bytes,
    plans: Vec<Plan<usize>>,
    faults: Faults,
}

impl Model for MemSink {
    ghost use Rattle.eb_files.specs.Written.{Held};

    ghost Value = { Held };

    ghost view = { λ s. record { written = s.held; plans = s.plans.items; faults = s.faults } };
}

impl MemSink {
    /// Nothing was put; no failure is asked for, and no fault came. Takes no memory.
    pub fn new(alloc: Global) -> MemSink
        ensures { result ≡ record { written = []; plans = []; faults = 0 } }
    {
        MemSink {
            held: Bytes::new(alloc),
            plans: Vec::new(alloc),
            faults: Faults::new(),
        }
    }

    /// The bytes put so far.
    pub fn written(&self) -> &[u8]
        ensures { result.now ≡ self.now.written }
    {
        self.held.as_slice()
    }

    /// Asks that the put after the next `after` ones fails, and puts only the first `kept` of its bytes, or all where
    /// there are fewer. Where several fall on one put, they come with it together, and the one asked for last counts.
    ///
    /// # Errors
    /// `Memory` where there is no room to keep that; nothing was asked for then.
    pub fn fail(&mut self, after: u64, kept: usize) -> Result<(), Memory>
        ensures ok { OnOk result (self.new ≡ record self.old { plans = asked self.old.plans after kept }) }
        ensures err { OnErr result (self.new ≡ self.old) }
    {
        self.plans.push(Plan { after, left: kept })?;
        Ok(())
    }
}

impl Sink for MemSink {
    ghost use Rattle.std.specs.Prelude.{Some};
    ghost use Rattle.eb_files.specs.Plans.{has_plan};

    ghost written = { λ s. Some s.written };

    ghost faults = { λ s. s.faults };

    ghost may_fail = { λ s. has_plan s.plans };

    fn put(&mut self, bytes: &[u8]) -> Result<(), SinkErr>
        ensures answer { IfPutMemory result (Unit {0}) (is_ok result ≡ is_none (due self.old.plans)) }
        ensures sink { IfPutMemory result (self.new ≡ self.old) (self.new ≡ after_put self.old bytes.now) }
        ensures means { (held : Text) → Some self.old.written ≡ Some held → Appended result held bytes.now (Some self.new.written) }
        ensures cause { HasCause (is_put_failed result) self.old.faults self.new.faults (has_plan self.old.plans) (has_plan self.new.plans) }
        ensures memory { IfPutMemory result (has_plan self.new.plans ≡ has_plan self.old.plans) (Unit {0}) }
    {
        let due = plan::due(&self.plans);
        let kept = due.unwrap_or(bytes.len()).min(bytes.len());
        self.held.extend(&bytes[..kept])?;
        plan::advance(&mut self.plans);
        if due.is_some() {
            self.faults.raise();
            return Err(SinkErr::Failed);
        }
        Ok(())
    }
}
