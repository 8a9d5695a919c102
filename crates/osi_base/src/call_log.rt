//! The log of a line that keeps one.

ghost use Rattle.std.specs.Prelude.{◌≡◌, ◌<◌, [], Some, None, IfSome, OnOk, OnErr, reverse};
ghost use Rattle.osi_base.specs.Outside.{logged};
ghost use Rattle.osi_base.specs.Lines.{shut_after, shuts_told};
ghost use Rattle.osi_base.specs.Limits.{last_count};

use crate::fault::NoMemory;
use crate::line::{LineCall, Outcome};
use std::alloc::Global;
use std::marker::Model;

/// The log of a line. A call of `shut` that was done needs no memory to be told: those that stand
/// in a row at the end are only counted.
#[derive(Debug, Drop)]
pub struct CallLog {
    calls: Vec<LineCall>,
    shuts: u64,
    is_told: bool,
}

impl Model for CallLog {
    ghost use Rattle.std.specs.Prelude.{Option, List, Some, None, reverse, if◌then◌else◌};
    ghost use Rattle.osi_base.specs.declared.line.LineCall.{LineCall};
    ghost use Rattle.osi_base.specs.Lines.{shut_after};

    ghost Value = { Option (List LineCall) };

    ghost view = { λ log.
        (if log.is_told then Some (shut_after log.shuts (reverse log.calls.items)) else None) };
}

/// Writes out the calls of `shut` that were only counted.
fn write_shuts(calls: &mut Vec<LineCall>, shuts: &mut u64) -> Result<(), NoMemory>
    ensures same { shut_after shuts.new (reverse calls.new.items) ≡ shut_after shuts.old
        (reverse calls.old.items) }
    ensures ok { OnOk result (shuts.new ≡ 0) }
{
    while *shuts > 0 {
        calls.push(LineCall::Shut(Outcome::Done))?;
        *shuts -= 1;
    }
    Ok(())
}

impl CallLog {
    /// A log of no calls.
    pub fn new(alloc: Global) -> CallLog
        ensures { result ≡ Some [] }
    {
        CallLog {
            calls: Vec::new(alloc),
            shuts: 0,
            is_told: true,
        }
    }

    /// Puts a call into the log.
    pub fn push(&mut self, call: LineCall) -> Result<(), NoMemory>
        ensures ok { OnOk result (self.new ≡ logged call self.old) }
        ensures err { OnErr result (self.new ≡ self.old) }
    {
        if self.is_told {
            write_shuts(&mut self.calls, &mut self.shuts)?;
            self.calls.push(call)?;
        }
        Ok(())
    }

    /// Puts a call of `shut` that was done into the log. Where 18,446,744,073,709,551,615 such
    /// calls stand in a row, the log is told no longer.
    #[tactic(auto, using(crate::proofs::Shuts::shuts_counted))]
    pub fn push_shut(&mut self)
        ensures told { IfSome self.new (λ log. Some log ≡ logged (LineCall.Shut Outcome.Done)
            self.old) }
        ensures kept { shuts_told self.old < last_count →
            self.new ≡ logged (LineCall.Shut Outcome.Done) self.old }
    {
        match self.shuts.checked_add(1) {
            Some(shuts) => self.shuts = shuts,
            None => self.is_told = false,
        }
    }

    /// From now on the log isn't told.
    pub fn stop(&mut self)
        ensures { self.new ≡ None }
    {
        self.is_told = false;
    }
}
