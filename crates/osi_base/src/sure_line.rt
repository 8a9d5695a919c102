//! A line that never fails and whose peers say nothing.

ghost use Rattle.std.specs.Prelude.{◌≡◌, ◌<◌, [], length, take, Some, IfOk, IfSome, IsOk, IsErrOf};
ghost use Rattle.osi_base.specs.Outside.{logged};
ghost use Rattle.osi_base.specs.Lines.{shuts_told};
ghost use Rattle.osi_base.specs.Limits.{last_count};

use crate::call_log::CallLog;
use crate::copied::Copied;
use crate::line::{Failed, Line, LineCall, LineFault, Outcome};
use crate::name::Name;
use crate::octets::Octets;
use std::alloc::Global;
use std::marker::Model;

/// A line that never fails. Its peers take all that is written, and end without a word. It tells
/// its log.
#[derive(Debug, Drop)]
pub struct SureLine {
    alloc: Global,
    log: CallLog,
}

impl Model for SureLine {
    ghost use Rattle.std.specs.Prelude.{Option, List};
    ghost use Rattle.osi_base.specs.declared.line.LineCall.{LineCall};

    ghost Value = { Option (List LineCall) };

    ghost view = { λ line. line.log };
}

impl SureLine {
    /// A line of which no call was made.
    pub fn new(alloc: Global) -> SureLine
        ensures { result ≡ Some [] }
    {
        SureLine {
            alloc,
            log: CallLog::new(alloc),
        }
    }
}

impl Line for SureLine {
    ghost faults = { λ _. 0 };

    ghost told = { λ line. line };

    ghost octets_read = { λ _. 0 };

    fn open(&mut self, alloc: Global, host: &Name, port: u16) -> Result<(), LineFault> {
        let call = LineCall::Open(host.copy(alloc)?, port, Outcome::Done);
        self.log.push(call)?;
        Ok(())
    }

    fn accept(&mut self, _alloc: Global, port: u16) -> Result<(), LineFault> {
        self.log.push(LineCall::Accept(port, Outcome::Done))?;
        Ok(())
    }

    fn read(&mut self, _room: &mut [u8]) -> Result<usize, LineFault> {
        let octets = Octets::new(self.alloc);
        self.log.push(LineCall::Read(octets, Outcome::Done))?;
        Ok(0)
    }

    fn write(&mut self, bytes: &[u8]) -> Result<usize, LineFault>
        ensures whole { IfOk result (λ taken. taken ≡ length bytes.now) }
        ensures ok { IfOk result (λ taken. self.new
            ≡ logged (LineCall.Write (take taken bytes.now) Outcome.Done) self.old) }
        ensures no_memory_log { IsErrOf result LineFault.NoMemory → self.new ≡ self.old }
        ensures never { ¬ (IsErrOf result LineFault.Failed) }
    {
        let octets = Octets::from_slice(self.alloc, bytes)?;
        self.log.push(LineCall::Write(octets, Outcome::Done))?;
        Ok(bytes.len())
    }

    fn shut(&mut self) -> Result<(), Failed>
        ensures done { IsOk result }
        ensures log { IfSome self.new (λ log. Some log ≡ logged (LineCall.Shut Outcome.Done)
            self.old) }
        ensures kept { shuts_told self.old < last_count →
            self.new ≡ logged (LineCall.Shut Outcome.Done) self.old }
    {
        self.log.push_shut();
        Ok(())
    }
}
