//! The calls of a line that is held in memory.

ghost use Rattle.std.specs.Prelude.{◌≡◌, ◌↔◌, ◌+◌, ◌^◌, ◌<◌, ◌≤◌, [], Some, IfOk, IfSome, OnOk, OnErr, IsErrOf, min, length, take, drop};
ghost use Rattle.osi_base.specs.Failing.{IsDue, CallPasses, CallFails};
ghost use Rattle.osi_base.specs.MemLines.{due_in, next_peer_octets, IsAfterCall, Begins, EndsFailed, ReadsOn, KeepsFailed, StaysAsItWas};
ghost use Rattle.osi_base.specs.Outside.{logged, counted};
ghost use Rattle.osi_base.specs.Lines.{shuts_told};
ghost use Rattle.osi_base.specs.Limits.{last_count};

use crate::copied::Copied;
use crate::fault::NoMemory;
use crate::line::{Failed, Line, LineCall, LineFault, Outcome};
use crate::mem_line::MemLine;
use crate::name::Name;
use crate::octets::Octets;
use std::alloc::Global;

impl MemLine {
    /// Begins a connection that came to this: to the next peer, where it was done.
    fn begin(&mut self, outcome: Outcome) -> Result<(), LineFault>
        requires { (outcome ≡ Outcome.Failed) ↔ IsDue self.old.failing }
        ensures ok { OnOk result (CallPasses self.old.failing self.new.failing) }
        ensures begins { self.new.octets_read ≡ 0 }
        ensures next { OnOk result (self.new.peer_octets ≡ next_peer_octets self.old.peers.items) }
        ensures peers { OnOk result (self.new.peers.items ≡ drop 1 self.old.peers.items) }
        ensures failed { OnErr result (CallFails self.old.failing self.new.failing) }
        ensures failed_peers { OnErr result (self.new.peers ≡ self.old.peers) }
        ensures none_of_failed { OnErr result (self.new.peer_octets ≡ []) }
        ensures after { IsAfterCall self.old self.new }
        ensures log { self.new.log ≡ self.old.log }
        ensures no_memory { ¬ (IsErrOf result LineFault.NoMemory) }
    {
        self.failing.is_next();
        self.octets_read = 0;
        self.peer_octets = Octets::new(self.alloc);
        match outcome {
            Outcome::Failed => Err(LineFault::Failed),
            Outcome::Done => {
                if let Some(peer_octets) = self.peers.pop_front() {
                    self.peer_octets = peer_octets;
                }
                Ok(())
            }
        }
    }

    /// What of the present peer's octets is read into this room.
    fn due(&self, room: usize) -> &[u8]
        ensures due { result.now ≡ due_in self.now room }
        ensures within { self.now.octets_read + length (due_in self.now room) ≤ length
            self.now.peer_octets }
        ensures fits { length self.now.peer_octets < 2 ^ 64 }
    {
        let left = &self.peer_octets.as_slice()[self.octets_read..];
        &left[..self.most.min(room).min(left.len())]
    }
}

impl Line for MemLine {
    ghost faults = { λ it. it.failing.faults };

    ghost told = { λ it. it.log };

    ghost octets_read = { λ it. it.octets_read };

    fn open(&mut self, alloc: Global, host: &Name, port: u16) -> Result<(), LineFault>
        ensures after { IsAfterCall self.old self.new }

        // It fails exactly where it is to
        ensures begins { OnOk result (Begins self.old self.new) }
        ensures failed { IsErrOf result LineFault.Failed → EndsFailed self.old self.new }
        ensures no_memory { IsErrOf result LineFault.NoMemory → StaysAsItWas self.old self.new }

        // What stands in the log
        ensures ok_log { OnOk result (self.new.log
            ≡ logged (LineCall.Open host.now port Outcome.Done) self.old.log) }
        ensures failed_log { IsErrOf result LineFault.Failed →
            self.new.log ≡ logged (LineCall.Open host.now port Outcome.Failed) self.old.log }
    {
        let outcome = self.failing.next_outcome();
        let call = LineCall::Open(host.copy(alloc)?, port, outcome);
        self.log.push(call)?;
        self.begin(outcome)
    }

    fn accept(&mut self, _alloc: Global, port: u16) -> Result<(), LineFault>
        ensures after { IsAfterCall self.old self.new }

        // It fails exactly where it is to
        ensures begins { OnOk result (Begins self.old self.new) }
        ensures failed { IsErrOf result LineFault.Failed → EndsFailed self.old self.new }
        ensures no_memory { IsErrOf result LineFault.NoMemory → StaysAsItWas self.old self.new }

        // What stands in the log
        ensures ok_log { OnOk result (self.new.log ≡ logged (LineCall.Accept port Outcome.Done)
            self.old.log) }
        ensures failed_log { IsErrOf result LineFault.Failed →
            self.new.log ≡ logged (LineCall.Accept port Outcome.Failed) self.old.log }
    {
        let outcome = self.failing.next_outcome();
        self.log.push(LineCall::Accept(port, outcome))?;
        self.begin(outcome)
    }

    fn read(&mut self, room: &mut [u8]) -> Result<usize, LineFault>
        ensures after { IsAfterCall self.old self.new }

        // It fails exactly where it is to
        ensures reads { IfOk result (λ filled. ReadsOn self.old self.new filled) }
        ensures within { IfOk result (λ filled. filled ≤ length room.new) }
        ensures counts { IfOk result (λ filled. self.new.octets_read ≡ counted self.old.octets_read
            filled) }
        ensures filled { IfOk result (λ filled. take filled room.new ≡ due_in self.old
            (length room.old)) }
        ensures failed { IsErrOf result LineFault.Failed → KeepsFailed self.old self.new }
        ensures no_memory { IsErrOf result LineFault.NoMemory → StaysAsItWas self.old self.new }

        // What stands in the log
        ensures ok_log { OnOk result (self.new.log
            ≡ logged (LineCall.Read (due_in self.old (length room.old)) Outcome.Done)
            self.old.log) }
        ensures failed_log { IsErrOf result LineFault.Failed →
            self.new.log ≡ logged (LineCall.Read [] Outcome.Failed) self.old.log }
    {
        let outcome = self.failing.next_outcome();
        let octets = match outcome {
            Outcome::Failed => Octets::new(self.alloc),
            Outcome::Done => Octets::from_slice(self.alloc, self.due(room.len()))?,
        };
        let filled = octets.len();
        room[..filled].copy_from_slice(octets.as_slice());
        self.log.push(LineCall::Read(octets, outcome))?;
        self.failing.is_next();
        self.octets_read += filled;
        match outcome {
            Outcome::Failed => Err(LineFault::Failed),
            Outcome::Done => Ok(filled),
        }
    }

    fn write(&mut self, bytes: &[u8]) -> Result<usize, LineFault>
        ensures after { IsAfterCall self.old self.new }

        // It fails exactly where it is to
        ensures writes { IfOk result (λ taken. ReadsOn self.old self.new 0) }
        ensures within { IfOk result (λ taken. taken ≤ length bytes.now) }
        ensures some { IfOk result (λ taken. 0 < length bytes.now → 0 < taken) }
        ensures taken { IfOk result (λ taken. taken ≡ min self.old.most (length bytes.now)) }
        ensures failed { IsErrOf result LineFault.Failed → KeepsFailed self.old self.new }
        ensures no_memory { IsErrOf result LineFault.NoMemory → StaysAsItWas self.old self.new }

        // What stands in the log
        ensures ok_log { IfOk result (λ taken. self.new.log
            ≡ logged (LineCall.Write (take taken bytes.now) Outcome.Done) self.old.log) }
        ensures failed_log { IsErrOf result LineFault.Failed →
            self.new.log ≡ logged (LineCall.Write [] Outcome.Failed) self.old.log }
    {
        let outcome = self.failing.next_outcome();
        let taken = match outcome {
            Outcome::Failed => 0,
            Outcome::Done => self.most.min(bytes.len()),
        };
        let octets = Octets::from_slice(self.alloc, &bytes[..taken])?;
        self.log.push(LineCall::Write(octets, outcome))?;
        self.failing.is_next();
        match outcome {
            Outcome::Failed => Err(LineFault::Failed),
            Outcome::Done => Ok(taken),
        }
    }

    fn shut(&mut self) -> Result<(), Failed>
        ensures after { IsAfterCall self.old self.new }

        // It fails exactly where it is to
        ensures shuts { OnOk result (ReadsOn self.old self.new 0) }
        ensures failed { OnErr result (KeepsFailed self.old self.new) }

        // What stands in the log
        ensures ok_log { OnOk result (IfSome self.new.log
            (λ log. Some log ≡ logged (LineCall.Shut Outcome.Done) self.old.log)) }
        ensures kept { OnOk result (shuts_told self.old.log < last_count →
            self.new.log ≡ logged (LineCall.Shut Outcome.Done) self.old.log) }
        ensures failed_log { OnErr result
            (IfSome self.new.log (λ log. Some log ≡ logged (LineCall.Shut Outcome.Failed)
            self.old.log)) }
    {
        if !self.failing.is_next() {
            self.log.push_shut();
            return Ok(());
        }
        if let Err(NoMemory) = self.log.push(LineCall::Shut(Outcome::Failed)) {
            self.log.stop();
        }
        Err(Failed)
    }
}
