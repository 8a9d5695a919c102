//! A line to one peer at a time.

ghost use Rattle.std.specs.Prelude.{Option, ◌≡◌, ◌<◌, ◌≤◌, ℕ, List, [], length, take, Some, IfOk, IfSome, OnOk, OnErr, IsErrOf};
ghost use Rattle.osi_base.specs.Outside.{FaultsRose, logged, counted};
ghost use Rattle.osi_base.specs.declared.line.LineFault.TheVariants.{NoMemory};
ghost use Rattle.osi_base.specs.declared.line.LineCall.{LineCall};

use crate::fault;
use crate::name::Name;
use crate::octets::Octets;
use std::alloc::{AllocError, AllocFailed, Global};
use std::error::Error;
use std::fmt;

/// A call of the outside failed.
#[derive(Clone, Copy, Debug, PartialEq, Eq)]
pub struct Failed;

impl fmt::Display for Failed {
    ghost use Rattle.std.specs.Prelude.{Some, codes};

    ghost output = { λ _. Some (codes "a call of the outside failed") };

    fn fmt<W: fmt::Write>(&self, f: &mut fmt::Formatter<W>) -> fmt::Result {
        f.write_str("a call of the outside failed")
    }
}

impl Error for Failed {}

/// Why a call of a line was not done.
#[derive(Clone, Copy, Debug, PartialEq, Eq)]
pub enum LineFault {
    /// The line failed.
    Failed,
    /// An allocation was refused.
    NoMemory,
}

impl fmt::Display for LineFault {
    ghost use Rattle.std.specs.Prelude.{Some};
    ghost use Rattle.osi_base.specs.Printed.{line_fault_text};

    ghost output = { λ fault. Some (line_fault_text fault) };

    fn fmt<W: fmt::Write>(&self, f: &mut fmt::Formatter<W>) -> fmt::Result {
        f.write_str(match self {
            LineFault::Failed => "the line failed",
            LineFault::NoMemory => "out of memory",
        })
    }
}

impl Error for LineFault {}

impl From<fault::NoMemory> for LineFault {
    ghost from_gives = { λ _ fault. fault ≡ NoMemory };

    fn from(_error: fault::NoMemory) -> LineFault {
        LineFault::NoMemory
    }
}

impl From<AllocError> for LineFault {
    ghost from_gives = { λ _ fault. fault ≡ NoMemory };

    fn from(_error: AllocError) -> LineFault {
        LineFault::NoMemory
    }
}

impl<T: Drop> From<AllocFailed<T>> for LineFault {
    ghost from_gives = { λ _ fault. fault ≡ NoMemory };

    fn from(_error: AllocFailed<T>) -> LineFault {
        LineFault::NoMemory
    }
}

/// Whether a call of a line was done.
#[derive(Clone, Copy, Debug, PartialEq, Eq)]
pub enum Outcome {
    /// It was done.
    Done,
    /// It failed, and changed nothing outside.
    Failed,
}

/// A call of a line, as it stands in the line's log. A call that failed read or wrote no octets.
#[derive(Debug, Drop)]
pub enum LineCall {
    /// A connection to this host and port was called for.
    Open(Name, u16, Outcome),
    /// A connection from a peer was waited for at this port.
    Accept(u16, Outcome),
    /// These octets were read. A read of none that was done is the peer's end.
    Read(Octets, Outcome),
    /// These octets were written.
    Write(Octets, Outcome),
    /// The connection was shut.
    Shut(Outcome),
}

/// A line to one peer at a time: `open` and `accept` begin a new connection. An object may tell
/// its log. It may stop telling it at a call of `shut`, which has no answer for want of memory.
/// Only a call that answers `Failed` raises the count of faults.
pub trait Line {
    // How often the line failed: a count that never falls, and stands still at its last value.
    ghost faults: { Self → ℕ };

    // The calls so far but those for which an allocation was refused, the newest first, where the
    // object tells them.
    ghost told: { Self → Option (List LineCall) };

    // How many octets were read on the present connection: a number that stands still at its last
    // value.
    ghost octets_read: { Self → ℕ };

    /// Calls for a connection to this host and port.
    fn open(&mut self, alloc: Global, host: &Name, port: u16) -> Result<(), LineFault>
        ensures count { faults self.old ≤ faults self.new }
        ensures ok { OnOk result (told self.new ≡ logged (LineCall.Open host.now port Outcome.Done)
            (told self.old)) }
        ensures ok_count { OnOk result (faults self.new ≡ faults self.old) }
        ensures begins { OnOk result (octets_read self.new ≡ 0) }

        // The line failed
        ensures failed { IsErrOf result LineFault.Failed →
            FaultsRose (faults self.old) (faults self.new) }
        ensures failed_log { IsErrOf result LineFault.Failed →
            told self.new ≡ logged (LineCall.Open host.now port Outcome.Failed) (told self.old) }
        ensures failed_begins { IsErrOf result LineFault.Failed → octets_read self.new ≡ 0 }

        // An allocation was refused
        ensures no_memory { IsErrOf result LineFault.NoMemory → faults self.new ≡ faults self.old }
        ensures no_memory_log { IsErrOf result LineFault.NoMemory → told self.new ≡ told self.old }
        ensures no_memory_read { IsErrOf result LineFault.NoMemory →
            octets_read self.new ≡ octets_read self.old };

    /// Waits for a connection from a peer at this port.
    fn accept(&mut self, alloc: Global, port: u16) -> Result<(), LineFault>
        ensures count { faults self.old ≤ faults self.new }
        ensures ok { OnOk result (told self.new ≡ logged (LineCall.Accept port Outcome.Done)
            (told self.old)) }
        ensures ok_count { OnOk result (faults self.new ≡ faults self.old) }
        ensures begins { OnOk result (octets_read self.new ≡ 0) }

        // The line failed
        ensures failed { IsErrOf result LineFault.Failed →
            FaultsRose (faults self.old) (faults self.new) }
        ensures failed_log { IsErrOf result LineFault.Failed →
            told self.new ≡ logged (LineCall.Accept port Outcome.Failed) (told self.old) }
        ensures failed_begins { IsErrOf result LineFault.Failed → octets_read self.new ≡ 0 }

        // An allocation was refused
        ensures no_memory { IsErrOf result LineFault.NoMemory → faults self.new ≡ faults self.old }
        ensures no_memory_log { IsErrOf result LineFault.NoMemory → told self.new ≡ told self.old }
        ensures no_memory_read { IsErrOf result LineFault.NoMemory →
            octets_read self.new ≡ octets_read self.old };

    /// Reads octets into the front of this room, and answers how many. None are the peer's end.
    fn read(&mut self, room: &mut [u8]) -> Result<usize, LineFault>
        requires { 0 < length room.old }
        ensures count { faults self.old ≤ faults self.new }
        ensures within { IfOk result (λ filled. filled ≤ length room.new) }
        ensures ok { IfOk result (λ filled. told self.new
            ≡ logged (LineCall.Read (take filled room.new) Outcome.Done) (told self.old)) }
        ensures ok_count { OnOk result (faults self.new ≡ faults self.old) }
        ensures counts { IfOk result (λ filled. octets_read self.new
            ≡ counted (octets_read self.old) filled) }
        ensures err { OnErr result (octets_read self.new ≡ octets_read self.old) }

        // The line failed
        ensures failed { IsErrOf result LineFault.Failed →
            FaultsRose (faults self.old) (faults self.new) }
        ensures failed_log { IsErrOf result LineFault.Failed →
            told self.new ≡ logged (LineCall.Read [] Outcome.Failed) (told self.old) }

        // An allocation was refused
        ensures no_memory { IsErrOf result LineFault.NoMemory → faults self.new ≡ faults self.old }
        ensures no_memory_log { IsErrOf result LineFault.NoMemory → told self.new ≡ told self.old };

    /// Writes the first octets of this piece, and answers how many: one or more, where the piece
    /// isn't empty. After an `Err` none was written.
    fn write(&mut self, bytes: &[u8]) -> Result<usize, LineFault>
        ensures count { faults self.old ≤ faults self.new }
        ensures within { IfOk result (λ taken. taken ≤ length bytes.now) }
        ensures some { IfOk result (λ taken. 0 < length bytes.now → 0 < taken) }
        ensures ok { IfOk result (λ taken. told self.new
            ≡ logged (LineCall.Write (take taken bytes.now) Outcome.Done) (told self.old)) }
        ensures ok_count { OnOk result (faults self.new ≡ faults self.old) }
        ensures read { octets_read self.new ≡ octets_read self.old }

        // The line failed
        ensures failed { IsErrOf result LineFault.Failed →
            FaultsRose (faults self.old) (faults self.new) }
        ensures failed_log { IsErrOf result LineFault.Failed →
            told self.new ≡ logged (LineCall.Write [] Outcome.Failed) (told self.old) }

        // An allocation was refused
        ensures no_memory { IsErrOf result LineFault.NoMemory → faults self.new ≡ faults self.old }
        ensures no_memory_log { IsErrOf result LineFault.NoMemory → told self.new ≡ told self.old };

    /// Shuts the connection.
    fn shut(&mut self) -> Result<(), Failed>
        ensures count { faults self.old ≤ faults self.new }
        ensures ok { OnOk result (IfSome (told self.new)
            (λ log. Some log ≡ logged (LineCall.Shut Outcome.Done) (told self.old))) }
        ensures ok_count { OnOk result (faults self.new ≡ faults self.old) }
        ensures read { octets_read self.new ≡ octets_read self.old }
        ensures failed { OnErr result (FaultsRose (faults self.old) (faults self.new)) }
        ensures failed_log { OnErr result (IfSome (told self.new)
            (λ log. Some log ≡ logged (LineCall.Shut Outcome.Failed) (told self.old))) };
}
