//! What octets are written to.

ghost use Rattle.std.specs.Prelude.{Option, ◌≡◌, ◌<◌, ◌≤◌, ℕ, List, length, take, IfOk, OnOk, OnErr, IsErrOf};
ghost use Rattle.osi_base.specs.Outside.{FaultsRose, grown, GrewPart};
ghost use Rattle.osi_base.specs.declared.sink.SinkFault.TheVariants.{NoMemory};

use crate::fault;
use std::alloc::AllocError;
use std::error::Error;
use std::fmt;

/// Why octets could not be written.
#[derive(Clone, Copy, Debug, PartialEq, Eq)]
pub enum SinkFault {
    /// Writing failed.
    Failed,
    /// An allocation was refused.
    NoMemory,
}

impl fmt::Display for SinkFault {
    ghost use Rattle.std.specs.Prelude.{Some};
    ghost use Rattle.osi_base.specs.Printed.{sink_fault_text};

    ghost output = { λ fault. Some (sink_fault_text fault) };

    fn fmt<W: fmt::Write>(&self, f: &mut fmt::Formatter<W>) -> fmt::Result {
        f.write_str(match self {
            SinkFault::Failed => "writing failed",
            SinkFault::NoMemory => "out of memory",
        })
    }
}

impl Error for SinkFault {}

impl From<fault::NoMemory> for SinkFault {
    ghost from_gives = { λ _ fault. fault ≡ NoMemory };

    fn from(_error: fault::NoMemory) -> SinkFault {
        SinkFault::NoMemory
    }
}

impl From<AllocError> for SinkFault {
    ghost from_gives = { λ _ fault. fault ≡ NoMemory };

    fn from(_error: AllocError) -> SinkFault {
        SinkFault::NoMemory
    }
}

/// What octets are written to, in pieces. An object may tell the octets that were written so far.
/// Only a call that answers `Failed` raises the count of faults.
pub trait Sink {
    // How often writing failed: a count that never falls, and stands still at its last value.
    ghost faults: { Self → ℕ };

    // The octets that were written so far, where the object tells them.
    ghost told: { Self → Option (List ℕ) };

    /// Writes the first octets of this piece, and answers how many: one or more, where the piece
    /// isn't empty. After an `Err` none was written.
    fn write(&mut self, bytes: &[u8]) -> Result<usize, SinkFault>
        ensures count { faults self.old ≤ faults self.new }

        // What is written
        ensures within { IfOk result (λ taken. taken ≤ length bytes.now) }
        ensures some { IfOk result (λ taken. 0 < length bytes.now → 0 < taken) }
        ensures ok { IfOk result (λ taken. told self.new ≡ grown (told self.old)
            (take taken bytes.now)) }
        ensures ok_count { OnOk result (faults self.new ≡ faults self.old) }
        ensures err { OnErr result (told self.new ≡ told self.old) }

        // Why nothing is
        ensures failed { IsErrOf result SinkFault.Failed →
            FaultsRose (faults self.old) (faults self.new) }
        ensures no_memory { IsErrOf result SinkFault.NoMemory → faults self.new ≡ faults self.old };
}

/// Writes all of these octets. After an `Err` a beginning of them was written.
#[tactic(auto, using(crate::proofs::Grown::grown_nil, crate::proofs::Grown::grown_grown))]
pub fn write_all<O: Sink>(out: &mut O, bytes: &[u8]) -> Result<(), SinkFault>
    ensures count { O.faults out.old ≤ O.faults out.new }
    ensures ok { OnOk result (O.told out.new ≡ grown (O.told out.old) bytes.now) }
    ensures ok_count { OnOk result (O.faults out.new ≡ O.faults out.old) }
    ensures err { OnErr result (GrewPart (O.told out.old) (O.told out.new) bytes.now) }
    ensures failed { IsErrOf result SinkFault.Failed →
        FaultsRose (O.faults out.old) (O.faults out.new) }
    ensures no_memory { IsErrOf result SinkFault.NoMemory → O.faults out.new ≡ O.faults out.old }
{
    let mut written = 0;
    while written < bytes.len() {
        written += out.write(&bytes[written..])?;
    }
    Ok(())
}
