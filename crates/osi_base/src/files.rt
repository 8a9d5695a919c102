//! Files that are read by name.

ghost use Rattle.std.specs.Prelude.{Option, ◌≡◌, ◌≤◌, ℕ, List, length, IfOk, IfSome, OnOk, IsErrOf};
ghost use Rattle.osi_base.specs.Limits.{file_most};
ghost use Rattle.osi_base.specs.Outside.{FaultsRose, FileMap, Lacks, logged};
ghost use Rattle.osi_base.specs.declared.files.FileFault.TheVariants.{NoMemory};

use crate::fault;
use crate::name::Name;
use crate::octets::Octets;
use std::alloc::{AllocError, AllocFailed, Global};
use std::error::Error;
use std::fmt;

/// How many octets of a file are handed up at most: one more than any file that is read whole
/// may have, so that a file which is too long is seen to be.
pub const FILE_MOST: usize = 16_777_217;

/// Why a file could not be read.
#[derive(Clone, Copy, Debug, PartialEq, Eq)]
pub enum FileFault {
    /// Reading failed.
    Failed,
    /// There is no file of this name.
    Missing,
    /// An allocation was refused.
    NoMemory,
}

impl fmt::Display for FileFault {
    ghost use Rattle.std.specs.Prelude.{Some};
    ghost use Rattle.osi_base.specs.Printed.{file_fault_text};

    ghost output = { λ fault. Some (file_fault_text fault) };

    fn fmt<W: fmt::Write>(&self, f: &mut fmt::Formatter<W>) -> fmt::Result {
        f.write_str(match self {
            FileFault::Failed => "reading failed",
            FileFault::Missing => "there is no such file",
            FileFault::NoMemory => "out of memory",
        })
    }
}

impl Error for FileFault {}

impl From<fault::NoMemory> for FileFault {
    ghost from_gives = { λ _ fault. fault ≡ NoMemory };

    fn from(_error: fault::NoMemory) -> FileFault {
        FileFault::NoMemory
    }
}

impl From<AllocError> for FileFault {
    ghost from_gives = { λ _ fault. fault ≡ NoMemory };

    fn from(_error: AllocError) -> FileFault {
        FileFault::NoMemory
    }
}

impl<T: Drop> From<AllocFailed<T>> for FileFault {
    ghost from_gives = { λ _ fault. fault ≡ NoMemory };

    fn from(_error: AllocFailed<T>) -> FileFault {
        FileFault::NoMemory
    }
}

/// Files that are read by name. An object may tell their contents, and the names that it was
/// asked for. `Missing` comes only where it tells that there is no such file. Only a call that
/// answers `Failed` raises the count of faults.
pub trait Files {
    // How often reading failed: a count that never falls, and stands still at its last value.
    ghost faults: { Self → ℕ };

    // The contents by name, where the object tells them.
    ghost told: { Self → Option FileMap };

    // The names that were asked for but those for which an allocation was refused, the newest
    // first, where the object tells them.
    ghost asked: { Self → Option (List (List ℕ)) };

    /// The contents of the file of this name, or the first `FILE_MOST` octets of them.
    fn read(&mut self, alloc: Global, name: &Name) -> Result<Octets, FileFault>
        ensures count { faults self.old ≤ faults self.new }
        ensures kept { told self.new ≡ told self.old }

        // What is handed up
        ensures contents { IfOk result (λ octets. IfSome (told self.old)
            (λ files. files name.now ≡ Some octets)) }
        ensures bounded { IfOk result (λ octets. length octets ≤ file_most) }
        ensures told_bounded { IfSome (told self.old)
            (λ files. IfSome (files name.now) (λ octets. length octets ≤ file_most)) }
        ensures ok { OnOk result (faults self.new ≡ faults self.old) }
        ensures ok_asked { OnOk result (asked self.new ≡ logged name.now (asked self.old)) }

        // Reading failed
        ensures failed { IsErrOf result FileFault.Failed →
            FaultsRose (faults self.old) (faults self.new) }
        ensures failed_asked { IsErrOf result FileFault.Failed →
            asked self.new ≡ logged name.now (asked self.old) }

        // There is no such file
        ensures missing { IsErrOf result FileFault.Missing → Lacks (told self.old) name.now }
        ensures missing_count { IsErrOf result FileFault.Missing →
            faults self.new ≡ faults self.old }
        ensures missing_asked { IsErrOf result FileFault.Missing →
            asked self.new ≡ logged name.now (asked self.old) }

        // An allocation was refused
        ensures no_memory { IsErrOf result FileFault.NoMemory → faults self.new ≡ faults self.old }
        ensures no_memory_asked { IsErrOf result FileFault.NoMemory →
            asked self.new ≡ asked self.old };
}
