//! Why the program stops.

use asn1_types::RowRefusal;
use ber_codec::ReadFault;
use context_restore::SaveRefusal;
use context_sets::SetFault;
use osi_base::NoMemory;
use packed_codec::PackedFault;
use rtse::RtseFault;
use std::alloc::{AllocError, AllocFailed};
use std::io;

/// No bench was named, the words weren't told, memory was refused, the output failed, or a layer
/// refused what it was handed.
#[derive(Clone, Copy, Debug)]
pub struct Stopped;

impl From<NoMemory> for Stopped {
    fn from(_error: NoMemory) -> Stopped {
        Stopped
    }
}

impl From<RowRefusal> for Stopped {
    fn from(_refusal: RowRefusal) -> Stopped {
        Stopped
    }
}

impl From<ReadFault> for Stopped {
    fn from(_fault: ReadFault) -> Stopped {
        Stopped
    }
}

impl From<PackedFault> for Stopped {
    fn from(_fault: PackedFault) -> Stopped {
        Stopped
    }
}

impl From<RtseFault> for Stopped {
    fn from(_fault: RtseFault) -> Stopped {
        Stopped
    }
}

impl From<SetFault> for Stopped {
    fn from(_fault: SetFault) -> Stopped {
        Stopped
    }
}

impl From<SaveRefusal> for Stopped {
    fn from(_refusal: SaveRefusal) -> Stopped {
        Stopped
    }
}

impl From<io::Error> for Stopped {
    fn from(_error: io::Error) -> Stopped {
        Stopped
    }
}

impl<T: Drop> From<AllocFailed<T>> for Stopped {
    fn from(_error: AllocFailed<T>) -> Stopped {
        Stopped
    }
}

impl From<AllocError> for Stopped {
    fn from(_error: AllocError) -> Stopped {
        Stopped
    }
}
