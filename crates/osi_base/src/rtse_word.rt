//! The APDUs of reliable transfer (X.228 9), with the fields that are read or written.

ghost use Rattle.std.specs.Prelude.{◌≡◌, IfOk};

use crate::copied::Copied;
use crate::fault::NoMemory;
use crate::octets::Octets;
use std::alloc::Global;

/// What an opening carries for its user, or the association that it recovers (X.228 9).
#[derive(Debug, Drop)]
pub enum ConnectionData {
    /// `[0]`: one whole BER value of any type.
    Open(Octets),
    /// `[1]`: the reference and the common reference of the association.
    Recover {
        /// The reference of the association.
        reference: Octets,
        /// Its common reference.
        common: Octets,
    },
}

/// One APDU of reliable transfer. A field that lacks has its default.
#[derive(Debug, Drop)]
pub enum Rtse {
    /// RTORQ.
    OpenRequest {
        /// Checkpoint size, `[0]`, 0 to 255 units of 1,024 octets; 0, no checkpoints, where it
        /// lacks.
        checkpoint: u32,
        /// Window size, `[1]`, 0 to 255: how many checkpoints may be unconfirmed; 3 where it lacks.
        window: u32,
        /// Dialogue mode, `[2]`: 0 one way, 1 two ways in turn; 0 where it lacks.
        mode: i64,
        /// Connection data, `[3]`.
        data: ConnectionData,
    },
    /// RTOAC.
    OpenAccept {
        /// Checkpoint size, `[0]`, 0 to 255 units of 1,024 octets; 0, no checkpoints, where it
        /// lacks.
        checkpoint: u32,
        /// Window size, `[1]`, 0 to 255: how many checkpoints may be unconfirmed; 3 where it lacks.
        window: u32,
        /// Connection data, `[2]`.
        data: ConnectionData,
    },
    /// RTORJ.
    OpenReject {
        /// Reason, `[0]`: 0 busy, 1 can't recover, 2 not validated, 3 the dialogue mode.
        reason: i64,
    },
    /// RTAB.
    Abort {
        /// Reason, `[0]`: 0 a local problem, 1 a field that is wrong, 2 an unknown activity, 3 a
        /// problem for a while, 4 a fault of the protocol, 5 a lasting problem, 6 a fault of the
        /// user, 7 the transfer is complete.
        reason: i64,
    },
    /// RTTP.
    TurnPlease {
        /// The priority with which the turn is asked for; 0 is the highest.
        priority: u32,
    },
    /// RTTR.
    Transfer {
        /// The octets of a part of a transfer.
        octets: Octets,
    },
}

impl Copied for ConnectionData {
    fn copy(&self, alloc: Global) -> Result<ConnectionData, NoMemory> {
        match self {
            ConnectionData::Open(value) => Ok(ConnectionData::Open(value.copy(alloc)?)),
            ConnectionData::Recover { reference, common } => Ok(ConnectionData::Recover {
                reference: reference.copy(alloc)?,
                common: common.copy(alloc)?,
            }),
        }
    }
}

impl Copied for Rtse {
    fn copy(&self, alloc: Global) -> Result<Rtse, NoMemory> {
        match self {
            Rtse::OpenRequest {
                checkpoint,
                window,
                mode,
                data,
            } => Ok(Rtse::OpenRequest {
                checkpoint: *checkpoint,
                window: *window,
                mode: *mode,
                data: data.copy(alloc)?,
            }),
            Rtse::OpenAccept {
                checkpoint,
                window,
                data,
            } => Ok(Rtse::OpenAccept {
                checkpoint: *checkpoint,
                window: *window,
                data: data.copy(alloc)?,
            }),
            Rtse::OpenReject { reason } => Ok(Rtse::OpenReject { reason: *reason }),
            Rtse::Abort { reason } => Ok(Rtse::Abort { reason: *reason }),
            Rtse::TurnPlease { priority } => Ok(Rtse::TurnPlease {
                priority: *priority,
            }),
            Rtse::Transfer { octets } => Ok(Rtse::Transfer {
                octets: octets.copy(alloc)?,
            }),
        }
    }
}
