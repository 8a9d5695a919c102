//! The APDUs of association control (X.227 9), with the fields that are read or written.

ghost use Rattle.std.specs.Prelude.{◌≡◌, IfOk};

use crate::bit_string::BitString;
use crate::copied::Copied;
use crate::fault::NoMemory;
use crate::list::ListOf;
use crate::octets::Octets;
use crate::oid::Oid;
use std::alloc::Global;

/// A value of another abstract syntax inside an APDU of association control (EXTERNAL,
/// X.690 8.18), as user information is.
#[derive(Debug, Drop)]
pub struct External {
    /// The identifier of the value's presentation context, 1 to 32,767 (indirect reference).
    pub id: u32,
    /// The value: one whole BER value of any type.
    pub value: Octets,
}

/// Values of other abstract syntaxes, in their order.
pub type Externals = ListOf<External>;

/// Where the result of an association request comes from, and why it is so (X.227 9).
#[derive(Clone, Copy, Debug, PartialEq, Eq)]
pub enum Diagnostic {
    /// From the user of association control, `[1]`: 0 none, 1 no reason given; others as X.227
    /// numbers them.
    User(i64),
    /// From association control itself, `[2]`: 0 none, 1 no reason given, 2 no common version.
    Provider(i64),
}

/// One APDU of association control. User information, `[30]`, that isn't there has no items.
#[derive(Debug, Drop)]
pub enum Acse {
    /// AARQ.
    AssociateRequest {
        /// Protocol version, `[0]`: bit 0 stands for version 1.
        version: Option<BitString>,
        /// Application context name, `[1]`.
        context: Oid,
        /// User information.
        user: Externals,
    },
    /// AARE.
    AssociateResponse {
        /// Application context name, `[1]`.
        context: Oid,
        /// Result, `[2]`: 0 accepted, 1 rejected for good, 2 rejected for now.
        result: u8,
        /// Diagnostic, `[3]`.
        diagnostic: Diagnostic,
        /// User information.
        user: Externals,
    },
    /// RLRQ.
    ReleaseRequest {
        /// Reason, `[0]`: 0 normal, 1 urgent, 30 one of the user's own; 0 where it lacks.
        reason: i64,
    },
    /// RLRE.
    ReleaseResponse {
        /// Reason, `[0]`: 0 normal, 1 not finished, 30 one of the user's own; 0 where it lacks.
        reason: i64,
    },
    /// ABRT.
    Abort {
        /// Source, `[0]`: 0 the user, 1 the provider.
        source: u8,
        /// User information.
        user: Externals,
    },
}

impl Copied for External {
    fn copy(&self, alloc: Global) -> Result<External, NoMemory> {
        Ok(External {
            id: self.id,
            value: self.value.copy(alloc)?,
        })
    }
}

impl Copied for Acse {
    fn copy(&self, alloc: Global) -> Result<Acse, NoMemory> {
        match self {
            Acse::AssociateRequest {
                version,
                context,
                user,
            } => Ok(Acse::AssociateRequest {
                version: version.copy(alloc)?,
                context: context.copy(alloc)?,
                user: user.copy(alloc)?,
            }),
            Acse::AssociateResponse {
                context,
                result,
                diagnostic,
                user,
            } => Ok(Acse::AssociateResponse {
                context: context.copy(alloc)?,
                result: *result,
                diagnostic: *diagnostic,
                user: user.copy(alloc)?,
            }),
            Acse::ReleaseRequest { reason } => Ok(Acse::ReleaseRequest { reason: *reason }),
            Acse::ReleaseResponse { reason } => Ok(Acse::ReleaseResponse { reason: *reason }),
            Acse::Abort { source, user } => Ok(Acse::Abort {
                source: *source,
                user: user.copy(alloc)?,
            }),
        }
    }
}
