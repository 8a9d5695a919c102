//! The heads of APDUs.

use osi_base::{Octets, Problem};
use stub_tables::Code;

/// The four kinds of APDUs (X.880 clause 9).
#[derive(Clone, Copy, Debug, PartialEq, Eq)]
pub enum ApduKind {
    /// An invocation.
    Invoke,
    /// The result of an invocation.
    Result,
    /// The error of an invocation.
    Error,
    /// A reject.
    Reject,
}

/// An APDU as far as it is read without the tables of a module: all but the value that its
/// operation or error carries.
#[derive(Debug, Drop)]
pub struct ApduHead {
    /// Which of the four APDUs it is.
    pub kind: ApduKind,
    /// The identifier of the invocation; `None` only in a reject of what had none that could be
    /// read.
    pub id: Option<i64>,
    /// The identifier to which an invocation is linked.
    pub linked: Option<i64>,
    /// The code of the operation or of the error.
    pub code: Option<Code>,
    /// The problem that a reject tells.
    pub problem: Option<Problem>,
    /// The octets of the argument, the result or the parameter, unread; `None` where it is absent.
    pub rest: Option<Octets>,
    /// How many octets its value may have: 262,144 in BER and DER, where the octets of the APDU
    /// bound it too; in the packed syntax that number less the octets of the head, which stand
    /// before the value.
    pub room: u32,
}
