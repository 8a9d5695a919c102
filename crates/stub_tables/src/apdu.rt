//! The APDUs of remote operations (X.882 clause 9).

use crate::operation::Code;
use asn1_types::Val;
use osi_base::Problem;

/// What a result returns: the operation's code, and the value.
#[derive(Debug, Drop)]
pub struct Returned {
    /// The operation's code.
    pub code: Code,
    /// The value of the result.
    pub value: Val,
}

/// An APDU of remote operations (X.880 clause 9).
#[derive(Debug, Drop)]
pub enum Apdu {
    /// ROIV: an invocation, with the invocation that it is linked to.
    Invoke {
        /// The identifier of the invocation.
        id: i64,
        /// The identifier of the invocation that it is linked to, if it is.
        linked: Option<i64>,
        /// The operation's code.
        code: Code,
        /// The argument, where there is one.
        argument: Option<Val>,
    },
    /// RORS: the result of an invocation.
    Result {
        /// The identifier of the invocation.
        id: i64,
        /// The operation's code and the value, where there is one.
        returned: Option<Returned>,
    },
    /// ROER: the error of an invocation.
    Error {
        /// The identifier of the invocation.
        id: i64,
        /// The error's code.
        code: Code,
        /// The error's parameter, where there is one.
        parameter: Option<Val>,
    },
    /// RORJ: a reject, with the invocation that it is of, where it is told.
    Reject {
        /// The identifier of the invocation, where it is told.
        id: Option<i64>,
        /// The problem.
        problem: Problem,
    },
}
