//! What becomes of an APDU that was taken.

ghost use Rattle.std.specs.Prelude.{◌≡◌, ℕ, Some, None};
ghost use Rattle.end_wire.specs.end_rules.Hearing.{problem_with, is_of_invocation};
ghost use Rattle.osi_base.specs.declared.layer_words.ProblemKind.TheVariants as kinds;
ghost use Rattle.rose_roles.specs.declared.apdu_taken.RoseTaken.TheVariants as takens;
ghost use Rattle.rose_roles.specs.Hearing.{refused_as, result_taken, error_taken};

use crate::apdu_problems::ValueOrProblem;
use asn1_types::Val;
use end_wire::apdu_codec_layer::HeadFault;
use osi_base::{NoMemory, Problem, ProblemKind};

/// What becomes of an APDU that was taken (X.880 9): what the user is told, or the reject that is
/// to be sent.
#[derive(Debug, Drop)]
pub enum RoseTaken {
    /// The peer invoked an operation, as a place in the table of operations.
    Invoked {
        /// The identifier of the peer's invocation.
        id: i64,
        /// The operation's place in the module's table, counted from 0.
        operation: u32,
        /// The identifier of the own invocation that it is linked to, if it is.
        linked: Option<i64>,
        /// The argument, where there is one.
        argument: Option<Val>,
    },
    /// An own invocation got its result.
    Result {
        /// The identifier of the own invocation.
        id: i64,
        /// The value of the result, where it has one.
        value: Option<Val>,
    },
    /// An own invocation got an error, as a place in the table of errors.
    Error {
        /// The identifier of the own invocation.
        id: i64,
        /// The error's place in the module's table, counted from 0.
        error: u32,
        /// The error's parameter, where there is one.
        parameter: Option<Val>,
    },
    /// An own invocation was rejected.
    Rejected {
        /// The identifier of the own invocation.
        id: i64,
        /// The problem that the peer found.
        problem: Problem,
    },
    /// A reject of anything else.
    RejectTaken {
        /// The identifier that the reject tells, if it tells one.
        id: Option<i64>,
        /// The problem that the peer found.
        problem: Problem,
    },
    /// A reject that can't be read.
    BadReject,
    /// The APDU is rejected.
    Reject {
        /// The identifier of the APDU, if it has one that can be read.
        id: Option<i64>,
        /// The problem that is told.
        problem: Problem,
    },
}

/// A reject with a problem of this kind and number.
pub fn reject_with(id: Option<i64>, kind: ProblemKind, number: u8) -> RoseTaken
    ensures { result ≡ takens.Reject id (problem_with kind number) }
{
    RoseTaken::Reject {
        id,
        problem: Problem {
            kind,
            number: number as i64,
        },
    }
}

/// What becomes of octets that are no head of an APDU: a reject with a general problem (X.880
/// 9.4.2), or a reject that can't be read.
pub fn refused_head(fault: HeadFault) -> Result<RoseTaken, NoMemory>
    ensures { result ≡ refused_as fault }
{
    match fault {
        HeadFault::General(number) => Ok(reject_with(None, ProblemKind::General, number)),
        HeadFault::BadReject => Ok(RoseTaken::BadReject),
        HeadFault::NoMemory => Err(NoMemory),
    }
}

/// Whether the problem is one of an invocation.
pub fn is_of_invocation(kind: ProblemKind) -> bool
    ensures { result ≡ is_of_invocation kind }
{
    match kind {
        ProblemKind::Invoke => true,
        ProblemKind::General | ProblemKind::Result | ProblemKind::Error => false,
    }
}

/// What a result tells, by its value or its problem.
pub(crate) fn result_taken(id: &i64, found: ValueOrProblem) -> RoseTaken
    ensures { result ≡ result_taken id.now found }
{
    match found {
        ValueOrProblem::Right(value) => RoseTaken::Result { id: *id, value },
        ValueOrProblem::Wrong(number) => reject_with(Some(*id), ProblemKind::Result, number),
    }
}

/// What an error, as a place in the table of errors, tells by its parameter or its problem.
pub(crate) fn error_taken(id: &i64, error: Option<u32>, found: ValueOrProblem) -> RoseTaken
    ensures { result ≡ error_taken id.now error found }
{
    match (found, error) {
        (ValueOrProblem::Right(parameter), Some(error)) => RoseTaken::Error {
            id: *id,
            error,
            parameter,
        },
        (ValueOrProblem::Right(_), None) => reject_with(Some(*id), ProblemKind::Error, 2),
        (ValueOrProblem::Wrong(number), _) => reject_with(Some(*id), ProblemKind::Error, number),
    }
}

/// An own invocation that was rejected.
pub(crate) fn own_rejected(id: &i64, problem: Problem) -> RoseTaken
    ensures { result ≡ takens.Rejected id.now problem }
{
    RoseTaken::Rejected { id: *id, problem }
}

/// An invocation that came.
pub(crate) fn invoked(
    id: &i64,
    operation: u32,
    linked: Option<i64>,
    argument: Option<Val>,
) -> RoseTaken
    ensures { result ≡ takens.Invoked id.now operation linked argument }
{
    RoseTaken::Invoked {
        id: *id,
        operation,
        linked,
        argument,
    }
}

/// An invocation that is rejected.
pub(crate) fn invoke_rejected(id: &i64, number: u8) -> RoseTaken
    ensures { result ≡ takens.Reject (Some id.now) (problem_with kinds.Invoke number) }
{
    reject_with(Some(*id), ProblemKind::Invoke, number)
}
