//! What an end tells its user.

use asn1_types::Val;
use osi_base::{Answers, Ids, Layer, ListOf, Problem, RestoredList, SetList};

/// An indication of an end.
#[derive(Debug, Drop)]
pub enum Indication {
    /// The association is open.
    Opened,
    /// The connection that this end asked for was refused.
    AssociationRefused,
    /// The association goes on over a new connection.
    Recovered,
    /// A new opening reached this broken end, so that the old association is given up.
    GivenUp,
    /// The peer invoked an operation.
    Invoked {
        /// The identifier of the peer's invocation.
        id: i64,
        /// The operation's place in the module's table, counted from 0.
        operation: u32,
        /// The identifier of the own invocation that it is linked to, if it is.
        linked: Option<i64>,
        /// The argument, where there is one.
        argument: Option<Val>,
    },
    /// The result of an own invocation came.
    Result {
        /// The identifier of the own invocation.
        id: i64,
        /// The value of the result, where it has one.
        value: Option<Val>,
    },
    /// The error of an own invocation came.
    Error {
        /// The identifier of the own invocation.
        id: i64,
        /// The error's place in the module's table, counted from 0.
        error: u32,
        /// The error's parameter, where there is one.
        parameter: Option<Val>,
    },
    /// The peer rejected an own invocation.
    Rejected {
        /// The identifier of the own invocation.
        id: i64,
        /// The problem that the peer found.
        problem: Problem,
    },
    /// The peer rejected something else than an own invocation.
    RejectTaken {
        /// The identifier that the reject tells, if it tells one.
        id: Option<i64>,
        /// The problem that the peer found.
        problem: Problem,
    },
    /// This end rejected what the peer sent.
    RejectSent {
        /// The identifier of the APDU that is rejected, if it has one that can be read.
        id: Option<i64>,
        /// The problem that this end found.
        problem: Problem,
    },
    /// A reject came that can't be read.
    BadReject,
    /// An open invocation, own or the peer's, ends without an outcome. A break and the end's own
    /// `abort` cut without this.
    Cut {
        /// Whether this end made it.
        own: bool,
        /// The identifier of the invocation.
        id: i64,
    },
    /// The peer's alteration of the context set was taken and answered.
    AlterTaken {
        /// The identifiers of the contexts that the peer proposed.
        add: Ids,
        /// The identifiers of the contexts that the peer asked to delete.
        delete: Ids,
        /// This end's results, one for each addition and each deletion.
        answers: Answers,
    },
    /// The peer answered an own alteration of the context set.
    Altered {
        /// The identifiers of the contexts that this end proposed.
        add: Ids,
        /// The identifiers of the contexts that this end asked to delete.
        delete: Ids,
        /// The peer's results, one for each addition and each deletion.
        answers: Answers,
    },
    /// An own alteration won't be answered any more.
    AlterLost,
    /// The peer set the mark of this number, in direct mode.
    Marked {
        /// The mark's number, 1 to 999,999.
        n: u32,
    },
    /// A restart to the mark of this number took effect: the marks from it on are forgotten.
    Restarted {
        /// The mark's number.
        n: u32,
    },
    /// This end has the turn now.
    Turn,
    /// The peer asks for the turn, with this priority.
    Asked {
        /// The priority; 0 is the highest.
        priority: u32,
    },
    /// The own activity of this number was transferred whole.
    Transferred {
        /// The activity's number, 1 to 999,999.
        number: u32,
    },
    /// The activity of this number, own or the peer's, was interrupted.
    Interrupted {
        /// The activity's number, 1 to 999,999.
        number: u32,
    },
    /// The peer resumed the activity of this number at its mark `n`.
    Resumed {
        /// The activity's number, 1 to 999,999.
        number: u32,
        /// The number of the mark from which it goes on; 0 is its beginning.
        n: u32,
    },
    /// The activity of this number, own or the peer's, was discarded.
    Discarded {
        /// The activity's number, 1 to 999,999.
        number: u32,
    },
    /// The association was released in order.
    Released,
    /// The association was aborted, by this end or by the peer.
    Aborted {
        /// Whether this end aborted it.
        own: bool,
        /// The layer whose unit was at fault; the session where the peer aborted it.
        layer: Layer,
        /// The octet of the field at fault, counted from 0: in the stream of packets (transport),
        /// in the TSDU (session, presentation), in the APDU (association control, reliable
        /// transfer), in the octets of a transfer for a fault of the value that it holds, and in
        /// bare mode in the octets that weren't taken; 0 where no one field is at fault.
        place: u64,
        /// The number of the fault: that of the presentation's provider (X.226 8.2), 4 for a fault
        /// of reliable transfer (X.228 9), else 0.
        reason: u8,
    },
    /// The list that came with a restart isn't the one of the set that was kept.
    RestoredListDiffers {
        /// The set that was kept.
        kept: SetList,
        /// The list that came.
        came: RestoredList,
    },
}

/// Indications in their order.
pub type Indications = ListOf<Indication>;
