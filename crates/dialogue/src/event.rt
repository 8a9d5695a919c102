//! The events of a schedule, and the transcript of a run.

use crate::call::{Call, CallRefusal};
use crate::config::{Mode, Phase};
use crate::indication::Indications;
use osi_base::{ListOf, Octets, Side};

/// An event of a schedule.
#[derive(Debug, Drop)]
pub enum Event {
    /// A call at one side.
    Call {
        /// The end that is called.
        side: Side,
        /// What it is asked.
        call: Call,
    },
    /// At most so many octets that wait at that side, or all, go to the other side.
    Carry {
        /// The end that gives octets out.
        side: Side,
        /// How many octets at most; all where it is absent.
        most: Option<u32>,
    },
    /// The connection breaks.
    Break,
}

/// Events in their order.
pub type Events = ListOf<Event>;

/// What a carry did: the octets that it moved, and what the other side indicated.
#[derive(Debug, Drop)]
pub struct Carried {
    /// The octets that were moved.
    pub octets: Octets,
    /// What the other side indicated, in order.
    pub shown: Indications,
}

/// An event with what came of it.
#[derive(Debug, Drop)]
pub enum Entry {
    /// A call at one side, with the end's answer.
    Call {
        /// The end that was called.
        side: Side,
        /// What it was asked.
        call: Call,
        /// What it answered: the identifier of an invocation, nothing, or why it refused.
        answer: Result<Option<i64>, CallRefusal>,
    },
    /// A carry from one side to the other, with what it did.
    Carry {
        /// The end that gave octets out.
        side: Side,
        /// How many octets at most; all where it is absent.
        most: Option<u32>,
        /// The octets, and what the other end told of them.
        carried: Carried,
    },
    /// The connection broke.
    Break,
}

/// Entries in their order.
pub type Entries = ListOf<Entry>;

/// The transcript of a run: each event with what came of it, and both phases at the end.
#[derive(Debug, Drop)]
pub struct Transcript {
    /// The mode in which the ends ran.
    pub mode: Mode,
    /// Each event with what came of it, in order.
    pub entries: Entries,
    /// The phase of end A behind the last event.
    pub a: Phase,
    /// The phase of end B behind the last event.
    pub b: Phase,
}
