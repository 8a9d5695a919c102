//! The association and its connection.

ghost use Rattle.std.specs.Prelude.{◌≡◌};
ghost use Rattle.association_sets.specs.end_rules.State.{is_free, is_unused, is_asked, is_joined, is_carrying, is_restarting};
ghost use Rattle.association_pieces.specs.Link.{seen_stage, seen_awaited};

use dialogue::Phase;
use osi_base::{Octets, SetList};

/// How far the transport connection is (X.224 6.5).
#[derive(Clone, Copy, Debug, PartialEq, Eq)]
pub enum Stage {
    /// Nothing went over it.
    Unused,
    /// CR was sent or taken.
    Asked,
    /// CC was sent or taken.
    Joined,
    /// CN was sent or taken.
    Carrying,
}

/// The own request that isn't answered yet: until it is, the end sends no other request but an
/// abort. In reliable mode APDUs still join the queue (X.225 7.24, 7.31, 7.33).
#[derive(Clone, Copy, Debug, PartialEq, Eq)]
pub enum Awaited {
    /// No own request waits for its answer.
    NoAnswer,
    /// RS with this number.
    RestartOf(u32),
    /// AI.
    InterruptOf,
    /// AD.
    DiscardOf,
    /// FN.
    ReleaseOf,
}

/// The association and its connection.
#[derive(Debug, Drop)]
pub struct Link {
    /// The phase of the association.
    pub phase: Phase,
    /// How far the transport connection is.
    pub stage: Stage,
    /// The functional units selected: the session requirements that both ends have (X.225 8.3.1).
    pub selected: u16,
    /// Whether context management and restoration are selected (X.226 6.3).
    pub manages: bool,
    /// Whether this end has the turn: the minor token in direct mode, all tokens in reliable mode.
    pub turn: bool,
    /// Whether this end gave all tokens, which isn't confirmed yet.
    pub gave: bool,
    /// The own request that isn't answered yet.
    pub awaits: Awaited,
    /// The contexts that were accepted on this connection.
    pub accepted: SetList,
    /// The calling reference of the CN that opened the association (X.225 8.3.1), at its responder;
    /// `None` where the CN had none, and at an initiator.
    pub reference: Option<Octets>,
    /// The common reference of that CN, at its responder; `None` where the CN had none, and at an
    /// initiator.
    pub common: Option<Octets>,
    /// The checkpoint size agreed for transfers, in units of 1,024 octets; 0 is without checkpoints
    /// (X.228 8.1).
    pub checkpoint: u32,
    /// The window size agreed for transfers: how many marks may be unconfirmed.
    pub window: u32,
}

impl Awaited {
    /// Whether nothing is awaited.
    pub fn is_free(self) -> bool
        ensures { result ≡ is_free (seen_awaited self) }
    {
        match self {
            Awaited::NoAnswer => true,
            _ => false,
        }
    }

    /// Whether the answer to an own restart is awaited.
    pub fn is_restarting(self) -> bool
        ensures { result ≡ is_restarting (seen_awaited self) }
    {
        match self {
            Awaited::RestartOf(_) => true,
            _ => false,
        }
    }
}

impl Stage {
    /// Whether nothing went over the connection.
    pub fn is_unused(self) -> bool
        ensures { result ≡ is_unused (seen_stage self) }
    {
        match self {
            Stage::Unused => true,
            _ => false,
        }
    }

    /// Whether CR went over it, and nothing else.
    pub fn is_asked(self) -> bool
        ensures { result ≡ is_asked (seen_stage self) }
    {
        match self {
            Stage::Asked => true,
            _ => false,
        }
    }

    /// Whether CC went over it, and nothing behind it.
    pub fn is_joined(self) -> bool
        ensures { result ≡ is_joined (seen_stage self) }
    {
        match self {
            Stage::Joined => true,
            _ => false,
        }
    }

    /// Whether CN went over it.
    pub fn is_carrying(self) -> bool
        ensures { result ≡ is_carrying (seen_stage self) }
    {
        match self {
            Stage::Carrying => true,
            _ => false,
        }
    }
}
