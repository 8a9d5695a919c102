//! Why a session machine refuses.

use osi_base::{NoMemory, WordWithNumber};
use std::error::Error;
use std::fmt;

/// Why a word may not be sent now. It prints by the name of the variant, with its number.
#[derive(Clone, Copy, Debug, PartialEq, Eq)]
pub enum SessionRefusal {
    /// Its functional unit isn't selected, or there is no such token.
    NotNegotiated,
    /// An own restart, interrupt, discard or release is unanswered.
    Waiting,
    /// The turn is at the peer.
    NoTurn,
    /// The turn is at this end.
    HasTurn,
    /// The own activity of this number is in progress, or for a release is suspended.
    ActivityOpen(u32),
    /// No own activity is in progress.
    NoActivity,
    /// The end of the own activity of this number was sent.
    Ending(u32),
    /// No own activity is suspended.
    NotSuspended,
    /// An allocation was refused.
    NoMemory,
}

impl fmt::Display for SessionRefusal {
    ghost use Rattle.std.specs.Prelude.{Some};
    ghost use Rattle.session_subset.specs.Printed.{session_refusal_text};

    ghost output = { λ refusal. Some (session_refusal_text refusal) };

    fn fmt<W: fmt::Write>(&self, f: &mut fmt::Formatter<W>) -> fmt::Result {
        match self {
            SessionRefusal::NotNegotiated => f.write_str("NotNegotiated"),
            SessionRefusal::Waiting => f.write_str("Waiting"),
            SessionRefusal::NoTurn => f.write_str("NoTurn"),
            SessionRefusal::HasTurn => f.write_str("HasTurn"),
            SessionRefusal::ActivityOpen(number) => fmt::Display::fmt(
                &WordWithNumber {
                    word: "ActivityOpen",
                    number: Some(i64::from(*number)),
                },
                f,
            ),
            SessionRefusal::NoActivity => f.write_str("NoActivity"),
            SessionRefusal::Ending(number) => fmt::Display::fmt(
                &WordWithNumber {
                    word: "Ending",
                    number: Some(i64::from(*number)),
                },
                f,
            ),
            SessionRefusal::NotSuspended => f.write_str("NotSuspended"),
            SessionRefusal::NoMemory => f.write_str("NoMemory"),
        }
    }
}

impl Error for SessionRefusal {}

/// Why a unit can't be taken.
#[derive(Clone, Copy, Debug, PartialEq, Eq)]
pub enum SessionFault {
    /// It may not come now.
    OutOfPlace,
    /// An allocation was refused. To take a unit needs no memory, so no call of this crate gives
    /// it.
    NoMemory,
}

impl fmt::Display for SessionFault {
    ghost use Rattle.std.specs.Prelude.{Some};
    ghost use Rattle.session_subset.specs.Printed.{session_fault_text};

    ghost output = { λ fault. Some (session_fault_text fault) };

    fn fmt<W: fmt::Write>(&self, f: &mut fmt::Formatter<W>) -> fmt::Result {
        f.write_str(match self {
            SessionFault::OutOfPlace => "the unit may not come now",
            SessionFault::NoMemory => "out of memory",
        })
    }
}

impl Error for SessionFault {}

impl From<NoMemory> for SessionRefusal {
    ghost use Rattle.std.specs.Prelude.{◌≡◌};
    ghost use Rattle.session_subset.specs.declared.fault.SessionRefusal.TheVariants as refusals;

    ghost from_gives = { λ _ e. e ≡ refusals.NoMemory };

    fn from(_error: NoMemory) -> SessionRefusal {
        SessionRefusal::NoMemory
    }
}
