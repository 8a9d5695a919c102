//! Why an alteration isn't asked for, and why one that comes isn't taken.

ghost use Rattle.std.specs.Prelude.{◌≡◌};
ghost use Rattle.context_sets.specs.declared.fault.SetRefusal.TheVariants.{NoMemory as no_room};
ghost use Rattle.context_sets.specs.declared.fault.SetFault.TheVariants.{NoMemory as no_memory};

use osi_base::{NoMemory, WordWithNumber};
use std::alloc::{AllocError, AllocFailed};
use std::error::Error;
use std::fmt;

/// Why an end doesn't ask for an alteration. The first that holds, in this order, decides; of the
/// additions and then of the deletions each is tried in turn, and `SetFull` comes after them.
#[derive(Clone, Copy, Debug, PartialEq, Eq)]
pub enum SetRefusal {
    /// Four own alterations aren't answered yet.
    AlterPending,
    /// Nothing is asked, an identifier stands twice or is outside 1 to 32,767, or an addition
    /// offers no or more than 8 transfer syntaxes.
    BadProposal,
    /// The identifier of an addition has the other end's parity.
    WrongParity(u32),
    /// An own alteration that isn't answered names this identifier.
    Named(u32),
    /// The identifier of an addition is in the set.
    Present(u32),
    /// The identifier of a deletion isn't in the set.
    Absent(u32),
    /// The context of a deletion is one of ACSE or RTSE.
    Fixed(u32),
    /// The context of a deletion is in use.
    InUse(u32),
    /// The set, the own additions that wait and these would be more than 64.
    SetFull,
    /// An allocation was refused.
    NoMemory,
}

impl fmt::Display for SetRefusal {
    ghost use Rattle.std.specs.Prelude.{Some};
    ghost use Rattle.context_sets.specs.Printed.{set_refusal_text};

    ghost output = { λ refusal. Some (set_refusal_text refusal) };

    fn fmt<W: fmt::Write>(&self, f: &mut fmt::Formatter<W>) -> fmt::Result {
        let word = self.word();
        let number = self.number();
        fmt::Display::fmt(&WordWithNumber { word, number }, f)
    }
}

impl Error for SetRefusal {}

impl SetRefusal {
    ghost use Rattle.std.specs.Prelude.{◌≡◌};
    ghost use Rattle.context_sets.specs.Printed.{set_refusal_word, set_refusal_number};

    /// Its name, as a transcript tells it.
    pub fn word(self) -> &'static str
        ensures { result.now ≡ set_refusal_word self }
    {
        match self {
            SetRefusal::AlterPending => "AlterPending",
            SetRefusal::BadProposal => "BadProposal",
            SetRefusal::WrongParity(_) => "WrongParity",
            SetRefusal::Named(_) => "Named",
            SetRefusal::Present(_) => "Present",
            SetRefusal::Absent(_) => "Absent",
            SetRefusal::Fixed(_) => "Fixed",
            SetRefusal::InUse(_) => "InUse",
            SetRefusal::SetFull => "SetFull",
            SetRefusal::NoMemory => "NoMemory",
        }
    }

    /// The number that it carries, where a transcript tells one.
    pub fn number(self) -> Option<i64>
        ensures { result ≡ set_refusal_number self }
    {
        match self {
            SetRefusal::WrongParity(number) => Some(i64::from(number)),
            SetRefusal::Named(number) => Some(i64::from(number)),
            SetRefusal::Present(number) => Some(i64::from(number)),
            SetRefusal::Absent(number) => Some(i64::from(number)),
            SetRefusal::Fixed(number) => Some(i64::from(number)),
            SetRefusal::InUse(number) => Some(i64::from(number)),
            _ => None,
        }
    }
}

impl From<NoMemory> for SetRefusal {
    ghost from_gives = { λ _ refusal. refusal ≡ no_room };

    fn from(_error: NoMemory) -> SetRefusal {
        SetRefusal::NoMemory
    }
}

impl From<AllocError> for SetRefusal {
    ghost from_gives = { λ _ refusal. refusal ≡ no_room };

    fn from(_error: AllocError) -> SetRefusal {
        SetRefusal::NoMemory
    }
}

impl<T: Drop> From<AllocFailed<T>> for SetRefusal {
    ghost from_gives = { λ _ refusal. refusal ≡ no_room };

    fn from(_error: AllocFailed<T>) -> SetRefusal {
        SetRefusal::NoMemory
    }
}

/// What is wrong with an alteration of the other end, or with its answers to an own one.
#[derive(Clone, Copy, Debug, PartialEq, Eq)]
pub enum SetFault {
    /// The identifier of an addition is in the set, or came before in the list.
    PeerPresent(u32),
    /// The identifier of an addition hasn't the parity of the end that asks.
    PeerParity(u32),
    /// There are more or fewer results than were asked for, or the transfer syntax of an accepted
    /// addition isn't there, wasn't offered or isn't known. The numbers are those of the deletions
    /// where of the counts only these differ, else those of the additions.
    Mismatch { sent: u32, answered: u32 },
    /// An allocation was refused.
    NoMemory,
}

impl fmt::Display for SetFault {
    ghost use Rattle.std.specs.Prelude.{Some};
    ghost use Rattle.context_sets.specs.Printed.{set_fault_text};

    ghost output = { λ fault. Some (set_fault_text fault) };

    fn fmt<W: fmt::Write>(&self, f: &mut fmt::Formatter<W>) -> fmt::Result {
        match self {
            SetFault::PeerPresent(id) => fmt::Display::fmt(
                &WordWithNumber {
                    word: "already there: context",
                    number: Some(i64::from(*id)),
                },
                f,
            ),
            SetFault::PeerParity(id) => fmt::Display::fmt(
                &WordWithNumber {
                    word: "wrong parity: context",
                    number: Some(i64::from(*id)),
                },
                f,
            ),
            SetFault::Mismatch { sent, answered } => write!(
                f,
                "{answered} results do not answer {sent}"
            ),
            SetFault::NoMemory => f.write_str("out of memory"),
        }
    }
}

impl Error for SetFault {}

impl From<NoMemory> for SetFault {
    ghost from_gives = { λ _ fault. fault ≡ no_memory };

    fn from(_error: NoMemory) -> SetFault {
        SetFault::NoMemory
    }
}

impl From<AllocError> for SetFault {
    ghost from_gives = { λ _ fault. fault ≡ no_memory };

    fn from(_error: AllocError) -> SetFault {
        SetFault::NoMemory
    }
}
