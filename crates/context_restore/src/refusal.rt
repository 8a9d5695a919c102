//! Why a set isn't saved or restored.

ghost use Rattle.std.specs.Prelude.{◌≡◌};
ghost use Rattle.context_restore.specs.declared.refusal.SaveRefusal.TheVariants.{NoMemory as no_room};

use osi_base::{NoMemory, WordWithNumber};
use std::alloc::{AllocError, AllocFailed};
use std::error::Error;
use std::fmt;

/// Why a set isn't saved or restored. The first that holds, in this order, decides. It prints by
/// the name of the variant, with its number.
#[derive(Clone, Copy, Debug, PartialEq, Eq)]
pub enum SaveRefusal {
    /// The number isn't one that may be named: for a restart one from 1 to the next number, for a
    /// resumption 0 or a mark that is kept.
    NoSuchMark(u32),
    /// 65,536 marks are kept.
    MarksFull,
    /// No activity is in progress.
    NoActivity,
    /// An allocation was refused.
    NoMemory,
}

impl fmt::Display for SaveRefusal {
    ghost use Rattle.std.specs.Prelude.{Some};
    ghost use Rattle.context_restore.specs.Printed.{save_refusal_text};

    ghost output = { λ refusal. Some (save_refusal_text refusal) };

    fn fmt<W: fmt::Write>(&self, f: &mut fmt::Formatter<W>) -> fmt::Result {
        match self {
            SaveRefusal::NoSuchMark(number) => fmt::Display::fmt(
                &WordWithNumber {
                    word: "NoSuchMark",
                    number: Some(i64::from(*number)),
                },
                f,
            ),
            SaveRefusal::MarksFull => f.write_str("MarksFull"),
            SaveRefusal::NoActivity => f.write_str("NoActivity"),
            SaveRefusal::NoMemory => f.write_str("NoMemory"),
        }
    }
}

impl Error for SaveRefusal {}

impl From<NoMemory> for SaveRefusal {
    ghost from_gives = { λ _ refusal. refusal ≡ no_room };

    fn from(_error: NoMemory) -> SaveRefusal {
        SaveRefusal::NoMemory
    }
}

impl From<AllocError> for SaveRefusal {
    ghost from_gives = { λ _ refusal. refusal ≡ no_room };

    fn from(_error: AllocError) -> SaveRefusal {
        SaveRefusal::NoMemory
    }
}

impl<T: Drop> From<AllocFailed<T>> for SaveRefusal {
    ghost from_gives = { λ _ refusal. refusal ≡ no_room };

    fn from(_error: AllocFailed<T>) -> SaveRefusal {
        SaveRefusal::NoMemory
    }
}
