//! Why octets are no head of an APDU.

ghost use Rattle.std.specs.Prelude.{◌≡◌};
ghost use Rattle.apdu_codec.specs.declared.fault.HeadFault.TheVariants.{NoMemory as no_room};

use osi_base::{NoMemory, WordWithNumber};
use std::error::Error;
use std::fmt;

/// Why octets are no head of an APDU, as the general problem that a reject tells of it (X.880
/// 9.4.2): 0 it is no APDU, 1 a field of it is wrong, 2 its lengths or its form are.
#[derive(Clone, Copy, Debug, PartialEq, Eq)]
pub enum HeadFault {
    /// The octets are no head, with this general problem.
    General(u8),
    /// A faulty reject, which is never rejected.
    BadReject,
    /// Memory was refused.
    NoMemory,
}

impl fmt::Display for HeadFault {
    ghost use Rattle.std.specs.Prelude.{Some};
    ghost use Rattle.apdu_codec.specs.Printed.{head_fault_text};

    ghost output = { λ fault. Some (head_fault_text fault) };

    fn fmt<W: fmt::Write>(&self, f: &mut fmt::Formatter<W>) -> fmt::Result {
        match self {
            HeadFault::General(problem) => fmt::Display::fmt(
                &WordWithNumber {
                    word: "general",
                    number: Some(i64::from(*problem)),
                },
                f,
            ),
            HeadFault::BadReject => f.write_str("bad reject"),
            HeadFault::NoMemory => f.write_str("out of memory"),
        }
    }
}

impl Error for HeadFault {}

impl From<NoMemory> for HeadFault {
    ghost from_gives = { λ _ e. e ≡ no_room };

    fn from(_error: NoMemory) -> HeadFault {
        HeadFault::NoMemory
    }
}
