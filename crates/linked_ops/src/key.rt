//! The keys of open invocations.

ghost use Rattle.std.specs.Prelude.{◌≡◌};
ghost use Rattle.linked_ops.specs.Printed.{open_word, closed_word};
ghost use Rattle.linked_ops.specs.declared.key.ForestRefusal.TheVariants.{NoMemory as no_room};

use osi_base::{NoMemory, WordWithNumber};
use std::alloc::{AllocError, AllocFailed};
use std::error::Error;
use std::fmt;

/// An open invocation: from this end or from the peer, with its identifier.
#[derive(Clone, Copy, Debug)]
pub struct Key {
    /// Whether the invocation is from this end; else it is from the peer.
    pub own: bool,
    /// The identifier of the invocation.
    pub id: i64,
}

impl Key {
    ghost use Rattle.linked_ops.specs.Keys.{same_key};

    /// Whether the two are one key.
    pub fn is(&self, other: &Key) -> bool
        ensures { result ≡ same_key self.now other.now }
    {
        self.own == other.own && self.id == other.id
    }
}

/// Why an invocation isn't opened.
#[derive(Clone, Copy, Debug)]
pub enum ForestRefusal {
    /// The key is open.
    Present(Key),
    /// The key that it is to be linked to isn't.
    ParentAbsent(Key),
    /// An allocation was refused.
    NoMemory,
}

fn open_word(own: bool) -> &'static str
    ensures { result.now ≡ open_word own }
{
    if own {
        "open already: own invocation"
    } else {
        "open already: invocation of the peer"
    }
}

fn closed_word(own: bool) -> &'static str
    ensures { result.now ≡ closed_word own }
{
    if own {
        "not open: own invocation"
    } else {
        "not open: invocation of the peer"
    }
}

impl fmt::Display for ForestRefusal {
    ghost use Rattle.std.specs.Prelude.{Some};
    ghost use Rattle.linked_ops.specs.Printed.{forest_refusal_text};

    ghost output = { λ refusal. Some (forest_refusal_text refusal) };

    fn fmt<W: fmt::Write>(&self, f: &mut fmt::Formatter<W>) -> fmt::Result {
        match self {
            ForestRefusal::Present(key) => fmt::Display::fmt(
                &WordWithNumber {
                    word: open_word(key.own),
                    number: Some(key.id),
                },
                f,
            ),
            ForestRefusal::ParentAbsent(key) => fmt::Display::fmt(
                &WordWithNumber {
                    word: closed_word(key.own),
                    number: Some(key.id),
                },
                f,
            ),
            ForestRefusal::NoMemory => f.write_str("out of memory"),
        }
    }
}

impl Error for ForestRefusal {}

impl From<AllocError> for ForestRefusal {
    ghost from_gives = { λ _ e. e ≡ no_room };

    fn from(_error: AllocError) -> ForestRefusal {
        ForestRefusal::NoMemory
    }
}

impl<T: Drop> From<AllocFailed<T>> for ForestRefusal {
    ghost from_gives = { λ _ e. e ≡ no_room };

    fn from(_error: AllocFailed<T>) -> ForestRefusal {
        ForestRefusal::NoMemory
    }
}

impl From<NoMemory> for ForestRefusal {
    ghost from_gives = { λ _ e. e ≡ no_room };

    fn from(_error: NoMemory) -> ForestRefusal {
        ForestRefusal::NoMemory
    }
}
