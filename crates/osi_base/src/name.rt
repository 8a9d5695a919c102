//! Names: texts in UTF-8.

ghost use Rattle.std.specs.Prelude.{◌≡◌, ◌↔◌, IsTrue, IsSome, IfSome, IfOk, string_bytes};

use crate::copied::Copied;
use crate::fault::NoMemory;
use crate::list::ListOf;
use std::alloc::Global;
use std::marker::Model;

/// A name: a list of octets in UTF-8.
#[derive(Debug, Drop)]
pub struct Name {
    text: String,
}

impl Model for Name {
    ghost use Rattle.std.specs.Prelude.{ℕ, List, string_bytes};

    ghost Value = { List ℕ };

    ghost view = { λ name. string_bytes name.text };
}

impl Name {
    /// A name with this text.
    pub fn from_str(alloc: Global, text: &str) -> Result<Name, NoMemory>
        ensures { IfOk result (λ name. name ≡ text.now) }
    {
        Ok(Name {
            text: String::from_str(alloc, text)?,
        })
    }

    /// The name as a text.
    pub fn as_str(&self) -> &str
        ensures { result.now ≡ self.now }
    {
        self.text.as_str()
    }

    /// The name's octets.
    pub fn as_bytes(&self) -> &[u8]
        ensures { result.now ≡ self.now }
    {
        self.text.as_bytes()
    }

    /// Whether the two names have the same octets.
    pub fn is(&self, other: &Name) -> bool
        ensures { IsTrue result ↔ (self.now ≡ other.now) }
    {
        self.text.as_bytes() == other.text.as_bytes()
    }
}

impl Copied for Name {
    fn copy(&self, alloc: Global) -> Result<Name, NoMemory> {
        Name::from_str(alloc, self.as_str())
    }
}

/// The words of a command line.
pub type Words = ListOf<Name>;
