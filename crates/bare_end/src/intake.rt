//! Octets that came and weren't taken yet.

ghost use Rattle.std.specs.Prelude.{◌≡◌, ◌≤◌, ◌++◌, List, [], length, drop, OnOk, OnErr};
ghost use Rattle.bare_end.specs.First.{IsFirst};

use osi_base::{NoMemory, OctetQueue, hold_octets};
use std::alloc::Global;
use std::marker::Model;
use stream_front::{FirstValue, Scanner};

/// Octets that came and weren't taken yet, with a scanner that looks at each of them once, however
/// they are cut.
#[derive(Drop)]
pub struct Intake {
    octets: OctetQueue,
    scanner: Scanner,
}

impl Model for Intake {
    ghost use Rattle.std.specs.Prelude.{ℕ, List};
    ghost use Rattle.stream_front.specs.Resuming.{HasSeen};

    ghost Value = { List ℕ };

    ghost view = { λ i. i.octets };

    ghost invariant = { λ i. HasSeen i.scanner i.octets };
}

impl Intake {
    /// No octets.
    pub fn new(alloc: Global) -> Intake
        ensures { result ≡ [] }
    {
        Intake {
            octets: OctetQueue::new(alloc),
            scanner: Scanner::new(),
        }
    }

    /// The octets in their order.
    pub fn as_slice(&self) -> &[u8]
        ensures { result.now ≡ self.now }
    {
        self.octets.as_slice()
    }

    /// Puts octets that came behind the others. An `Err` changes nothing.
    pub fn extend(&mut self, bytes: &[u8]) -> Result<(), NoMemory>
        ensures ok { OnOk result (self.new ≡ self.old ++ bytes.now) }
        ensures err { OnErr result (self.new ≡ self.old) }
    {
        self.octets.extend(bytes)
    }

    /// What stands first. It looks at what came since it was asked last.
    pub fn first(&mut self) -> FirstValue
        ensures first { IsFirst self.old result }
        ensures same { self.new ≡ self.old }
    {
        let octets = self.octets.as_slice();
        hold_octets(octets);
        self.scanner.front(octets)
    }

    /// Takes the first octets off.
    pub fn skip(&mut self, count: usize)
        requires { count ≤ length self.old }
        ensures { self.new ≡ drop count self.old }
    {
        self.octets.skip(count);
        self.scanner = Scanner::new();
    }

    /// Drops all octets.
    pub fn clear(&mut self)
        ensures { self.new ≡ [] }
    {
        self.octets.clear();
        self.scanner = Scanner::new();
    }
}
