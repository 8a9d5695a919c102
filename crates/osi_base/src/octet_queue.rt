//! A queue of octets.

ghost use Rattle.std.specs.Prelude.{◌≡◌, ◌≤◌, ◌<◌, ℕ, min, List, [], ◌∷◌, ◌++◌, length, take, drop, vec_len, OnOk, OnErr};

use crate::fault::NoMemory;
use std::alloc::Global;
use std::marker::Model;

/// A queue of octets: they are put at its end and taken from its front. Each octet is moved a
/// bounded number of times on the average.
#[derive(Debug, Drop)]
pub struct OctetQueue {
    octets: Vec<u8>,
    from: usize,
}

impl Model for OctetQueue {
    ghost use Rattle.std.specs.Prelude.{ℕ, List, drop, vec_len, ◌≤◌};

    ghost Value = { List ℕ };

    ghost view = { λ q. drop q.from q.octets.items };

    ghost invariant = { λ q. q.from ≤ vec_len q.octets };
}

/// Takes the first octets off.
fn without_front(octets: &mut Vec<u8>, count: usize)
    requires { count ≤ vec_len octets.old }
    ensures { octets.new.items ≡ drop count octets.old.items }
{
    octets.drain(..count);
}

impl OctetQueue {
    /// A queue of no octets.
    pub fn new(alloc: Global) -> OctetQueue
        ensures { result ≡ [] }
    {
        OctetQueue {
            octets: Vec::new(alloc),
            from: 0,
        }
    }

    /// How many octets there are.
    pub fn len(&self) -> usize
        ensures { result ≡ length self.now }
    {
        self.octets.len() - self.from
    }

    /// The octets in their order.
    pub fn as_slice(&self) -> &[u8]
        ensures { result.now ≡ self.now }
    {
        &self.octets.as_slice()[self.from..]
    }

    /// Puts these octets at the end. An `Err` changes nothing.
    pub fn extend(&mut self, bytes: &[u8]) -> Result<(), NoMemory>
        ensures ok { OnOk result (self.new ≡ self.old ++ bytes.now) }
        ensures err { OnErr result (self.new ≡ self.old) }
    {
        self.octets.extend_from_slice(bytes)?;
        Ok(())
    }

    /// Takes the first octets off.
    pub fn skip(&mut self, count: usize)
        requires { count ≤ length self.old }
        ensures { self.new ≡ drop count self.old }
    {
        self.from += count;
        if self.from > self.octets.len() / 2 {
            without_front(&mut self.octets, self.from);
            self.from = 0;
        }
    }

    /// Drops all octets.
    pub fn clear(&mut self)
        ensures { self.new ≡ [] }
    {
        self.octets.clear();
        self.from = 0;
    }
}

/// Copies the first octets to the front of the room, as many as fit, and answers how many.
pub fn copy_front(octets: &[u8], room: &mut [u8]) -> usize
    ensures count { result ≡ min (length room.old) (length octets.now) }
    ensures after { room.new ≡ take result octets.now ++ drop result room.old }
{
    let count = room.len().min(octets.len());
    room[..count].copy_from_slice(&octets[..count]);
    count
}
