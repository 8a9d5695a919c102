//! The end that sends a transfer.

ghost use Rattle.std.specs.Prelude.{◌≡◌, ◌*◌, ◌<◌, ◌≤◌, length, IfOk, OnOk, OnErr, IfErr};
ghost use Rattle.osi_base.specs.Limits.{most_transferred};
ghost use Rattle.rtse.specs.Sending.{MayStart, IsNext, started, step_of, stepped, resumed, size_of, is_last, behind, chunk_behind, closed, marks_given, waits};

use crate::fault::RtseFault;
use osi_base::{NoMemory, Octets};
use std::alloc::Global;
use std::marker::Model;

/// What is to be sent next of a transfer.
#[derive(Debug, Drop)]
pub enum Step {
    /// These octets, as the value of one RTTR.
    Chunk(Octets),
    /// A minor synchronization point of this number.
    Mark(u32),
    /// The end of the activity, with this number.
    End(u32),
    /// Nothing, until a mark is confirmed; behind the end nothing at all.
    Wait,
}

/// A transfer that is sent: its octets are given in chunks of the checkpoint times 1,024 octets,
/// in one where the checkpoint is 0. A mark follows each chunk but the last, behind which the end
/// stands; at most as many marks as the window are unconfirmed (X.228 7.3).
#[derive(Debug, Drop)]
pub struct Outgoing {
    alloc: Global,
    number: u32,
    octets: Octets,
    checkpoint: u32,
    window: u32,
    chunks: u32,
    due: bool,
    confirmed: u32,
}

impl Model for Outgoing {
    ghost use Rattle.rtse.specs.Sending.{Sending, IsSoundSending};

    ghost Value = { Sending };

    ghost view = { λ o. record {
      number = o.number;
      octets = o.octets;
      checkpoint = o.checkpoint;
      window = o.window;
      chunks = o.chunks;
      due = o.due;
      confirmed = o.confirmed;
    } };

    ghost invariant = { λ o. IsSoundSending (record {
      number = o.number;
      octets = o.octets;
      checkpoint = o.checkpoint;
      window = o.window;
      chunks = o.chunks;
      due = o.due;
      confirmed = o.confirmed;
    }) };
}

impl Outgoing {
    /// A transfer of these octets from the first on, 1 to 262,400 of them, as the activity of this
    /// number, 1 to 999,999. The checkpoint is 0 to 255, the window 1 to 255.
    pub fn start(
        alloc: Global,
        number: u32,
        octets: Octets,
        checkpoint: u32,
        window: u32,
    ) -> Outgoing
        requires { MayStart number octets checkpoint window }
        ensures { result ≡ started number octets checkpoint window }
    {
        Outgoing {
            alloc,
            number,
            octets,
            checkpoint,
            window,
            chunks: 0,
            due: false,
            confirmed: 0,
        }
    }

    /// What is to be sent next, which counts as sent. Where memory runs out nothing has changed.
    pub fn next(&mut self) -> Result<Step, NoMemory>
        ensures ok { IfOk result (λ step. (step ≡ step_of self.old) ×
            (self.new ≡ stepped self.old)) }
        ensures err { OnErr result (self.new ≡ self.old) }
    {
        if self.waits() {
            return Ok(Step::Wait);
        }
        if self.due {
            let step = self.behind();
            self.due = false;
            return Ok(step);
        }
        let chunk = self.chunk()?;
        self.chunks += 1;
        self.due = true;
        Ok(Step::Chunk(chunk))
    }

    /// The other end confirms this mark, which is the lowest that was given and isn't confirmed;
    /// of another mark it is `WrongNumber` with the highest confirmed one, and nothing has changed.
    pub fn confirmed(&mut self, n: u32) -> Result<(), RtseFault>
        ensures next { OnOk result (IsNext self.old n) }
        ensures ok { OnOk result (self.new ≡ record self.old { confirmed = n }) }
        ensures wrong { OnErr result (¬ IsNext self.old n) }
        ensures err { IfErr result (λ fault. (fault ≡ RtseFault.WrongNumber self.old.confirmed n)
            × (self.new ≡ self.old)) }
    {
        if n > self.confirmed && n - 1 == self.confirmed && n <= self.marks_given() {
            self.confirmed = n;
            return Ok(());
        }
        Err(RtseFault::WrongNumber {
            had: self.confirmed,
            came: n,
        })
    }

    /// Goes back to the highest confirmed mark, which it answers: 0 where none is confirmed. Marks
    /// that were given and aren't confirmed are taken back.
    pub fn resume(&mut self) -> u32
        ensures mark { result ≡ self.old.confirmed }
        ensures back { self.new ≡ resumed self.old }
    {
        self.chunks = self.confirmed;
        self.due = false;
        self.confirmed
    }

    /// The number of the activity.
    pub fn number(&self) -> u32
        ensures { result ≡ self.now.number }
    {
        self.number
    }

    // how many octets a chunk has
    fn size(&self) -> usize
        ensures size { result ≡ size_of self.now }
        ensures some { 1 ≤ result }
        ensures within { result ≤ most_transferred }
    {
        match self.checkpoint {
            0 => self.octets.len(),
            checkpoint => checkpoint as usize * 1024,
        }
    }

    fn is_last(&self, n: u32) -> bool
        requires { n ≤ most_transferred }
        ensures { result ≡ is_last self.now n }
    {
        self.octets.len() <= n as usize * self.size()
    }

    fn behind(&self) -> Step
        ensures { result ≡ behind self.now self.now.chunks }
    {
        if self.is_last(self.chunks) {
            Step::End(self.chunks)
        } else {
            Step::Mark(self.chunks)
        }
    }

    // the next chunk
    fn chunk(&self) -> Result<Octets, NoMemory>
        requires { self.now.chunks * size_of self.now < length self.now.octets }
        ensures { IfOk result (λ chunk. chunk_behind self.now self.now.chunks ≡ Step.Chunk chunk) }
    {
        let size = self.size();
        let left = &self.octets.as_slice()[self.chunks as usize * size..];
        let chunk = if left.len() <= size {
            left
        } else {
            &left[..size]
        };
        Octets::from_slice(self.alloc, chunk)
    }

    fn closed(&self) -> u32
        ensures closed { result ≡ closed self.now }
        ensures few { result ≤ most_transferred }
    {
        if self.due {
            self.chunks - 1
        } else {
            self.chunks
        }
    }

    fn marks_given(&self) -> u32
        ensures { result ≡ marks_given self.now }
    {
        let closed = self.closed();
        if self.is_last(closed) {
            closed.saturating_sub(1)
        } else {
            closed
        }
    }

    fn waits(&self) -> bool
        ensures { result ≡ waits self.now }
    {
        self.is_last(self.closed()) || self.confirmed + self.window <= self.marks_given()
    }
}
