//! The end that takes transfers.

ghost use Rattle.std.specs.Prelude.{◌≡◌, ◌≢◌, ◌+◌, ◌<◌, ◌≤◌, ◌==◌, Ok, Err, IfOk, OnOk, OnErr, IfErr};
ghost use Rattle.rtse.specs.Receiving.{nothing, start_taken, chunked, marked, resumption_taken, ended, dropped, IsRefused, fresh, highest, octets_at, back_to};

use crate::fault::RtseFault;
use osi_base::{NoMemory, Octets};
use std::alloc::Global;
use std::marker::Model;

// the most octets of one transfer
const TRANSFER_MOST: usize = 262_400;

/// What the end of a transfer brings.
#[derive(Debug, Drop)]
pub enum Ended {
    /// The whole transfer, which is to be handed up.
    Whole(Octets),
    /// Nothing: the transfer of this number was handed up before.
    Again,
}

/// The record of the other end's last activity: its number, the octets that came, how many there
/// were at each mark, and whether the transfer was handed up (X.228 7.3, 8.2). It keeps at most
/// 262,400 octets.
#[derive(Debug, Drop)]
pub struct Incoming {
    alloc: Global,
    number: u32,
    octets: Vec<u8>,
    marks: Vec<usize>,
    handed_up: bool,
}

impl Model for Incoming {
    ghost use Rattle.rtse.specs.Receiving.{Receiving, IsSoundReceiving};

    ghost Value = { Receiving };

    ghost view = { λ i. record {
      number = i.number;
      octets = i.octets.items;
      marks = i.marks.items;
      handed_up = i.handed_up;
    } };

    ghost invariant = { λ i. IsSoundReceiving (record {
      number = i.number;
      octets = i.octets.items;
      marks = i.marks.items;
      handed_up = i.handed_up;
    }) };
}

impl Incoming {
    /// The record before any activity.
    pub fn new(alloc: Global) -> Incoming
        ensures { result ≡ nothing }
    {
        Incoming {
            alloc,
            number: 0,
            octets: Vec::new(alloc),
            marks: Vec::new(alloc),
            handed_up: false,
        }
    }

    /// An activity of this number starts. Of another number than the one behind the last
    /// activity's it is `WrongNumber` with the last one's, and nothing has changed.
    pub fn started(&mut self, number: u32) -> Result<(), RtseFault>
        ensures ok { OnOk result (start_taken number self.old ≡ Ok self.new) }
        ensures err { IfErr result (λ fault. start_taken number self.old ≡ Err fault) }
        ensures stays { OnErr result (self.new ≡ self.old) }
    {
        if !self.is_behind(number) {
            return Err(RtseFault::WrongNumber {
                had: self.number,
                came: number,
            });
        }
        self.begin(number);
        Ok(())
    }

    /// The next octets of the transfer come. Where they would pass 262,400 octets it is `TooLong`,
    /// and nothing has changed.
    pub fn chunk(&mut self, octets: &[u8]) -> Result<(), RtseFault>
        requires { 0 < self.old.number }
        ensures ok { OnOk result (chunked octets.now self.old ≡ Ok self.new) }
        ensures err { IfErr result (IsRefused (chunked octets.now self.old)) }
        ensures stays { OnErr result (self.new ≡ self.old) }
    {
        if octets.len() > TRANSFER_MOST - self.octets.len() {
            return Err(RtseFault::TooLong);
        }
        self.octets.extend_from_slice(octets)?;
        Ok(())
    }

    /// A mark comes. Of another number than the next one it is `WrongNumber` with the highest mark,
    /// and nothing has changed.
    pub fn mark(&mut self, n: u32) -> Result<(), RtseFault>
        requires { 0 < self.old.number }
        ensures ok { OnOk result (marked n self.old ≡ Ok self.new) }
        ensures err { IfErr result (IsRefused (marked n self.old)) }
        ensures stays { OnErr result (self.new ≡ self.old) }
    {
        self.check_next(n)?;
        self.marks.push(self.octets.len())?;
        Ok(())
    }

    /// The activity of this number is resumed at mark n, or from nothing where n is 0. It is the
    /// last one with one of its marks, or the one behind it from nothing; else it is `WrongNumber`
    /// with the two activity numbers or, where these are equal, with the highest mark and n, and
    /// nothing has changed.
    pub fn resumed(&mut self, number: u32, n: u32) -> Result<(), RtseFault>
        ensures ok { OnOk result (resumption_taken number n self.old ≡ Ok self.new) }
        ensures err { IfErr result (λ fault. resumption_taken number n self.old ≡ Err fault) }
        ensures stays { OnErr result (self.new ≡ self.old) }
    {
        if number == self.number && number > 0 {
            return self.back_to(n);
        }
        if !self.is_behind(number) || n > 0 {
            return Err(RtseFault::WrongNumber {
                had: self.number,
                came: number,
            });
        }
        self.begin(number);
        Ok(())
    }

    /// The end comes, with the number behind the highest mark; else it is `WrongNumber` with that
    /// mark, and nothing has changed. It brings the whole transfer, unless the transfer of this
    /// number was handed up before.
    pub fn ended(&mut self, n: u32) -> Result<Ended, RtseFault>
        requires { 0 < self.old.number }
        ensures ok { IfOk result (λ end. ended n self.old ≡ Ok (end, self.new)) }
        ensures err { IfErr result (IsRefused (ended n self.old)) }
        ensures stays { OnErr result (self.new ≡ self.old) }
    {
        self.check_next(n)?;
        if self.handed_up {
            return Ok(Ended::Again);
        }
        let whole = Octets::from_slice(self.alloc, &self.octets)?;
        self.handed_up = true;
        Ok(Ended::Whole(whole))
    }

    /// The activity was discarded. What is kept of it is its number, and whether it was handed up.
    pub fn dropped(&mut self)
        ensures { self.new ≡ dropped self.old }
    {
        self.octets.clear();
        self.marks.clear();
    }

    /// The number of the last activity, 0 where there was none.
    pub fn number(&self) -> u32
        ensures { result ≡ self.now.number }
    {
        self.number
    }

    // is this the number behind the last activity's?
    fn is_behind(&self, number: u32) -> bool
        ensures { result ≡ (number == self.now.number + 1) }
    {
        number > 0 && number - 1 == self.number
    }

    // is this the number behind the highest mark?
    fn check_next(&self, n: u32) -> Result<(), RtseFault>
        ensures ok { OnOk result (n ≡ highest self.now + 1) }
        ensures err { IfErr result (λ fault. (n ≢ highest self.now + 1)
            × (fault ≡ RtseFault.WrongNumber (highest self.now) n)) }
    {
        let had = self.highest();
        if n > 0 && n - 1 == had {
            return Ok(());
        }
        Err(RtseFault::WrongNumber { had, came: n })
    }

    // the highest mark
    fn highest(&self) -> u32
        ensures { result ≡ highest self.now }
    {
        self.marks.len() as u32
    }

    // the record of an activity at its start
    fn begin(&mut self, number: u32)
        ensures { self.new ≡ fresh number }
    {
        self.number = number;
        self.octets.clear();
        self.marks.clear();
        self.handed_up = false;
    }

    // cuts the record back to this mark, if it has it
    fn back_to(&mut self, n: u32) -> Result<(), RtseFault>
        ensures ok { OnOk result ((n ≤ highest self.old) × (self.new ≡ back_to n self.old)) }
        ensures err { IfErr result (λ fault. (highest self.old < n)
            × (fault ≡ RtseFault.WrongNumber (highest self.old) n) × (self.new ≡ self.old)) }
    {
        if n > self.highest() {
            return Err(RtseFault::WrongNumber {
                had: self.highest(),
                came: n,
            });
        }
        let kept = self.octets_at(n);
        self.octets.truncate(kept);
        self.marks.truncate(n as usize);
        Ok(())
    }

    // how many octets there were at this mark
    fn octets_at(&self, n: u32) -> usize
        requires { n ≤ highest self.now }
        ensures { result ≡ octets_at self.now n }
    {
        match n {
            0 => 0,
            n => self.marks[n as usize - 1],
        }
    }
}
