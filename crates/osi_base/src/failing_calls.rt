//! Which calls of an object in memory are to fail, and how many failed.

ghost use Rattle.std.specs.Prelude.{◌≡◌, ◌↔◌, ◌+◌, ◌≤◌, min, IsTrue, Contains, if◌then◌else◌};
ghost use Rattle.osi_base.specs.Limits.{last_count};

use crate::line::Outcome;

/// Which calls of an object in memory are to fail, how many calls there were and how many failed.
#[derive(Debug, Drop)]
pub struct FailingCalls {
    /// The numbers of the calls that are to fail, counted from 0.
    pub numbers: Vec<u64>,
    /// How many calls were made.
    pub made: u64,
    /// How many of them failed.
    pub faults: u64,
}

impl FailingCalls {
    /// The calls with these numbers, counted from 0, are to fail.
    pub fn new(numbers: Vec<u64>) -> FailingCalls
        ensures { result ≡ record { numbers = numbers; made = 0; faults = 0 } }
    {
        FailingCalls {
            numbers,
            made: 0,
            faults: 0,
        }
    }

    /// What the next call will come to. No call counts as made.
    pub fn next_outcome(&self) -> Outcome
        ensures failed { (result ≡ Outcome.Failed) ↔ Contains self.now.numbers.items self.now.made }
    {
        if self.numbers.contains(&self.made) {
            Outcome::Failed
        } else {
            Outcome::Done
        }
    }

    /// Whether the next call is to fail. The call counts as made.
    pub fn is_next(&mut self) -> bool
        ensures due { IsTrue result ↔ Contains self.old.numbers.items self.old.made }
        ensures numbers { self.new.numbers.items ≡ self.old.numbers.items }
        ensures made { self.new.made ≡ min (self.old.made + 1) last_count }
        ensures count { self.old.faults ≤ self.new.faults }
        ensures faults { self.new.faults
            ≡ (if result then min (self.old.faults + 1) last_count else self.old.faults) }
    {
        let is_due = self.numbers.contains(&self.made);
        self.made = self.made.saturating_add(1);
        if is_due {
            self.faults = self.faults.saturating_add(1);
        }
        is_due
    }
}
