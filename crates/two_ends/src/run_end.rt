//! An end as a run of two ends has it.

ghost use Rattle.std.specs.Prelude.{◌≡◌, ◌++◌, ℕ, List, length, min, take, drop, IfOk};
ghost use Rattle.two_ends.specs.Conduct.{Conduct, given_out};

use dialogue::{Call, CallRefusal, Indications};
use osi_base::NoMemory;
use std::alloc::Global;

/// An end that is called, gives octets out and is fed octets, and whose connection may break. `R`
/// is a type of the crate that runs such ends, so that the impl may stand there.
pub trait RunEnd<R> {
    /// How the end acts.
    ghost conduct: { Conduct Self };

    /// Moves the octets that wait to the front of the room, in their order and as many as fit, and
    /// answers how many.
    fn give_some(&mut self, out: &mut [u8]) -> usize
        ensures count { result ≡ min (length out.old) (length (conduct.waiting self.old)) }
        ensures given { out.new ≡ take result (conduct.waiting self.old) ++ drop result out.old }
        ensures end { self.new ≡ given_out conduct result self.old };

    /// Makes a call like this one.
    fn answer(
        &mut self,
        alloc: Global,
        call: &Call,
    ) -> Result<Result<Option<i64>, CallRefusal>, NoMemory>
        ensures { IfOk result (λ answer. conduct.answered self.old self.new call.now answer) };

    /// Takes octets that came, and answers the indications of what became whole with them.
    fn take_octets(&mut self, octets: &[u8]) -> Result<Indications, NoMemory>
        ensures { IfOk result (λ shown. conduct.fed self.old self.new octets.now shown) };

    /// The connection broke.
    fn break_off(&mut self)
        ensures { conduct.broke self.old self.new };

    ghost waits: { (octets : List ℕ) (e : Self) →
        conduct.waiting (conduct.with_waiting octets e) ≡ octets };

    ghost same: { (e : Self) → conduct.with_waiting (conduct.waiting e) e ≡ e };

    ghost again: { (octets more : List ℕ) (e : Self) →
        conduct.with_waiting more (conduct.with_waiting octets e)
        ≡ conduct.with_waiting more e };
}
