//! An end of bare mode in a run.

ghost use Rattle.std.specs.Prelude.{refl};
ghost use Rattle.bare_duo.specs.Steps.{conduct};

use bare_end::End;
use dialogue::{Call, CallRefusal, Indications};
use osi_base::{Copied, NoMemory};
use std::alloc::Global;
use two_ends::RunEnd;

/// Runs of two ends of bare mode.
pub struct BareRun;

impl<'t> RunEnd<BareRun> for End<'t> {
    ghost conduct = { conduct };

    fn give_some(&mut self, out: &mut [u8]) -> usize {
        self.give_out(out)
    }

    fn answer(
        &mut self,
        alloc: Global,
        call: &Call,
    ) -> Result<Result<Option<i64>, CallRefusal>, NoMemory> {
        let made = call.copy(alloc)?;
        let answer = self.call(made);
        if matches!(answer, Err(CallRefusal::NoMemory)) {
            return Err(NoMemory);
        }
        Ok(answer)
    }

    fn take_octets(&mut self, octets: &[u8]) -> Result<Indications, NoMemory> {
        let shown = self.feed(octets)?;
        Ok(shown)
    }

    fn break_off(&mut self) {
        self.broke();
    }

    ghost waits = { λ octets e. refl };

    ghost same = { λ e. refl };

    ghost again = { λ octets more e. refl };
}
