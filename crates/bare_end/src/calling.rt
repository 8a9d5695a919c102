//! The calls of an end.

ghost use Rattle.std.specs.Prelude.{◌≡◌, true, false, not, ◌&&◌};
ghost use Rattle.std.specs.Bool.{MatchBool, OnFalse};
ghost use Rattle.end_rules.specs.Invoking.{is_memory};
ghost use Rattle.end_rules.specs.Calling.{can_call, is_dead, is_initiators, is_phase_for};
ghost use Rattle.end_rules.specs.History.{History, call_steps};
ghost use Rattle.end_wire.specs.Line.{going_on, end_of};
ghost use Rattle.bare_end.specs.View.{base, body, AnswersCall, Answered, Died, StandsFor};

use crate::end::End;
use crate::invoking::Making;
use association_ground::{is_dead, is_initiators, is_memory, is_of_bare_mode, is_phase_for};
use dialogue::{Call, CallRefusal, Phase};

impl<'t> End<'t> {
    /// Makes a call of remote operations in its phase; there are no others in bare mode.
    fn call_in_phase(&mut self, call: &Call) -> Result<Option<i64>, CallRefusal>
        requires open_ { is_phase_for call.now self.old.phase ≡ true }
        requires mine { is_initiators call.now && not self.old.config.initiator ≡ false }
        requires alive { is_dead self.old.phase ≡ false }
        ensures { AnswersCall (can_call (base self.old) (body self.old) call.now) self.old self.new
            call.now result }
    {
        if !is_of_bare_mode(call) {
            return Err(CallRefusal::NotNegotiated);
        }
        match call {
            Call::Invoke {
                context,
                operation,
                argument,
                linked,
            } => {
                let making = Making {
                    context: *context,
                    place: *operation,
                    linked: *linked,
                };
                self.invoke(making, argument)
            }
            Call::Answer { id, result } => self.answer(id, result),
            Call::Refuse {
                id,
                error,
                parameter,
            } => self.refuse(id, *error, parameter),
            _ => Err(CallRefusal::NotNegotiated),
        }
    }

    /// Makes a call, or refuses it by the first row that fails.
    fn call_now(&mut self, call: &Call) -> Result<Option<i64>, CallRefusal>
        ensures { AnswersCall (can_call (base self.old) (body self.old) call.now) self.old self.new
            call.now result }
    {
        if is_dead(self.phase) {
            return Err(CallRefusal::Dead);
        }
        if is_initiators(call) && !self.config.initiator {
            return Err(CallRefusal::NotInitiator);
        }
        if !is_phase_for(call, self.phase) {
            return Err(CallRefusal::WrongPhase(self.phase));
        }
        self.call_in_phase(call)
    }

    /// Makes a call; where memory is refused, the end dies.
    fn call_or_die(&mut self, call: &Call) -> Result<Option<i64>, CallRefusal>
        ensures { MatchBool (is_memory result) (Died self.old self.new)
            (Answered (can_call (base self.old) (body self.old) call.now) self.old self.new call.now
            result) }
    {
        let answer = self.call_now(call);
        if is_memory(&answer) {
            self.phase = Phase::Dead;
            return answer;
        }
        answer
    }

    /// Makes a call. A refusal is the first row of the conditions that fails, and changes nothing;
    /// but after a refusal by want of memory the end is dead, and answers `Dead` from then on. An
    /// accepted invocation is answered by its identifier, all else by `None`.
    pub fn call(&mut self, call: Call) -> Result<Option<i64>, CallRefusal>
        ensures answer { MatchBool (is_memory result) (Died self.old self.new)
            (Answered (can_call (base self.old) (body self.old) call) self.old self.new call
            result) }
        // Where the end stood for a history, it stands for it with the steps of the call.
        ensures history { (h : History) → StandsFor self.old h →
            OnFalse (is_memory result) (StandsFor self.new
            (going_on h (call_steps (base self.old) (end_of (base self.old) h).body call))) }
    {
        let answer = self.call_or_die(&call);
        drop(call);
        answer
    }
}
