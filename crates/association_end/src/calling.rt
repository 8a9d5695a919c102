//! The calls of an end.

ghost use Rattle.std.specs.Prelude.{◌≡◌, IfOk, OnOk, OnErr, MatchBool, option_map};
ghost use Rattle.end_rules.specs.Invoking.{is_memory};
ghost use Rattle.association_words.specs.Seen.{seen_message};
ghost use Rattle.association_reacting.specs.association_sends.Due.{listed};
ghost use Rattle.association_end.specs.Called.{Answered, DiedCalled};
ghost use Rattle.association_end.specs.Progress.{AnswersCall};
ghost use Rattle.association_requests.specs.Called.{sent_by};
ghost use Rattle.association_end.specs.Changed.{wants_memory, ChangedBy};
ghost use Rattle.association_end.specs.OneMessage.{AllMayStand, sending};

use crate::end::End;
use association_ground::is_memory;
use association_requests::{AcceptedCall, make_call};
use association_words::Message;
use dialogue::{Call, CallRefusal, Phase};
use osi_base::NoMemory;

/// Whether memory was refused as a call was looked at.
fn wants_memory(called: &Result<AcceptedCall, CallRefusal>) -> bool
    ensures { result ≡ wants_memory called.now }
{
    matches!(called, Err(CallRefusal::NoMemory))
}

impl<'t> End<'t> {
    /// Changes what the end holds by a call; where memory is refused, the end dies.
    fn change(&mut self, asked: &Call) -> Result<AcceptedCall, CallRefusal>
        ensures is { ChangedBy self.old self.new asked.now result }
        ensures room { IfOk result (λ called. AllMayStand (sent_by called)) }
    {
        let called = make_call(&self.basis, &mut self.body, asked);
        if wants_memory(&called) {
            self.body.link.phase = Phase::Dead;
            return called;
        }
        called
    }

    /// Puts the message of a call, where it has one, behind what waits.
    fn send_due(&mut self, message: &Option<Message>) -> Result<(), NoMemory>
        requires { AllMayStand (listed (option_map seen_message message.now)) }
        ensures ok { OnOk result (self.new ≡ sending (listed (option_map seen_message message.now))
            self.old) }
        ensures err { OnErr result (self.new ≡ self.old) }
    {
        match message {
            None => Ok(()),
            Some(message) => self.write(message),
        }
    }

    /// Makes a call, unless memory is refused. The message is let go by a call, since it is much to
    /// let go where a function ends.
    fn call_now(&mut self, asked: &Call) -> Result<Option<i64>, CallRefusal>
        ensures { AnswersCall self.old self.new asked.now result }
    {
        let called = self.change(asked)?;
        let AcceptedCall { answer, message } = called;
        let sent = self.send_due(&message);
        drop(message);
        sent?;
        self.do_own_acts()?;
        Ok(answer)
    }

    /// Makes a call; where memory is refused, the end dies.
    fn call_or_die(&mut self, asked: &Call) -> Result<Option<i64>, CallRefusal>
        ensures { MatchBool (is_memory result) (DiedCalled self.old self.new asked.now)
            (Answered self.old self.new asked.now result) }
    {
        let answer = self.call_now(asked);
        if is_memory(&answer) {
            self.body.link.phase = Phase::Dead;
            return answer;
        }
        answer
    }

    /// Makes a call. A refusal is the first row of the conditions that fails, and changes nothing;
    /// but after a refusal by want of memory the end is dead, and answers `Dead` from then on. An
    /// accepted invocation is answered by its identifier, all else by `None`; then the end sends
    /// all that it sends by itself.
    pub fn call(&mut self, call: Call) -> Result<Option<i64>, CallRefusal>
        ensures { MatchBool (is_memory result) (DiedCalled self.old self.new call)
            (Answered self.old self.new call result) }
    {
        let answer = self.call_or_die(&call);
        drop(call);
        answer
    }
}
