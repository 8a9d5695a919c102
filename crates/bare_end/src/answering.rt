//! Outcomes of invocations of the peer.

ghost use Rattle.std.specs.Prelude.{◌≡◌, Some, None, IfOk, OnOk, OnErr, false};
ghost use Rattle.std.specs.Option.{option_copied};
ghost use Rattle.osi_base.specs.declared.syntax.Syntax.TheVariants as syntaxes;
ghost use Rattle.stub_tables.specs.Lookup.{error_at};
ghost use Rattle.apdu_spelling.specs.Writing.{written_apdu};
ghost use Rattle.dialogue.specs.declared.call.Call.TheVariants as the_calls;
ghost use Rattle.end_rules.specs.State.{OpenCall, opened_with, close};
ghost use Rattle.end_rules.specs.Invoking.{operation_of, result_apdu, error_apdu, can_send_outcome, can_answer_open, can_answer, can_refuse_with, can_refuse};
ghost use Rattle.bare_end.specs.Checking.{IsChecked};
ghost use Rattle.bare_end.specs.View.{base, body, with_calls, with_waiting, AnswersCall, Keeps};

use crate::end::End;
use crate::sending::Checked;
use asn1_types::Val;
use dialogue::CallRefusal;
use osi_base::NoMemory;
use rose_roles::{error_apdu, result_apdu};
use stub_tables::{Apdu, ErrorRow, Operation};

impl<'t> End<'t> {
    /// The operation of an open invocation of the peer.
    fn operation_of(&self, id: &i64) -> Option<&'t Operation>
        ensures { option_copied result ≡ operation_of (base self.now)
            (opened_with false id.now self.now.calls.opens) }
    {
        let place = self.invocations.operation(false, id)?;
        self.tables.operation(place)
    }

    /// Writes the outcome of an open invocation of the peer.
    fn end_invocation(&mut self, id: &i64, text: &[u8]) -> Result<(), NoMemory>
        ensures ok { OnOk result (self.new ≡ with_waiting text.now
            (with_calls (close false id.now self.old.calls) self.old)) }
        ensures err { OnErr result (Keeps self.old self.new) }
    {
        self.send(text)?;
        self.invocations.close(id);
        Ok(())
    }

    /// The text of an outcome, unless it is too long.
    fn check_outcome(&self, apdu: &Apdu) -> Result<Checked, NoMemory>
        ensures { IfOk result (λ checked. (o : OpenCall) →
            IsChecked (can_send_outcome (base self.now) (body self.now) o apdu.now) None
            (written_apdu self.now.tables syntaxes.Ber apdu.now) checked) }
    {
        match self.short_text(apdu)? {
            Some(text) => Ok(Checked::Sends(text)),
            None => Ok(Checked::Refused(CallRefusal::TooLong)),
        }
    }

    /// The text of a result, or why it isn't sent.
    fn check_answer(
        &self,
        id: &i64,
        operation: &Operation,
        value: &Option<Val>,
    ) -> Result<Checked, NoMemory>
        ensures { IfOk result (λ checked. (o : OpenCall) →
            IsChecked (can_answer_open (base self.now) (body self.now) id.now (Some o)
            (Some operation.now) value.now) None
            (written_apdu self.now.tables syntaxes.Ber (result_apdu operation.now id.now value.now))
            checked) }
    {
        if !operation.returns {
            return Ok(Checked::Refused(CallRefusal::NotAllowed));
        }
        if !operation.result.carries(&self.tables.types, value) {
            return Ok(Checked::Refused(CallRefusal::NotTyped));
        }
        let apdu = result_apdu(self.alloc, operation, id, value)?;
        let checked = self.check_outcome(&apdu);
        drop(apdu);
        checked
    }

    /// The text of an error, or why it isn't sent.
    fn check_refuse(
        &self,
        id: &i64,
        error: &ErrorRow,
        parameter: &Option<Val>,
    ) -> Result<Checked, NoMemory>
        ensures { IfOk result (λ checked. (o : OpenCall) →
            IsChecked (can_refuse_with (base self.now) (body self.now) id.now o error.now
            parameter.now) None (written_apdu self.now.tables syntaxes.Ber
            (error_apdu error.now id.now parameter.now)) checked) }
    {
        if !error.parameter.carries(&self.tables.types, parameter) {
            return Ok(Checked::Refused(CallRefusal::NotTyped));
        }
        let apdu = error_apdu(self.alloc, error, id, parameter)?;
        let checked = self.check_outcome(&apdu);
        drop(apdu);
        checked
    }

    /// Answers an open invocation of an operation by its result.
    fn answer_open(
        &mut self,
        id: &i64,
        operation: &Operation,
        value: &Option<Val>,
    ) -> Result<Option<i64>, CallRefusal>
        requires { operation_of (base self.old) (opened_with false id.now self.old.calls.opens)
            ≡ Some operation.now }
        ensures { AnswersCall (can_answer (base self.old) (body self.old) id.now value.now) self.old
            self.new (the_calls.Answer id.now value.now) result }
    {
        let checked = self.check_answer(id, operation, value)?;
        match checked {
            Checked::Refused(refusal) => Err(refusal),
            Checked::Sends(text) => {
                self.end_invocation(id, text.as_slice())?;
                Ok(None)
            }
        }
    }

    /// Answers an invocation of the peer by its result.
    pub(crate) fn answer(
        &mut self,
        id: &i64,
        value: &Option<Val>,
    ) -> Result<Option<i64>, CallRefusal>
        ensures { AnswersCall (can_answer (base self.old) (body self.old) id.now value.now) self.old
            self.new (the_calls.Answer id.now value.now) result }
    {
        let Some(operation) = self.operation_of(id) else {
            return Err(CallRefusal::NoInvocation(*id));
        };
        self.answer_open(id, operation, value)
    }

    /// Answers an open invocation of an operation by an error.
    fn refuse_open(
        &mut self,
        id: &i64,
        place: u32,
        error: &ErrorRow,
        parameter: &Option<Val>,
    ) -> Result<Option<i64>, CallRefusal>
        requires there { error_at self.old.tables place ≡ Some error.now }
        ensures { (o : OpenCall) → opened_with false id.now self.old.calls.opens ≡ Some o →
            AnswersCall (can_refuse_with (base self.old) (body self.old) id.now o error.now
            parameter.now) self.old self.new (the_calls.Refuse id.now place parameter.now) result }
    {
        let checked = self.check_refuse(id, error, parameter)?;
        match checked {
            Checked::Refused(refusal) => Err(refusal),
            Checked::Sends(text) => {
                self.end_invocation(id, text.as_slice())?;
                Ok(None)
            }
        }
    }

    /// Answers an invocation of the peer by an error.
    pub(crate) fn refuse(
        &mut self,
        id: &i64,
        place: u32,
        parameter: &Option<Val>,
    ) -> Result<Option<i64>, CallRefusal>
        ensures { AnswersCall (can_refuse (base self.old) (body self.old) id.now place
            parameter.now) self.old self.new (the_calls.Refuse id.now place parameter.now) result }
    {
        let tables = self.tables;
        let Some(operation) = self.operation_of(id) else {
            return Err(CallRefusal::NoInvocation(*id));
        };
        let Some(error) = tables.error(place) else {
            return Err(CallRefusal::UnknownError);
        };
        if !operation.has_error(place) {
            return Err(CallRefusal::NotAllowed);
        }
        self.refuse_open(id, place, error, parameter)
    }
}
