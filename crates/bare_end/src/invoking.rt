//! The call that invokes an operation: what refuses it, and what it sends and keeps.

ghost use Rattle.std.specs.Prelude.{◌≡◌, ◌<◌, ◌≤◌, ◌+◌, ℕ, ℤ, true, false, not, ◌&&◌, nat_le, length, Some, None, Ok, Err, pos, IfOk, OnOk, OnErr, if◌then◌else◌, suc};
ghost use Rattle.osi_base.specs.declared.syntax.Syntax.TheVariants as syntaxes;
ghost use Rattle.osi_base.specs.Limits.{last_invocation, most_open};
ghost use Rattle.stub_tables.specs.Codes.{is_silent};
ghost use Rattle.stub_tables.specs.Lookup.{operation_at};
ghost use Rattle.apdu_spelling.specs.Writing.{written_apdu};
ghost use Rattle.dialogue.specs.declared.call.Call.TheVariants as the_calls;
ghost use Rattle.dialogue.specs.declared.call.CallRefusal.TheVariants as refusals;
ghost use Rattle.end_rules.specs.State.{opens_of};
ghost use Rattle.end_rules.specs.Hearing.{with_opened};
ghost use Rattle.end_rules.specs.Invoking.{Reply, next_id, is_on_module, is_linked_to, linking_refusal, unless_refused, invoke_apdu, can_send_invoke, can_invoke};
ghost use Rattle.open_invocations.specs.Invocations.{is_link};
ghost use Rattle.bare_end.specs.Checking.{IsChecked, IsFree, HasRoom, IsNumbered};
ghost use Rattle.bare_end.specs.View.{base, body, with_calls, with_waiting, AnswersCall, Keeps, IsRefusal};

use crate::end::End;
use crate::sending::Checked;
use asn1_types::Val;
use dialogue::CallRefusal;
use osi_base::NoMemory;
use rose_roles::{invoke_apdu, is_linked_to};
use stub_tables::{Apdu, Operation};

/// How many invocations of one end may be open.
const MOST_OPEN: usize = 4_096;

/// The greatest identifier of an invocation.
const LAST_ID: u32 = 2_147_483_647;

/// An invocation that is made: its operation's place, its context, and what it is linked to.
#[derive(Clone, Copy, Debug)]
pub struct Making {
    pub(crate) context: u32,
    pub(crate) place: u32,
    pub(crate) linked: Option<i64>,
}

impl<'t> End<'t> {
    /// The identifier of the next invocation.
    fn next_id(&self) -> i64
        ensures { result ≡ next_id (body self.now) }
    {
        i64::from((self.invocations.made() + 1).min(LAST_ID))
    }

    /// Whether the identifier is in the set, with the module's abstract syntax.
    fn is_on_module(&self, context: u32) -> bool
        ensures { result ≡ is_on_module (base self.now) (body self.now) context }
    {
        context == 0
    }

    /// Why an invocation may not be linked so.
    fn linking_refusal(&self, place: u32, linked: Option<i64>) -> Option<CallRefusal>
        ensures refusal { result ≡ linking_refusal (base self.now) (body self.now) place linked }
        ensures link { (result ≡ None) → is_link linked self.now.calls.opens ≡ true }
        ensures memory { IsRefusal result }
    {
        let linked = linked?;
        let Some(parent) = self.invocations.operation(false, &linked) else {
            return Some(CallRefusal::ParentClosed(linked));
        };
        if is_linked_to(self.tables.operation(parent), place) {
            None
        } else {
            Some(CallRefusal::LinkNotAllowed(linked))
        }
    }

    /// The APDU of the next invocation.
    fn next_apdu(
        &self,
        operation: &Operation,
        linked: Option<i64>,
        argument: &Option<Val>,
    ) -> Result<Apdu, NoMemory>
        ensures { IfOk result (λ apdu. apdu ≡ invoke_apdu operation.now (next_id (body self.now))
            linked argument.now) }
    {
        let id = self.next_id();
        invoke_apdu(self.alloc, operation, id, linked, argument)
    }

    /// Why there is no room or no number for one more invocation of an operation.
    fn room_refusal(&self, operation: &Operation) -> Option<CallRefusal>
        ensures { (go : Reply) → IsNumbered self.now.calls operation.now result
            (if not (is_silent operation.now)
            && nat_le most_open (length (opens_of true self.now.calls.opens)) then Err
            refusals.TooManyOpen else (if nat_le last_invocation self.now.calls.made then Err
            refusals.NumbersSpent else go)) go }
    {
        if !operation.is_silent() && self.invocations.own_count() >= MOST_OPEN {
            return Some(CallRefusal::TooManyOpen);
        }
        if self.invocations.made() >= LAST_ID {
            return Some(CallRefusal::NumbersSpent);
        }
        None
    }

    /// The text of the next invocation of an operation, or why there is none.
    fn check_invoke(
        &self,
        operation: &Operation,
        argument: &Option<Val>,
        linked: Option<i64>,
    ) -> Result<Checked, NoMemory>
        ensures checked { IfOk result (IsChecked (can_send_invoke (base self.now) (body self.now)
            operation.now argument.now linked) (Some (next_id (body self.now)))
            (written_apdu self.now.tables syntaxes.Ber
            (invoke_apdu operation.now (next_id (body self.now)) linked argument.now))) }
        ensures free { IfOk result (IsFree self.now.calls operation.now) }
    {
        if !operation.argument.carries(&self.tables.types, argument) {
            return Ok(Checked::Refused(CallRefusal::NotTyped));
        }
        let apdu = self.next_apdu(operation, linked, argument)?;
        let short = self.short_text(&apdu);
        drop(apdu);
        let Some(text) = short? else {
            return Ok(Checked::Refused(CallRefusal::TooLong));
        };
        match self.room_refusal(operation) {
            Some(refusal) => Ok(Checked::Refused(refusal)),
            None => Ok(Checked::Sends(text)),
        }
    }

    /// Opens the next invocation, unless its operation is silent.
    fn open_call(&mut self, operation: &Operation, making: Making) -> Result<(), NoMemory>
        requires there { operation_at self.old.tables making.place ≡ Some operation.now }
        requires room { HasRoom self.old.calls operation.now }
        requires linked { is_link making.linked self.old.calls.opens ≡ true }
        ensures ok { OnOk result (self.new
            ≡ with_calls (with_opened (base self.old)
            (record {
              own = true;
              id = next_id (body self.old);
              operation = making.place;
              context = making.context;
              parent = making.linked;
            })
            (record self.old.calls { made = suc self.old.calls.made })) self.old) }
        ensures err { OnErr result (self.new ≡ self.old) }
    {
        if operation.is_silent() {
            self.invocations.count_silent();
            return Ok(());
        }
        self.invocations
            .open(making.place, making.context, making.linked)?;
        Ok(())
    }

    /// Keeps the next invocation, which was written.
    fn begin(&mut self, operation: &Operation, making: Making, text: &[u8]) -> Result<(), NoMemory>
        requires there { operation_at self.old.tables making.place ≡ Some operation.now }
        requires room { HasRoom self.old.calls operation.now }
        requires linked { is_link making.linked self.old.calls.opens ≡ true }
        ensures ok { OnOk result (self.new ≡ with_waiting text.now
            (with_calls (with_opened (base self.old) (record {
              own = true;
              id = next_id (body self.old);
              operation = making.place;
              context = making.context;
              parent = making.linked;
            })
            (record self.old.calls { made = suc self.old.calls.made })) self.old)) }
        ensures err { OnErr result (Keeps self.old self.new) }
    {
        self.open_call(operation, making)?;
        self.send(text)?;
        Ok(())
    }

    /// Makes an invocation of an operation on a context of the module, linked as it may be.
    fn send_invoke(
        &mut self,
        making: Making,
        operation: &Operation,
        argument: &Option<Val>,
    ) -> Result<Option<i64>, CallRefusal>
        requires there { operation_at self.old.tables making.place ≡ Some operation.now }
        requires linked { is_link making.linked self.old.calls.opens ≡ true }
        ensures { AnswersCall (can_send_invoke (base self.old) (body self.old) operation.now
            argument.now making.linked) self.old self.new
            (the_calls.Invoke making.context making.place argument.now making.linked) result }
    {
        let id = self.next_id();
        let checked = self.check_invoke(operation, argument, making.linked)?;
        match checked {
            Checked::Refused(refusal) => Err(refusal),
            Checked::Sends(text) => {
                self.begin(operation, making, text.as_slice())?;
                Ok(Some(id))
            }
        }
    }

    /// Invokes the operation at this place of the table.
    pub(crate) fn invoke(
        &mut self,
        making: Making,
        argument: &Option<Val>,
    ) -> Result<Option<i64>, CallRefusal>
        ensures { AnswersCall (can_invoke (base self.old) (body self.old) making.context
            making.place argument.now making.linked) self.old self.new
            (the_calls.Invoke making.context making.place argument.now making.linked) result }
    {
        let tables = self.tables;
        let Some(operation) = tables.operation(making.place) else {
            return Err(CallRefusal::UnknownOperation);
        };
        if !self.is_on_module(making.context) {
            return Err(CallRefusal::Absent(making.context));
        }
        if let Some(refusal) = self.linking_refusal(making.place, making.linked) {
            return Err(refusal);
        }
        self.send_invoke(making, operation, argument)
    }
}
