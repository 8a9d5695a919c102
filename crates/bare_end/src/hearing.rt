//! What an end does with an APDU that it takes.

ghost use Rattle.std.specs.Prelude.{◌≡◌, ◌≤◌, ◌++◌, IfOk, OnOk, OnErr, length, take, Some, None, ℕ};
ghost use Rattle.osi_base.specs.declared.syntax.Syntax.TheVariants as syntaxes;
ghost use Rattle.osi_base.specs.Octets.{AreOctets};
ghost use Rattle.apdu_spelling.specs.Writing.{written_apdu};
ghost use Rattle.end_wire.specs.apdu_codec.HeadsRead.{IsHeadRead};
ghost use Rattle.rose_roles.specs.Hearing.{heard_with, Hears};
ghost use Rattle.end_rules.specs.State.{Calls};
ghost use Rattle.end_rules.specs.Hearing.{hear, reject_apdu};
ghost use Rattle.end_wire.specs.Heads.{head_at};
ghost use Rattle.end_wire.specs.Values.{IsContent, content_at};
ghost use Rattle.open_invocations.specs.Invocations.{SomeCarried};
ghost use Rattle.bare_end.specs.Told.{heard_as, Heard, HeardIn, told_by, answered_end};
ghost use Rattle.bare_end.specs.View.{base, with_calls, with_waiting};

use crate::end::End;
use apdu_spelling::ApduHead;
use dialogue::{Indication, Indications};
use end_wire::apdu_codec_layer::HeadFault;
use osi_base::{NoMemory, Problem, Syntax, hold_octets, hold_some_octets};
use rose_roles::{RoseTaken, refused_head};
use stub_tables::Apdu;

/// What becomes of an APDU that was taken.
#[derive(Drop)]
pub enum Taken {
    /// The user is told.
    Told(Indication),
    /// It is rejected.
    Rejects {
        /// The identifier of the APDU, if it has one that can be read.
        id: Option<i64>,
        /// The problem that this end found.
        problem: Problem,
    },
}

/// What the user is told, or the reject that is due.
fn as_taken(taken: RoseTaken) -> Taken
    ensures { (calls : Calls) → heard_as calls result ≡ heard_with calls taken }
{
    match taken {
        RoseTaken::Invoked {
            id,
            operation,
            linked,
            argument,
        } => Taken::Told(Indication::Invoked {
            id,
            operation,
            linked,
            argument,
        }),
        RoseTaken::Result { id, value } => Taken::Told(Indication::Result { id, value }),
        RoseTaken::Error {
            id,
            error,
            parameter,
        } => Taken::Told(Indication::Error {
            id,
            error,
            parameter,
        }),
        RoseTaken::Rejected { id, problem } => Taken::Told(Indication::Rejected { id, problem }),
        RoseTaken::RejectTaken { id, problem } => {
            Taken::Told(Indication::RejectTaken { id, problem })
        }
        RoseTaken::BadReject => Taken::Told(Indication::BadReject),
        RoseTaken::Reject { id, problem } => Taken::Rejects { id, problem },
    }
}

impl<'t> End<'t> {
    /// The head of the APDU with which what came begins, which has so many octets.
    fn first_head(&self, used: usize) -> Result<ApduHead, HeadFault>
        requires { used ≤ length self.now.rest }
        ensures read { IsHeadRead syntaxes.Ber (take used self.now.rest) result }
        ensures octets { AreOctets (take used self.now.rest) }
    {
        let text = &self.rest.as_slice()[..used];
        hold_octets(text);
        self.heads.read(self.alloc, Syntax::Ber, text)
    }

    /// Hears what a head says.
    fn hear_head(&mut self, head: ApduHead) -> Result<Taken, NoMemory>
        requires { SomeCarried self.old.tables syntaxes.Ber head }
        ensures heard { IfOk result (HeardIn self.old self.new head) }
        ensures err { OnErr result (self.new ≡ self.old) }
    {
        let taken = self.invocations.take(self.tables, Syntax::Ber, 0, head)?;
        Ok(as_taken(taken))
    }

    /// Hears the APDU with which what came begins, which has so many octets.
    pub(crate) fn hear(&mut self, used: usize) -> Result<Taken, NoMemory>
        requires { used ≤ length self.old.rest }
        ensures heard { IfOk result (Heard self.old self.new
            (head_at self.old.tables syntaxes.Ber (take used self.old.rest))) }
        ensures means { OnOk result (IsContent self.old.tables syntaxes.Ber
            (take used self.old.rest) (content_at self.old.tables syntaxes.Ber
            (take used self.old.rest))) }
        ensures err { OnErr result (self.new ≡ self.old) }
    {
        self.tables.hold_readable();
        match self.first_head(used) {
            Ok(head) => {
                hold_some_octets(&head.rest);
                let taken = self.hear_head(head)?;
                Ok(taken)
            }
            Err(fault) => {
                let taken = refused_head(fault)?;
                Ok(as_taken(taken))
            }
        }
    }

    /// Writes a reject.
    fn send_reject(&mut self, id: Option<i64>, problem: Problem) -> Result<(), NoMemory>
        ensures ok { OnOk result (self.new
            ≡ with_waiting (written_apdu self.old.tables syntaxes.Ber
            (reject_apdu (record { id = id; problem = problem }))) self.old) }
        ensures err { OnErr result (self.new ≡ self.old) }
    {
        let apdu = Apdu::Reject { id, problem };
        let text = self.text(Syntax::Ber, &apdu);
        drop(apdu);
        self.send(text?.as_slice())?;
        Ok(())
    }

    /// Tells the user what became of an APDU, and answers it where it is rejected.
    pub(crate) fn tell(&mut self, taken: Taken, shown: &mut Indications) -> Result<(), NoMemory>
        ensures ok { OnOk result (self.new ≡ answered_end taken self.old) }
        ensures shown { OnOk result (shown.new ≡ shown.old ++ told_by taken) }
        ensures err { OnErr result (self.new ≡ self.old) }
    {
        match taken {
            Taken::Told(indication) => {
                shown.push(indication)?;
                Ok(())
            }
            Taken::Rejects { id, problem } => {
                shown.push(Indication::RejectSent { id, problem })?;
                self.send_reject(id, problem)
            }
        }
    }
}
