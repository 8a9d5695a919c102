//! What an end does with octets that come.

ghost use Rattle.std.specs.Prelude.{◌≡◌, ℕ, List, ◌≤◌, ◌<◌, ◌++◌, length, drop, take, true, false, IfOk, OnOk, OnErr, MatchResult, ◌∷◌, []};
ghost use Rattle.osi_base.specs.declared.syntax.Syntax.TheVariants as syntaxes;
ghost use Rattle.osi_base.specs.declared.layer_words.Layer.TheVariants.{Rose};
ghost use Rattle.stub_tables.specs.Readable.{IsReadable};
ghost use Rattle.end_rules.specs.State.{passes_over};
ghost use Rattle.end_rules.specs.Faults.{fault_at, shown_at_fault};
ghost use Rattle.end_rules.specs.History.{fault, fed, feed_end};
ghost use Rattle.end_wire.specs.Heads.{head_at};
ghost use Rattle.end_wire.specs.Values.{IsContent, content_at};
ghost use Rattle.end_wire.specs.Bare.{first_at, Whole};
ghost use Rattle.end_wire.specs.Line.{after};
ghost use Rattle.bare_end.specs.View.{EndView, base, body, seen, Stepped, Keeps};
ghost use Rattle.bare_end.specs.Feed.{TookOne, ReadAll, ReadOneOrAll, Fed, KeepsDue, DiedFed};
ghost use Rattle.bare_end.specs.First.{IsFirst};

use crate::end::End;
use association_ground::passes_over;
use dialogue::{Indication, Indications, Phase};
use open_invocations::tell_cuts;
use osi_base::{Layer, ListOf, NoMemory};
use stream_front::FirstValue;

impl<'t> End<'t> {
    /// What stands first in what came.
    fn front(&mut self) -> FirstValue
        ensures first { IsFirst self.old.rest result }
        ensures same { self.new ≡ self.old }
    {
        self.rest.first()
    }

    /// Takes the first octets off what came.
    fn skip(&mut self, used: usize)
        requires { used ≤ length self.old.rest }
        ensures { self.new ≡ record self.old { rest = drop used self.old.rest } }
    {
        self.rest.skip(used);
    }

    /// Takes the message with which what came begins, which has so many octets.
    fn take(&mut self, used: usize, shown: &mut Indications) -> Result<(), NoMemory>
        requires first { first_at self.old.rest ≡ Whole used }
        requires some { 0 < used }
        requires within { used ≤ length self.old.rest }
        requires up { passes_over self.old.phase ≡ false }
        ensures ok { OnOk result (TookOne self.old self.new shown.old shown.new) }
        ensures err { OnErr result (Keeps self.old self.new) }
    {
        self.tables.hold_readable();
        let taken = self.hear(used)?;
        self.skip(used);
        self.tell(taken, shown)?;
        Ok(())
    }

    /// Ends the association for a fault at this place.
    fn abort(&mut self, place: usize, shown: &mut Indications) -> Result<(), NoMemory>
        ensures ok { OnOk result (Stepped self.old self.new (fault Rose place 0 ∷ feed_end ∷ [])) }
        ensures shown { OnOk result (shown.new ≡ shown.old ++ shown_at_fault (body self.old)
            (fault_at Rose place 0)) }
        ensures err { OnErr result (Keeps self.old self.new) }
    {
        let opens = self.invocations.open_calls()?;
        tell_cuts(self.alloc, opens.as_slice(), shown)?;
        shown.push(Indication::Aborted {
            own: true,
            layer: Layer::Rose,
            place: place as u64,
            reason: 0,
        })?;
        self.phase = Phase::Over;
        self.invocations.clear();
        self.rest.clear();
        Ok(())
    }

    /// Does what is to be done with what stands first, and answers whether more may follow.
    fn read(&mut self, front: FirstValue, shown: &mut Indications) -> Result<bool, NoMemory>
        requires first { IsFirst self.old.rest front }
        requires up { passes_over self.old.phase ≡ false }
        ensures { MatchResult result (λ more. ReadOneOrAll more self.old self.new shown.old
            shown.new) (λ _. Keeps self.old self.new) }
    {
        match front {
            FirstValue::Short => Ok(false),
            FirstValue::Whole(used) => {
                self.take(used, shown)?;
                Ok(true)
            }
            FirstValue::Faulty(place) => {
                self.abort(place, shown)?;
                Ok(false)
            }
        }
    }

    /// Reads what stands first, and answers whether more may follow.
    fn read_next(&mut self, shown: &mut Indications) -> Result<bool, NoMemory>
        requires { passes_over self.old.phase ≡ false }
        ensures { MatchResult result (λ more. ReadOneOrAll more self.old self.new shown.old
            shown.new) (λ _. Keeps self.old self.new) }
    {
        let front = self.front();
        self.read(front, shown)
    }

    /// Reads what came, message by message.
    fn read_all(&mut self, shown: &mut Indications) -> Result<(), NoMemory>
        requires { passes_over self.old.phase ≡ false }
        ensures ok { OnOk result (ReadAll self.old self.new shown.old shown.new) }
        ensures err { OnErr result (KeepsDue self.old self.new (seen self.old)) }
    {
        loop {
            let more = self.read_next(shown)?;
            if !more {
                return Ok(());
            }
        }
    }

    /// Whether what comes is passed over.
    fn is_over(&self) -> bool
        ensures { result ≡ passes_over self.now.phase }
    {
        passes_over(self.phase)
    }

    /// Drops what came.
    fn pass_over(&mut self)
        ensures { self.new ≡ record self.old { rest = [] } }
    {
        self.rest.clear();
    }

    /// Keeps what came.
    fn keep(&mut self, bytes: &[u8]) -> Result<(), NoMemory>
        ensures ok { OnOk result (self.new ≡ record self.old
            { rest = self.old.rest ++ bytes.now }) }
        ensures err { OnErr result (Keeps self.old self.new) }
    {
        self.rest.extend(bytes)?;
        Ok(())
    }

    /// No indications.
    fn nothing_shown(&self) -> Indications
        ensures { result ≡ [] }
    {
        ListOf::new(self.alloc)
    }

    /// Takes octets, unless memory is refused.
    fn feed_now(&mut self, bytes: &[u8]) -> Result<Indications, NoMemory>
        ensures { MatchResult result (λ shown. Fed self.old self.new bytes.now shown)
            (λ _. KeepsDue self.old self.new
            (after (base self.old) (seen self.old) (fed bytes.now))) }
    {
        let mut shown = self.nothing_shown();
        if self.is_over() {
            self.pass_over();
            return Ok(shown);
        }
        self.keep(bytes)?;
        self.read_all(&mut shown)?;
        Ok(shown)
    }

    /// Takes octets that came, and answers the indications of all messages that became whole with
    /// them. After want of memory the end is dead, and what waits is what waited and what was due
    /// for the messages that it took before. Each octet is looked at a bounded number of times,
    /// however the octets are cut.
    pub fn feed(&mut self, bytes: &[u8]) -> Result<Indications, NoMemory>
        ensures { MatchResult result (λ shown. Fed self.old self.new bytes.now shown)
            (λ _. DiedFed self.old self.new bytes.now) }
    {
        match self.feed_now(bytes) {
            Ok(shown) => Ok(shown),
            Err(error) => {
                self.phase = Phase::Dead;
                Err(error)
            }
        }
    }
}
