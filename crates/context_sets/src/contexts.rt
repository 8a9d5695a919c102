//! The set of one end with the alterations that it asked for.

ghost use Rattle.std.specs.Prelude.{◌≡◌, ◌+◌, ◌≤◌, not, [], ◌∷◌, ◌++◌, length, None, Err, IsOk, IfOk, OnOk, OnErr, MatchOption, MatchResult};
ghost use Rattle.std.specs.Option.{option_copied};
ghost use Rattle.context_sets.specs.Sets.{IsRising};
ghost use Rattle.osi_base.specs.SetPlaces.{pair_of};
ghost use Rattle.osi_base.specs.Limits.{most_contexts, most_alterations};
ghost use Rattle.context_sets.specs.Alterations.{additions, altered, is_deleted};
ghost use Rattle.context_sets.specs.HeldSets.{HasRoom, oldest, later, may_send, serves, lowest, carrier};
ghost use Rattle.context_sets.specs.Asking.{refusal, IsRefused};
ghost use Rattle.context_sets.specs.Policy.{policy, peer_fault, IsFault};
ghost use Rattle.context_sets.specs.Results.{mismatch};

use crate::alteration::Alteration;
use crate::alteration_answers::{added_answers, deletion_answers, peer_fault};
use crate::asking::{AskedOver, additions, is_deleted, refusal};
use crate::fault::{SetFault, SetRefusal};
use crate::results::mismatch;
use crate::rules::Rules;
use crate::settling::{acceptances, settle};
use crate::syntaxes::is_same;
use osi_base::{
    Answers, Copied, Ids, ListOf, NoMemory, Oid, Pair, Proposals, SetItem, SetList, pair_of,
};
use std::alloc::Global;
use std::marker::Model;

/// The defined context set of one end (X.216 3.4), with the alterations that it asked for and that
/// aren't answered yet: at most 64 contexts, at most four alterations.
#[derive(Debug, Drop)]
pub struct Contexts {
    alloc: Global,
    initiator: bool,
    items: Vec<SetItem>,
    own: Vec<Alteration>,
}

impl Model for Contexts {
    ghost use Rattle.std.specs.Prelude.{◌-◌, vec_len, vec_capacity};
    ghost use Rattle.context_sets.specs.HeldSets.{Held, IsSoundHeldSet};

    ghost Value = { Held };

    ghost view = { λ contexts. record {
      initiator = contexts.initiator;
      set = contexts.items.items;
      own = contexts.own.items;
      room = vec_capacity contexts.items - vec_len contexts.items;
    } };

    ghost invariant = { λ contexts.
        IsSoundHeldSet contexts.items.items contexts.own.items
        (vec_capacity contexts.items - vec_len contexts.items) };
}

impl Contexts {
    /// No contexts, of an initiator or of a responder.
    pub fn new(alloc: Global, initiator: bool) -> Contexts
        ensures initiator { result.initiator ≡ initiator }
        ensures set { result.set ≡ [] }
        ensures own { result.own ≡ [] }
    {
        Contexts {
            alloc,
            initiator,
            items: Vec::new(alloc),
            own: Vec::new(alloc),
        }
    }

    /// Puts a whole set in the place of this one, which waits for no answer.
    pub fn install(&mut self, list: SetList) -> Result<(), NoMemory>
        requires rises { IsRising list }
        requires within { length list ≤ most_contexts }
        requires none_waits { self.old.own ≡ [] }
        ensures ok { IsOk result }
        ensures initiator { self.new.initiator ≡ self.old.initiator }
        ensures set { self.new.set ≡ list }
        ensures own { self.new.own ≡ [] }
    {
        self.items = list.into_vec();
        Ok(())
    }

    /// Asks for an alteration over this set: the contexts to be added and to be deleted, while
    /// these identifiers are in use. It waits for its answer behind those that wait, and room is
    /// made for its additions. After a refusal nothing has changed but the room.
    pub fn propose(&mut self, add: Proposals, delete: Ids, used: &Ids) -> Result<(), SetRefusal>
        ensures refused { let first = refusal self.old.initiator self.old.set self.old.own used.now
            (record { added = add; deleted = delete }) in
            MatchResult result (λ _. first ≡ None) (IsRefused first) }
        ensures ok { OnOk result (self.new ≡ record self.old {
          own = self.old.own ++ record { added = add; deleted = delete } ∷ [];
          room = self.new.room;
        }) }
        ensures err { OnErr result (self.new ≡ record self.old { room = self.new.room }) }
        ensures roomy { HasRoom self.new }
    {
        let asked = Alteration {
            added: add,
            deleted: delete,
        };
        let ground = AskedOver {
            initiator: self.initiator,
            items: &self.items,
            own: &self.own,
            used: used.as_slice(),
        };
        if let Some(refusal) = refusal(self.alloc, &ground, &asked)? {
            return Err(refusal);
        }
        self.items
            .reserve(additions(&self.own) + asked.added.len())?;
        self.own.push(asked)?;
        Ok(())
    }

    /// Answers an alteration that the other end asks for, while these identifiers are in use here,
    /// and changes the set by what is accepted. After a fault nothing has changed but the room.
    pub fn answer(
        &mut self,
        add: &Proposals,
        delete: &Ids,
        used: &Ids,
        rules: &Rules,
    ) -> Result<Answers, SetFault>
        ensures faulty { let first = peer_fault (not self.old.initiator) self.old.set [] add.now in
            MatchResult result (λ _. first ≡ None) (IsFault first) }
        ensures answers { IfOk result (λ answers. answers ≡ policy rules.now self.old.set
            self.old.own used.now (record { added = add.now; deleted = delete.now })) }
        ensures ok { IfOk result (λ answers. self.new ≡ record self.old {
          set = altered (record { added = add.now; deleted = delete.now }) answers self.old.set;
          room = self.new.room;
        }) }
        ensures err { OnErr result (self.new ≡ record self.old { room = self.new.room }) }
        ensures roomy { HasRoom self.new }
    {
        if let Some(fault) = peer_fault(self.alloc, !self.initiator, &self.items, add.as_slice())? {
            return Err(fault);
        }
        let taken = self.items.len() + additions(&self.own);
        let answers = Answers {
            added: added_answers(self.alloc, rules, taken, add.as_slice())?,
            deleted: deletion_answers(self.alloc, &self.items, used.as_slice(), delete.as_slice())?,
        };
        let alteration = Alteration {
            added: add.copy(self.alloc)?,
            deleted: delete.copy(self.alloc)?,
        };
        let accepted = acceptances(answers.added.as_slice());
        self.items.reserve(additions(&self.own) + accepted)?;
        settle(&mut self.items, alteration, &answers);
        Ok(answers)
    }

    /// Changes the set by the answers to the own alteration that waits longest, which then waits no
    /// more. Where none waits, nothing was asked. After a fault nothing has changed.
    pub fn confirm(&mut self, answers: &Answers) -> Result<(), SetFault>
        ensures answered { MatchOption (mismatch (oldest self.old.own) answers.now) (IsOk result)
            (λ fault. result ≡ Err fault) }
        ensures ok { OnOk result (self.new ≡ record self.old {
          set = altered (oldest self.old.own) answers.now self.old.set;
          own = later self.old.own;
          room = self.new.room;
        }) }
        ensures err { OnErr result (self.new ≡ self.old) }
        ensures roomy { HasRoom self.new }
    {
        if let Some(fault) = oldest_mismatch(&self.own, answers) {
            return Err(fault);
        }
        if self.own.len() > 0 {
            let oldest = self.own.remove(0);
            settle(&mut self.items, oldest, answers);
        }
        Ok(())
    }

    /// Forgets all own alterations that wait for their answers.
    pub fn drop_pending(&mut self)
        ensures { self.new ≡ record self.old { own = []; room = self.old.room } }
    {
        self.own.clear();
    }

    /// The pair of an identifier, where the set has it.
    pub fn pair(&self, id: u32) -> Option<&Pair>
        ensures { option_copied result ≡ pair_of self.now.set id }
    {
        pair_of(&self.items, id)
    }

    /// Whether values may be sent on a context: it is in the set, and no own alteration deletes it.
    pub fn may_send(&self, id: u32) -> bool
        ensures { result ≡ may_send self.now.set self.now.own id }
    {
        pair_of(&self.items, id).is_some() && !is_deleted(&self.own, id)
    }

    /// The lowest identifier with this abstract syntax on which values may be sent.
    pub fn lowest(&self, name: &Oid) -> Option<u32>
        ensures { result ≡ lowest self.now.set self.now.own name.now }
    {
        for item in &self.items {
            if is_same(item.pair.abstract_name.arcs(), name.arcs())
                && !is_deleted(&self.own, item.id)
            {
                return Some(item.id);
            }
        }
        None
    }

    /// The identifier on which what belongs to this context travels: the context itself where
    /// values may be sent on it, else the lowest of the module's abstract syntax on which they may.
    pub fn carrier(&self, id: u32, module_name: &Oid) -> Option<u32>
        ensures { result ≡ carrier self.now.set self.now.own module_name.now id }
    {
        if self.may_send(id) {
            Some(id)
        } else {
            self.lowest(module_name)
        }
    }

    /// The contexts of the set by rising identifier, as they are kept.
    pub fn items(&self) -> &[SetItem]
        ensures value { result.now ≡ self.now.set }
        ensures rises { IsRising self.now.set }
        ensures within { length self.now.set + additions self.now.own ≤ most_contexts }
    {
        &self.items
    }

    /// A copy of the whole set.
    pub fn list(&self) -> Result<SetList, NoMemory>
        ensures value { IfOk result (λ list. list ≡ self.now.set) }
        ensures rises { IfOk result (λ list. IsRising list) }
    {
        let mut items = Vec::new(self.alloc);
        for item in &self.items {
            items.push(item.copy(self.alloc)?)?;
        }
        Ok(ListOf::from_vec(items))
    }

    /// How many own alterations wait for their answers.
    pub fn pending(&self) -> u32
        ensures value { result ≡ length self.now.own }
        ensures few { result ≤ most_alterations }
    {
        self.own.len() as u32
    }
}

/// How answers don't fit the first of these alterations, or, where there is none, that nothing was
/// asked.
fn oldest_mismatch(own: &[Alteration], answers: &Answers) -> Option<SetFault>
    ensures { result ≡ mismatch (oldest own.now) answers.now }
{
    match own.first() {
        None => mismatch(
            &[],
            &[],
            answers.added.as_slice(),
            answers.deleted.as_slice(),
        ),
        Some(oldest) => mismatch(
            oldest.added.as_slice(),
            oldest.deleted.as_slice(),
            answers.added.as_slice(),
            answers.deleted.as_slice(),
        ),
    }
}
