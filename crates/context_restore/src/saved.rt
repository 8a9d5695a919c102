//! The sets that can be restored.

ghost use Rattle.std.specs.Prelude.{◌≡◌, ◌+◌, ◌<◌, ◌≤◌, true, false, [], ◌∷◌, length, None, Err, IsOk, IfOk, IfErr, OnOk, OnErr, MatchOption, MatchResult};
ghost use Rattle.osi_base.specs.Limits.{most_marks};
ghost use Rattle.context_sets.specs.Sets.{IsRising};
ghost use Rattle.context_restore.specs.Versions.{version, root, set_of, below};
ghost use Rattle.context_restore.specs.declared.refusal.SaveRefusal.TheVariants.{NoMemory as no_room};
ghost use Rattle.context_restore.specs.SavedSets.{marks_of, next_number, mark_refusal, restart_refusal, resume_refusal, leave_refusal, resumed_set, resumed_nodes, IsRefused};

use crate::chain::{drop_newest, insert_node, rooted, set_back};
use crate::differing::{changed_set, missing, renew};
use crate::node::VersionNode;
use crate::refusal::SaveRefusal;
use context_sets::Contexts;
use osi_base::{Copied, ListOf, SetList};
use slab::Slab;
use std::alloc::Global;
use std::marker::Model;

/// The sets that can be restored: those that marks saved under their numbers, with the one that the
/// activity began with under number 0, and the set from before the activity (this project's own
/// rules). A chain of versions keeps them; contracts see the versions as a list, the newest first.
#[derive(Debug, Drop)]
pub struct Saved {
    alloc: Global,
    nodes: Slab<VersionNode>,
    /// The key of the newest node, and its set.
    head: Option<u32>,
    newest: SetList,
    inter: SetList,
    active: bool,
}

impl Model for Saved {
    ghost use Rattle.context_restore.specs.SavedSets.{SavedSets};
    ghost use Rattle.context_restore.specs.Chain.{versions, IsKept};

    ghost Value = { SavedSets };

    ghost view = { λ saved. record {
      nodes = versions saved.nodes saved.head;
      inter = saved.inter;
      active = saved.active;
    } };

    ghost invariant = { λ saved.
        IsKept saved.nodes saved.head saved.newest saved.inter saved.active };
}

impl Saved {
    /// Nothing saved.
    pub fn new(alloc: Global) -> Saved
        ensures nodes { result.nodes ≡ [] }
        ensures inter { result.inter ≡ [] }
        ensures active { result.active ≡ false }
    {
        Saved {
            alloc,
            nodes: Slab::new(alloc),
            head: None,
            newest: ListOf::new(alloc),
            inter: ListOf::new(alloc),
            active: false,
        }
    }

    /// How many nodes the chain has: one for number 0, and one for each mark that is kept.
    pub fn nodes(&self) -> u32
        ensures count { result ≡ length self.now.nodes }
        ensures few { result ≤ most_marks + 1 }
        ensures rooted { self.now.active ≡ true → 0 < result }
    {
        self.nodes.len() as u32
    }

    /// Whether an activity is in progress.
    pub fn is_active(&self) -> bool
        ensures { result ≡ self.now.active }
    {
        self.active
    }

    /// Begins an activity over a set, which is the one that is restored after it, and the one of
    /// number 0. What was saved before is gone.
    pub fn begin(&mut self, set: &Contexts) -> Result<(), SaveRefusal>
        ensures ok { OnOk result (self.new ≡ record {
          nodes = root set.now.set ∷ [];
          inter = set.now.set;
          active = true;
        }) }
        ensures err { OnErr result (self.new ≡ self.old) }
        ensures memory { IfErr result (λ refusal. refusal ≡ no_room) }
    {
        let newest = set.list()?;
        let nodes = rooted(self.alloc, newest.copy(self.alloc)?)?;
        let inter = set.list()?;
        self.inter = inter;
        self.nodes = nodes;
        self.head = Some(0);
        self.newest = newest;
        self.active = true;
        Ok(())
    }

    /// Saves a set under the next number, which is answered: the numbers count from 1.
    #[tactic(auto, using(crate::proofs::Sound::marks_more))]
    pub fn mark(&mut self, set: &Contexts) -> Result<u32, SaveRefusal>
        ensures refused { MatchResult result (λ _. mark_refusal self.old ≡ None)
            (IsRefused (mark_refusal self.old)) }
        ensures number { IfOk result (λ n. n ≡ next_number self.old.nodes) }
        ensures marks { IfOk result (λ n. marks_of self.new.nodes ≡ record {
          number = n;
          set = set.now.set;
        } ∷ marks_of self.old.nodes) }
        ensures ok { OnOk result (self.new ≡ record self.old
            { nodes = version (set_of self.old.nodes) set.now.set ∷ self.old.nodes }) }
        ensures err { OnErr result (self.new ≡ self.old) }
    {
        let number = self.nodes();
        if number > 65536 {
            return Err(SaveRefusal::MarksFull);
        }
        if !self.is_active() {
            return Err(SaveRefusal::NoActivity);
        }
        self.push(set)?;
        Ok(number)
    }

    /// Puts the version that leads to a set at the head of the chain.
    fn push(&mut self, set: &Contexts) -> Result<(), SaveRefusal>
        requires { length self.old.nodes ≤ most_marks }
        ensures ok { OnOk result (self.new ≡ record self.old
            { nodes = version (set_of self.old.nodes) set.now.set ∷ self.old.nodes }) }
        ensures rises { IsRising set.now.set }
        ensures err { OnErr result (self.new ≡ self.old) }
        ensures memory { IfErr result (λ refusal. refusal ≡ no_room) }
    {
        let node = VersionNode {
            parent: self.head,
            added: missing(self.alloc, self.newest.as_slice(), set.items())?,
            lost: missing(self.alloc, set.items(), self.newest.as_slice())?,
        };
        let changed = changed_set(&node, self.newest.as_slice(), set)?;
        let key = insert_node(&mut self.nodes, node)?;
        self.head = Some(key);
        renew(&mut self.newest, changed);
        Ok(())
    }

    /// The set saved by the highest number below this one, to which a restart would go.
    pub fn set_below(&self, n: u32) -> Result<SetList, SaveRefusal>
        ensures refused { MatchResult result (λ _. restart_refusal self.now n ≡ None)
            (IsRefused (restart_refusal self.now n)) }
        ensures list { IfOk result (λ list. list ≡ set_of (below n self.now.nodes)) }
        ensures rises { IfOk result (λ list. IsRising list) }
    {
        self.may_restart(n)?;
        self.oldest_set(n as usize)
    }

    /// Goes back to the set saved by the highest number below this one, which is answered, and
    /// forgets the marks from this one on.
    pub fn restart(&mut self, n: u32) -> Result<SetList, SaveRefusal>
        ensures refused { MatchResult result (λ _. restart_refusal self.old n ≡ None)
            (IsRefused (restart_refusal self.old n)) }
        ensures list { IfOk result (λ list. list ≡ set_of (below n self.old.nodes)) }
        ensures rises { IfOk result (λ list. IsRising list) }
        ensures ok { OnOk result (self.new ≡ record self.old { nodes = below n self.old.nodes }) }
        ensures err { OnErr result (self.new ≡ self.old) }
    {
        self.may_restart(n)?;
        self.cut(n as usize)
    }

    /// Begins an activity anew at a mark that is kept, or at nothing: the set `now` is restored
    /// after it, the marks past this one are gone, and the mark's set is answered. At nothing all
    /// marks are gone, and `now` is the set of number 0 and the answer.
    pub fn resume(&mut self, n: u32, now: &Contexts) -> Result<SetList, SaveRefusal>
        ensures refused { MatchResult result (λ _. resume_refusal self.old n ≡ None)
            (IsRefused (resume_refusal self.old n)) }
        ensures list { IfOk result (λ list. list ≡ resumed_set self.old n now.now.set) }
        ensures rises { IfOk result (λ list. IsRising list) }
        ensures ok { OnOk result (self.new ≡ record {
          nodes = resumed_nodes self.old n now.now.set;
          inter = now.now.set;
          active = true;
        }) }
        ensures err { OnErr result (self.new ≡ self.old) }
    {
        if n == 0 {
            let list = now.list()?;
            self.begin(now)?;
            return Ok(list);
        }
        if n >= self.nodes() {
            return Err(SaveRefusal::NoSuchMark(n));
        }
        let inter = now.list()?;
        let list = self.cut(n as usize + 1)?;
        self.inter = inter;
        self.active = true;
        Ok(list)
    }

    /// The activity ended; the set from before it is answered. The marks stay.
    pub fn end(&mut self) -> Result<SetList, SaveRefusal>
        ensures refused { MatchResult result (λ _. leave_refusal self.old ≡ None)
            (IsRefused (leave_refusal self.old)) }
        ensures list { IfOk result (λ list. list ≡ self.old.inter) }
        ensures rises { IfOk result (λ list. IsRising list) }
        ensures ok { OnOk result (self.new ≡ record self.old { active = false }) }
        ensures err { OnErr result (self.new ≡ self.old) }
    {
        let list = self.left_set()?;
        self.active = false;
        Ok(list)
    }

    /// The activity was interrupted; the set from before it is answered. The marks stay.
    pub fn interrupt(&mut self) -> Result<SetList, SaveRefusal>
        ensures refused { MatchResult result (λ _. leave_refusal self.old ≡ None)
            (IsRefused (leave_refusal self.old)) }
        ensures list { IfOk result (λ list. list ≡ self.old.inter) }
        ensures rises { IfOk result (λ list. IsRising list) }
        ensures ok { OnOk result (self.new ≡ record self.old { active = false }) }
        ensures err { OnErr result (self.new ≡ self.old) }
    {
        self.end()
    }

    /// The activity was discarded; the set from before it is answered. The marks are gone.
    pub fn discard(&mut self) -> Result<SetList, SaveRefusal>
        ensures refused { MatchResult result (λ _. leave_refusal self.old ≡ None)
            (IsRefused (leave_refusal self.old)) }
        ensures list { IfOk result (λ list. list ≡ self.old.inter) }
        ensures rises { IfOk result (λ list. IsRising list) }
        ensures ok { OnOk result (self.new ≡ record self.old { nodes = []; active = false }) }
        ensures err { OnErr result (self.new ≡ self.old) }
    {
        let list = self.left_set()?;
        self.nodes.clear();
        self.head = None;
        self.newest = ListOf::new(self.alloc);
        self.active = false;
        Ok(list)
    }

    /// A copy of the set from before the activity, which is in progress.
    fn left_set(&self) -> Result<SetList, SaveRefusal>
        ensures refused { MatchResult result (λ _. leave_refusal self.now ≡ None)
            (IsRefused (leave_refusal self.now)) }
        ensures list { IfOk result (λ list. list ≡ self.now.inter) }
        ensures rises { IfOk result (λ list. IsRising list) }
    {
        if !self.is_active() {
            return Err(SaveRefusal::NoActivity);
        }
        Ok(self.inter.copy(self.alloc)?)
    }

    /// Whether a restart may go to this number.
    fn may_restart(&self, n: u32) -> Result<(), SaveRefusal>
        ensures { MatchOption (restart_refusal self.now n) (IsOk result)
            (λ refusal. result ≡ Err refusal) }
    {
        if n == 0 || n > self.nodes().max(1) {
            return Err(SaveRefusal::NoSuchMark(n));
        }
        if !self.is_active() {
            return Err(SaveRefusal::NoActivity);
        }
        Ok(())
    }

    /// The set to which the oldest versions lead, of which there are so many: the newest one, led
    /// back by the others.
    fn oldest_set(&self, count: usize) -> Result<SetList, SaveRefusal>
        requires { 0 < count }
        ensures list { IfOk result (λ list. list ≡ set_of (below count self.now.nodes)) }
        ensures rises { IfOk result (λ list. IsRising list) }
        ensures memory { IfErr result (λ refusal. refusal ≡ no_room) }
    {
        let dropped = self.nodes.len().saturating_sub(count);
        let newest = self.newest.copy(self.alloc)?;
        let set = set_back(self.alloc, &self.nodes, self.head, newest, dropped)?;
        Ok(ListOf::from_vec(set))
    }

    /// Keeps the oldest versions, so many of them, and answers the set to which they lead.
    fn cut(&mut self, count: usize) -> Result<SetList, SaveRefusal>
        requires { 0 < count }
        ensures list { IfOk result (λ list. list ≡ set_of (below count self.old.nodes)) }
        ensures rises { IfOk result (λ list. IsRising list) }
        ensures ok { OnOk result (self.new ≡ record self.old
            { nodes = below count self.old.nodes }) }
        ensures err { OnErr result (self.new ≡ self.old) }
        ensures memory { IfErr result (λ refusal. refusal ≡ no_room) }
    {
        let newest = self.oldest_set(count)?;
        let list = newest.copy(self.alloc)?;
        let dropped = self.nodes.len().saturating_sub(count);
        self.head = drop_newest(&mut self.nodes, self.head, dropped);
        self.newest = newest;
        Ok(list)
    }
}
