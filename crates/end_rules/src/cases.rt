//! The worked histories: what the rules compute of openings, of alterations and restarts that
//! cross, of a transfer, a recovery, links and rejects.

ghost use Rattle.std.specs.Prelude.{◌≡◌, [], ◌∷◌, Some, None, Ok, Err, pos, true, false};
ghost use Rattle.osi_base.specs.declared.layer_words.Layer.TheVariants as layers;
ghost use Rattle.osi_base.specs.declared.layer_words.ProblemKind.TheVariants as problems;
ghost use Rattle.dialogue.specs.declared.config.Mode.TheVariants.{Bare, Direct, Reliable};
ghost use Rattle.dialogue.specs.declared.config.Phase.TheVariants as phases;
ghost use Rattle.dialogue.specs.declared.call.Call.TheVariants as the_calls;
ghost use Rattle.dialogue.specs.declared.call.CallRefusal.TheVariants as refusals;
ghost use Rattle.dialogue.specs.declared.indication.Indication.TheVariants as indications;
ghost use Rattle.end_rules.specs.Sets.{next_number};
ghost use Rattle.end_rules.specs.State.{highest, NoAnswer};
ghost use Rattle.end_rules.specs.Calling.{can_call};
ghost use Rattle.end_rules.specs.Cases.{played, base_for, opening, collision, deletes, crossing_restarts, added_and_marked, restored, four_lost, transfer, resumption, linked, result_twice, unasked, acse_alone, with_five, with_seven};

/// An opening in direct mode: both ends are up with contexts 1 and 5, the initiator has the token,
/// the set is saved under 0, and context management is selected.
pub fn opening_is_up()
    ensures phases { let two = played Direct opening in
        (two.a.link.phase ≡ phases.Up) × (two.b.link.phase ≡ phases.Up) }
    ensures sets { let two = played Direct opening in
        (two.a.sets.held ≡ with_five) × (two.b.sets.held ≡ with_five) × (next_number two.a.saved
        ≡ 1) }
    ensures selected { let two = played Direct opening in
        (two.a.link.selected ≡ 1066) × (two.b.link.manages ≡ true) × (two.a.link.turn ≡ true)
        × (two.b.link.turn ≡ false) }
    ensures told { let two = played Direct opening in
        (two.told_a ≡ indications.Opened ∷ []) × (two.told_b ≡ indications.Opened ∷ []) }
{}

/// Two deletions of one context that cross: each end answers the other's, and the context is absent
/// at both.
pub fn deletions_collide()
    ensures sets { let two = played Direct collision in
        (two.a.sets.held ≡ acse_alone) × (two.b.sets.held ≡ acse_alone) × (two.a.sets.own ≡ []) }
    ensures again { let two = played Direct collision in
        can_call (base_for true Direct) two.a (deletes 5) ≡ Err (refusals.Absent 5) }
{}

/// Restarts to 3 and to 2 cross: the lower wins, both ends indicate it, and the next mark is 2.
pub fn lower_restart_wins()
    ensures told { let two = played Direct crossing_restarts in
        (two.told_a ≡ indications.Opened ∷ indications.Restarted 2 ∷ [])
        × (two.told_b ≡ indications.Opened ∷ indications.Marked 1 ∷ indications.Marked 2
        ∷ indications.Restarted 2 ∷ []) }
    ensures marks { let two = played Direct crossing_restarts in
        (next_number two.a.saved ≡ 2) × (next_number two.b.saved ≡ 2)
        × (two.a.link.awaits ≡ NoAnswer) × (two.b.link.awaits ≡ NoAnswer) }
{}

/// A restart to a mark brings back the set of the mark before, at both ends, and not the newest.
pub fn restart_brings_back_the_set()
    ensures before { let two = played Direct added_and_marked in
        (two.a.sets.held ≡ with_seven) × (two.b.sets.held ≡ with_seven)
        × (next_number two.b.saved ≡ 2) }
    ensures after { let two = played Direct restored in
        (two.a.sets.held ≡ with_five) × (two.b.sets.held ≡ with_five) × (next_number two.a.saved
        ≡ 1) }
{}

/// Four additions are in flight, a fifth is refused, and a restart of the other end loses all four.
pub fn four_additions_are_lost()
    ensures told { let two = played Direct four_lost in
        (two.told_a
        ≡ indications.Opened ∷ indications.AlterLost ∷ indications.AlterLost ∷ indications.AlterLost
        ∷ indications.AlterLost ∷ indications.Restarted 1 ∷ [])
        × (two.told_b ≡ indications.Opened ∷ indications.Restarted 1 ∷ []) }
    ensures sets { let two = played Direct four_lost in
        (two.a.sets.held ≡ with_five) × (two.b.sets.held ≡ with_five) × (two.a.sets.own ≡ []) }
    ensures replies { let two = played Direct four_lost in
        two.replies ≡ Ok None ∷ Ok None ∷ Ok None ∷ Ok None ∷ Ok None
        ∷ Err refusals.AlterPending ∷ Ok None ∷ [] }
{}

/// A transfer in two parts with one mark: the invocation is handed up as its end is taken.
pub fn transfer_arrives()
    ensures told { let two = played Reliable transfer in
        (two.told_a ≡ indications.Opened ∷ indications.Transferred 1 ∷ [])
        × (two.told_b ≡ indications.Opened ∷ indications.Invoked (pos 1) 0 None None ∷ []) }
    ensures rest { let two = played Reliable transfer in
        (two.a.sending.current ≡ None) × (two.b.receiving.last ≡ 1)
        × (highest two.b.receiving.pieces ≡ 1)
        × (two.to_a ≡ []) × (two.to_b ≡ []) }
{}

/// After a break and a recovery the transfer is resumed from its confirmed mark, and handed up
/// once.
pub fn transfer_is_resumed()
    ensures told { let two = played Reliable resumption in
        (two.told_a ≡ indications.Opened ∷ indications.Recovered ∷ indications.Transferred 1 ∷ [])
        × (two.told_b ≡ indications.Opened ∷ indications.Recovered ∷ indications.Resumed 1 1
        ∷ indications.Invoked (pos 1) 0 None None ∷ []) }
    ensures rest { let two = played Reliable resumption in
        (two.a.sending.current ≡ None) × (two.a.link.turn ≡ true) × (two.b.receiving.was_handed
        ≡ true)
        × (two.to_a ≡ []) × (two.to_b ≡ []) }
{}

/// In bare mode an invocation is linked to an open one; once that has its result the same link is
/// refused.
pub fn link_to_a_closed_parent()
    ensures replies { let two = played Bare linked in
        two.replies ≡ Ok (Some (pos 1)) ∷ Ok (Some (pos 1)) ∷ Ok None
        ∷ Err (refusals.ParentClosed (pos 1)) ∷ [] }
    ensures told { let two = played Bare linked in
        (two.told_a
        ≡ indications.Invoked (pos 1) 1 (Some (pos 1)) None ∷ indications.Result (pos 1) None ∷ [])
        × (two.told_b ≡ indications.Invoked (pos 1) 0 None None ∷ []) }
{}

/// In bare mode a result that comes again brings a reject, and nothing ends.
pub fn second_result_is_rejected()
    ensures told { (result_twice.told_a ≡ indications.Result (pos 1) None
        ∷ indications.RejectSent (Some (pos 1)) (record {
          kind = problems.Result;
          number = pos 0;
        }) ∷ [])
        × (result_twice.told_b ≡ indications.Invoked (pos 1) 0 None None
        ∷ indications.RejectTaken (Some (pos 1)) (record {
          kind = problems.Result;
          number = pos 0;
        }) ∷ []) }
    ensures phases { (result_twice.a.link.phase ≡ phases.Up) ×
        (result_twice.b.link.phase ≡ phases.Up) }
{}

/// An answer to a restart that nobody asked for ends the association from the taker's side.
pub fn unasked_answer_aborts()
    ensures told { (unasked.told_b
        ≡ indications.Opened ∷ indications.Aborted true layers.Session 0 0 ∷ [])
        × (unasked.told_a
        ≡ indications.Opened ∷ indications.Aborted false layers.Session 0 0 ∷ []) }
    ensures phases { (unasked.a.link.phase ≡ phases.Over) × (unasked.b.link.phase ≡ phases.Over) }
{}

/// In bare mode an opening finds the wrong phase, a responder may not open, and marks aren't
/// negotiated.
pub fn bare_mode_refuses()
    ensures replies { let two = played Bare [] in
        (can_call (base_for true Bare) two.a the_calls.Open ≡ Err (refusals.WrongPhase phases.Up))
        × (can_call (base_for false Bare) two.b the_calls.Open ≡ Err refusals.NotInitiator)
        × (can_call (base_for true Bare) two.a the_calls.Mark ≡ Err refusals.NotNegotiated) }
{}
