//! The worked cases: each is a run, and the definitions compute what it leaves.

ghost use Rattle.std.specs.Prelude.{◌≡◌, true, false, [], ◌∷◌, ◌++◌, Some, None};
ghost use Rattle.agreement.specs.Sets.{next_number, lookup};
ghost use Rattle.agreement.specs.Sets.Role.{Initiator, Responder};
ghost use Rattle.agreement.specs.Sets.Item.{Addition};
ghost use Rattle.agreement.specs.Sets.Result.{AcceptedAs};
ghost use Rattle.agreement.specs.Messages.Problem.{OfResult, OfError};
ghost use Rattle.agreement.specs.Messages.Apdu.{Invoke, Reject};
ghost use Rattle.agreement.specs.Messages.Message.{Alter};
ghost use Rattle.agreement.specs.Messages.Act.{SaysValue, Alters};
ghost use Rattle.agreement.specs.Messages.Choice.{Results};
ghost use Rattle.agreement.specs.Messages.Mode.{Bare, Direct, Reliable};
ghost use Rattle.agreement.specs.State.{highest};
ghost use Rattle.agreement.specs.State.Phase.{Up, Over};
ghost use Rattle.agreement.specs.State.Awaited.{NoAnswer};
ghost use Rattle.agreement.specs.State.Progress.{Suspended};
ghost use Rattle.agreement.specs.Acts.{has_progress, confirmed_of};
ghost use Rattle.agreement.specs.Cases.{Happens, Leaves, Arrive, Refuses, Declines, Carries, opening, in_packed, in_unknown, outcome, invoked_once, answered_once, wide_opening, late_result, late_error, offered_twice, accepted_known, adds, two_in_flight, two_answered, four_in_flight, four_lost, withdrawn, refused_transport, IsFaithful, acse_in_ber, with_five, in_ber, collision, use_rejected, addition_dropped, lower_wins, tie_won, read_by_mark, interrupted, discarded, resumed_from_mark, resumed_from_nothing, completed_resumed, giving_lost, giving_taken, recovery_broken};

/// The codec of the cases is faithful.
pub fn plain_codec_is_faithful()
    ensures law { IsFaithful }
{}

/// Two deletions of one context that cross are both accepted: it is absent at both ends.
pub fn alterations_collide()
    ensures run { Happens Direct collision }
    ensures outcome { Leaves Direct collision
        (λ a b. (a.sets.held ≡ acse_in_ber ∷ []) × (b.sets.held ≡ acse_in_ber ∷ []) ×
        (a.sets.own ≡ []) × (b.sets.own ≡ [])) }
{}

/// A deletion of a context on which an invocation is on its way is rejected, and the invocation is
/// taken.
pub fn deletion_rejected_for_use()
    ensures run { Happens Direct use_rejected }
    ensures outcome { Leaves Direct use_rejected
        (λ a b. (a.sets.held ≡ with_five in_ber) × (b.sets.held ≡ with_five in_ber) ×
        (a.sets.own ≡ []) × (a.calls.peer_open ≡ record { number = 1; operation = 1; context = 5 }
        ∷ [])) }
{}

/// A restart drops an addition that was not taken: both ends have the set of mark 1, and the next
/// mark is 2.
pub fn restart_drops_an_addition()
    ensures run { Happens Direct addition_dropped }
    ensures outcome { Leaves Direct addition_dropped
        (λ a b. (a.sets.held ≡ with_five in_ber) × (b.sets.held ≡ with_five in_ber) ×
        (a.sets.own ≡ []) × (next_number a.saved ≡ 2) × (next_number b.saved ≡ 2)) }
{}

/// Restarts to 3 and to 2 cross: the one to 2 wins, the next mark is 2, and the initiator has the
/// token.
pub fn lower_restart_wins()
    ensures run { Happens Direct lower_wins }
    ensures outcome { Leaves Direct lower_wins
        (λ a b. (next_number a.saved ≡ 2) × (next_number b.saved ≡ 2) × (a.awaits ≡ NoAnswer) ×
        (b.awaits ≡ NoAnswer) × (a.turn ≡ true) × (b.turn ≡ false)) }
{}

/// Restarts to 2 and to 2 cross: the initiator's wins.
pub fn initiator_wins_a_tie()
    ensures run { Happens Direct tie_won }
    ensures outcome { Leaves Direct tie_won
        (λ a b. (next_number a.saved ≡ 2) × (next_number b.saved ≡ 2) × (a.awaits ≡ NoAnswer) ×
        (b.awaits ≡ NoAnswer) × (a.turn ≡ true) × (b.turn ≡ false)) }
{}

/// A context that was deleted and added as packed after mark 1 is read in BER again after a restart
/// to 2.
pub fn restart_brings_back_a_pair()
    ensures run { Happens Direct read_by_mark }
    ensures outcome { Leaves Direct read_by_mark
        (λ a b. (a.sets.held ≡ with_five in_ber) × (b.sets.held ≡ with_five in_ber) ×
        (b.calls.peer_open ≡ record { number = 1; operation = 1; context = 5 } ∷ [])) }
    ensures arrivals { Arrive Direct read_by_mark [] (1 ∷ []) }
{}

/// An interrupt: the confirmation of mark 1 is passed over, and the transfer is suspended.
pub fn interrupt_passes_over_confirmations()
    ensures run { Happens Reliable interrupted }
    ensures outcome { Leaves Reliable interrupted
        (λ a b. (has_progress Suspended a.outgoing.transfer) × (confirmed_of a.outgoing.transfer
        ≡ 0) × (a.awaits ≡ NoAnswer) × (b.incoming.active ≡ false) ×
        (highest b.incoming.pieces ≡ 1)) }
{}

/// A discard: the transfer and its invocation are gone at the sender, and the receiver keeps the
/// number alone.
pub fn discard_forgets()
    ensures run { Happens Reliable discarded }
    ensures outcome { Leaves Reliable discarded
        (λ a b. (a.outgoing.transfer ≡ None) × (a.calls.own_open ≡ []) × (b.incoming.last ≡ 1) ×
        (b.incoming.pieces ≡ []) × (b.incoming.was_handed ≡ false)) }
    ensures arrivals { Arrive Reliable discarded [] [] }
{}

/// A transfer is resumed from its confirmed mark over a new connection, and is handed up once.
pub fn resumption_from_a_mark()
    ensures run { Happens Reliable resumed_from_mark }
    ensures outcome { Leaves Reliable resumed_from_mark
        (λ a b. (a.outgoing.transfer ≡ None) × (highest b.incoming.pieces ≡ 2) ×
        (b.incoming.was_handed ≡ true) × (b.calls.peer_open ≡ record {
          number = 1;
          operation = 1;
          context = 5;
        } ∷ [])) }
    ensures arrivals { Arrive Reliable resumed_from_mark (1 ∷ []) (1 ∷ []) }
{}

/// A transfer without a confirmed mark is encoded anew, as the item of its activity, and is handed
/// up once.
pub fn resumption_from_nothing()
    ensures run { Happens Reliable resumed_from_nothing }
    ensures outcome { Leaves Reliable resumed_from_nothing
        (λ a b. (a.outgoing.transfer ≡ None) × (highest b.incoming.pieces ≡ 0) ×
        (b.incoming.was_handed ≡ true) × (b.calls.peer_open ≡ record {
          number = 1;
          operation = 1;
          context = 5;
        } ∷ [])) }
    ensures arrivals { Arrive Reliable resumed_from_nothing (1 ∷ []) (1 ∷ []) }
    ensures items { Carries Reliable resumed_from_nothing (1 ∷ 1 ∷ [])
        (record { context = 5; apdu = Invoke 1 1 None (5 ∷ []) } ∷ []) }
{}

/// A completed activity that is resumed is confirmed again, and nothing is handed up.
pub fn completed_activity_resumed()
    ensures run { Happens Reliable completed_resumed }
    ensures outcome { Leaves Reliable completed_resumed
        (λ a b. (a.outgoing.transfer ≡ None) × (b.incoming.last ≡ 1) ×
        (b.calls.peer_open ≡ record { number = 1; operation = 1; context = 5 } ∷ [])) }
    ensures arrivals { Arrive Reliable completed_resumed (1 ∷ []) (1 ∷ []) }
{}

/// A giving that a break cuts before it is taken: the turn is at the initiator.
pub fn giving_lost_in_a_break()
    ensures run { Happens Reliable giving_lost }
    ensures outcome { Leaves Reliable giving_lost
        (λ a b. (a.phase ≡ Up) × (b.phase ≡ Up) × (a.turn ≡ true) × (b.turn ≡ false)) }
{}

/// A giving that was taken before a break: after the recovery the turn is at the initiator.
pub fn giving_taken_before_a_break()
    ensures run { Happens Reliable giving_taken }
    ensures outcome { Leaves Reliable giving_taken
        (λ a b. (a.phase ≡ Up) × (b.phase ≡ Up) × (a.turn ≡ true) × (b.turn ≡ false)) }
{}

/// A recovery whose acceptance is lost is made again, and the transfer goes on.
pub fn recovery_that_breaks()
    ensures run { Happens Reliable recovery_broken }
    ensures outcome { Leaves Reliable recovery_broken
        (λ a b. (a.phase ≡ Up) × (b.phase ≡ Up) × (a.turn ≡ true) × (b.incoming.active ≡ true) ×
        (b.incoming.last ≡ 1)) }
{}

/// At first the turn is at the initiator, in every mode.
pub fn turn_at_first()
    ensures bare { Leaves Bare [] (λ a b. (a.turn ≡ true) × (b.turn ≡ false)) }
    ensures direct { Leaves Direct [] (λ a b. (a.turn ≡ true) × (b.turn ≡ false)) }
    ensures reliable { Leaves Reliable [] (λ a b. (a.turn ≡ true) × (b.turn ≡ false)) }
{}

/// An invocation gets the outcome that its operation has, and no other.
pub fn outcome_of_its_operation()
    ensures run { Happens Direct answered_once }
    ensures outcome { Leaves Direct answered_once
        (λ a b. (a.calls.own_open ≡ []) × (b.calls.peer_open ≡ [])) }
    ensures refused { Refuses Direct invoked_once Responder (SaysValue (outcome (2 ∷ 0 ∷ []))) }
{}

/// A value that the codec may not write is not said.
pub fn unwritable_value_refused()
    ensures run { Happens Direct wide_opening }
    ensures refused { Refuses Direct wide_opening Initiator
        (SaysValue (record { identifier = 40001; pair = in_ber; apdu = Invoke 1 1 None [] })) }
{}

/// A late result and a late error are rejected, each with its own problem.
pub fn rejects_tell_their_problem()
    ensures run_result { Happens Reliable late_result }
    ensures result { Leaves Reliable late_result
        (λ a b. (a.outgoing.queue ≡ record { context = 5; apdu = Reject 1 (OfResult 0) } ∷ []) ×
        (b.calls.peer_open ≡ [])) }
    ensures run_error { Happens Reliable late_error }
    ensures error { Leaves Reliable late_error
        (λ a b. (a.outgoing.queue ≡ record { context = 5; apdu = Reject 1 (OfError 0) } ∷ []) ×
        (b.calls.peer_open ≡ [])) }
{}

/// Of two offers the one in a syntax that the ends know is accepted.
pub fn unknown_syntax_declined()
    ensures run { Happens Direct accepted_known }
    ensures outcome { Leaves Direct accepted_known (λ a b. (lookup a.sets.held 7 ≡ Some in_packed) ×
        (lookup b.sets.held 7 ≡ Some in_packed)) }
    ensures declined { Declines Direct offered_twice Responder
        (Alter (Addition 7 (in_unknown ∷ in_packed ∷ []) ∷ []))
        (Results (AcceptedAs in_unknown ∷ [])) }
{}

/// Two alterations in flight are answered in their order.
pub fn alterations_answered_in_order()
    ensures run { Happens Direct two_answered }
    ensures first { Leaves Direct two_in_flight
        (λ a b. (a.sets.held ≡ acse_in_ber ∷ []) × (a.sets.own ≡ (Addition 7 (in_packed ∷ []) ∷ [])
        ∷ [])) }
    ensures outcome { Leaves Direct two_answered
        (λ a b. (a.sets.held ≡ b.sets.held) × (lookup a.sets.held 5 ≡ None) ×
        (lookup a.sets.held 7 ≡ Some in_packed) × (a.sets.own ≡ [])) }
{}

/// Four additions are in flight, no fifth is asked for, nor one that names the same context; a
/// restart of the other end drops all four.
pub fn restart_drops_four_additions()
    ensures run { Happens Direct four_lost }
    ensures outcome { Leaves Direct four_lost
        (λ a b. (a.sets.held ≡ with_five in_ber) × (b.sets.held ≡ with_five in_ber) ×
        (a.sets.own ≡ []) × (next_number a.saved ≡ 2) × (next_number b.saved ≡ 2)) }
    ensures fifth { Refuses Direct four_in_flight Initiator
        (Alters (Addition 15 (in_packed ∷ []) ∷ [])) }
    ensures same { Refuses Direct (opening ++ adds 7 ∷ []) Initiator
        (Alters (Addition 7 (in_packed ∷ []) ∷ [])) }
{}

/// An initiator that withdraws before a recovery cuts its invocations; where the new transport
/// connection is refused they stay open.
pub fn refused_transport_leaves_calls()
    ensures run_withdrawn { Happens Reliable withdrawn }
    ensures withdrawn { Leaves Reliable withdrawn
        (λ a b. (a.phase ≡ Over) × (a.calls.own_open ≡ [])) }
    ensures run { Happens Reliable refused_transport }
    ensures outcome { Leaves Reliable refused_transport
        (λ a b. (a.phase ≡ Over) × (a.calls.own_open ≡ record {
          number = 1;
          operation = 1;
          context = 5;
        } ∷ [])) }
{}
