//! The worked histories: what the rules compute of openings, of transfers with marks, breaks,
//! recoveries, interrupts, discards and givings. Each is reached.

ghost use Rattle.std.specs.Prelude.{◌≡◌, pos, [], ◌∷◌, Some, None, true, false};
ghost use Rattle.dialogue.specs.declared.config.Phase.TheVariants as phases;
ghost use Rattle.dialogue.specs.declared.indication.Indication.TheVariants as indications;
ghost use Rattle.end_rules.specs.State.{is_current, is_suspended, is_running, confirmed_of, pieces_of, highest};
ghost use Rattle.end_rules.specs.Messages.{OfActivities, Session, Start};
ghost use Rattle.end_rules.specs.ByItself.{SendsNow, next_own};
ghost use Rattle.agreement.specs.Sets.Role.{Initiator, Responder};
ghost use Rattle.end_model.specs.BothEnds.{base_at};
ghost use Rattle.reliable_cases.specs.Played.{Leads, PlayedIsReached};
ghost use Rattle.reliable_cases.specs.Events.{calc_common, opening, begun, transferred, broken, resumed, confirmed_again, interrupted, interrupted_resumed, discarded, next_after_discard, given, broken_giving, without_turn, end_unconfirmed};
ghost use Rattle.reliable_cases.specs.Copies.{next_without_turn, next_early};

/// What is played is reached: each event is a step of two ends.
pub fn played_is_reached()
    ensures law { PlayedIsReached }
{}

/// An opening: both ends are up and told it, and the turn is at the initiator.
pub fn opening_is_up()
    ensures up { Leads calc_common opening (λ place.
        (place.two.a.link.phase ≡ phases.Up)
        × (place.two.b.link.phase ≡ phases.Up)
        × (place.two.a.link.turn ≡ true)
        × (place.two.b.link.turn ≡ false)
        × (place.told_a ≡ indications.Opened ∷ [])
        × (place.told_b ≡ indications.Opened ∷ [])) }
{}

/// A transfer waits at two marks, which is the window: the end makes no step by itself.
pub fn window_is_full()
    ensures full { Leads calc_common begun (λ place.
        (is_current is_running place.two.a.sending.current ≡ true)
        × (next_own (base_at Initiator calc_common) place.two.a ≡ None)
        × (confirmed_of place.two.a.sending.current ≡ 0)
        × (highest (pieces_of place.two.a.sending.current) ≡ 2)) }
{}

/// A transfer with two marks: A is told the opening and the transfer, B the opening and the
/// invocation, and neither is told anything else.
pub fn transfer_is_whole()
    ensures whole { Leads calc_common transferred (λ place.
        (place.told_a ≡ indications.Opened ∷ indications.Transferred 1 ∷ [])
        × (place.told_b ≡ indications.Opened ∷ indications.Invoked (pos 1) 0 None None ∷ [])
        × (place.ledger.transfer_logs.b.arrived ≡ 1 ∷ [])
        × (place.two.a.sending.current ≡ None)) }
{}

/// A break before the end, and a recovery: the transfer is suspended, and mark 1 is confirmed.
pub fn break_suspends()
    ensures suspended { Leads calc_common broken (λ place.
        (place.told_a ≡ indications.Opened ∷ indications.Recovered ∷ [])
        × (place.told_b ≡ indications.Opened ∷ indications.Recovered ∷ [])
        × (is_current is_suspended place.two.a.sending.current ≡ true)
        × (confirmed_of place.two.a.sending.current ≡ 1)
        × (place.ledger.transfer_logs.b.arrived ≡ [])) }
{}

/// The resumption goes on behind mark 1, and all arrives once.
pub fn resumption_goes_on()
    ensures resumed { Leads calc_common resumed (λ place.
        (place.told_a ≡ indications.Opened ∷ indications.Recovered ∷ indications.Transferred 1 ∷ [])
        × (place.told_b ≡ indications.Opened ∷ indications.Recovered ∷ indications.Resumed 1 1
        ∷ indications.Invoked (pos 1) 0 None None ∷ [])
        × (place.ledger.transfer_logs.b.arrived ≡ 1 ∷ [])
        × (place.two.a.sending.current ≡ None)) }
{}

/// The confirmation of an end is lost: the end comes again, is confirmed again, and nothing is
/// handed up twice.
pub fn end_is_confirmed_again()
    ensures again { Leads calc_common confirmed_again (λ place.
        (place.told_a ≡ indications.Opened ∷ indications.Recovered ∷ indications.Transferred 1 ∷ [])
        × (place.told_b ≡ indications.Opened ∷ indications.Invoked (pos 1) 0 None None
        ∷ indications.Recovered ∷ indications.Resumed 1 2 ∷ [])
        × (place.ledger.transfer_logs.b.arrived ≡ 1 ∷ [])
        × (place.two.a.sending.current ≡ None)) }
{}

/// An interrupt: both ends are told it, and the transfer is suspended.
pub fn interrupt_suspends()
    ensures interrupted { Leads calc_common interrupted (λ place.
        (place.told_a ≡ indications.Opened ∷ indications.Interrupted 1 ∷ [])
        × (place.told_b ≡ indications.Opened ∷ indications.Interrupted 1 ∷ [])
        × (is_current is_suspended place.two.a.sending.current ≡ true)) }
{}

/// A discard: the invocation in the transfer is cut, and nothing was handed up.
pub fn discard_cuts()
    ensures discarded { Leads calc_common discarded (λ place.
        (place.told_a
        ≡ indications.Opened ∷ indications.Cut true (pos 1) ∷ indications.Discarded 1 ∷ [])
        × (place.told_b ≡ indications.Opened ∷ indications.Discarded 1 ∷ [])
        × (place.ledger.transfer_logs.b.arrived ≡ [])
        × (place.two.a.sending.current ≡ None)
        × (place.two.a.sending.started ≡ 1)) }
{}

/// A giving: the responder has the turn, and is told so.
pub fn giving_hands_the_turn()
    ensures given { Leads calc_common given (λ place.
        (place.told_b
        ≡ indications.Opened ∷ indications.Invoked (pos 1) 0 None None ∷ indications.Turn ∷ [])
        × (place.two.a.link.turn ≡ false)
        × (place.two.b.link.turn ≡ true)) }
{}

/// A break while a giving is on its way back: the turn is at the initiator again.
pub fn broken_giving_returns_the_turn()
    ensures back { Leads calc_common broken_giving (λ place.
        (place.told_a ≡ indications.Opened ∷ indications.Transferred 1 ∷ indications.Recovered ∷ [])
        × (place.two.a.link.turn ≡ true)
        × (place.two.b.link.turn ≡ false)) }
{}

/// A resumption after an interrupt goes on behind the last confirmed mark.
pub fn interrupted_goes_on()
    ensures resumed { Leads calc_common interrupted_resumed (λ place.
        (place.told_a
        ≡ indications.Opened ∷ indications.Interrupted 1 ∷ indications.Transferred 1 ∷ [])
        × (place.told_b ≡ indications.Opened ∷ indications.Interrupted 1 ∷ indications.Resumed 1 1
        ∷ indications.Invoked (pos 1) 0 None None ∷ [])
        × (place.ledger.transfer_logs.b.arrived ≡ 1 ∷ [])
        × (place.two.a.sending.current ≡ None)) }
{}

/// After a discard the next transfer has the next number, and only it is handed up.
pub fn number_of_discarded_is_spent()
    ensures next { Leads calc_common next_after_discard (λ place.
        (place.told_a ≡ indications.Opened ∷ indications.Cut true (pos 1) ∷ indications.Discarded 1
        ∷ indications.Transferred 2 ∷ [])
        × (place.told_b ≡ indications.Opened ∷ indications.Discarded 1
        ∷ indications.Invoked (pos 1) 0 None None ∷ [])
        × (place.ledger.transfer_logs.b.arrived ≡ 2 ∷ [])) }
{}

/// An end that has an invocation to send and not the turn does nothing by itself. One that leads
/// without the turn starts an activity.
pub fn nothing_starts_without_the_turn()
    ensures waits { Leads calc_common without_turn (λ place.
        (next_own (base_at Responder calc_common) place.two.b ≡ None)
        × (next_without_turn (base_at Responder calc_common) place.two.b
        ≡ Some (SendsNow (Session (OfActivities (Start 1)))))) }
{}

/// While the end of a transfer isn't confirmed the invocation behind it waits. An end that starts
/// the next item before the end is confirmed starts activity 2.
pub fn next_item_waits_for_the_end()
    ensures waits { Leads calc_common end_unconfirmed (λ place.
        (next_own (base_at Initiator calc_common) place.two.a ≡ None)
        × (next_early (base_at Initiator calc_common) place.two.a
        ≡ Some (SendsNow (Session (OfActivities (Start 2)))))) }
{}
