//! Worked messages of direct mode, with their octets.

ghost use Rattle.std.specs.Prelude.{◌≡◌, [], ◌∷◌, Some, true, false};
ghost use Rattle.osi_base.specs.declared.syntax.Syntax.TheVariants.{Ber, Packed};
ghost use Rattle.dialogue.specs.declared.config.Mode.TheVariants.{Direct};
ghost use Rattle.end_rules.specs.State.{new_body};
ghost use Rattle.end_rules.specs.Messages.{DisconnectRequest, Mark, Restart, RestartAck, OfMarks, Session, Transport};
ghost use Rattle.end_rules.specs.TakesTransport.{answer_to_request};
ghost use Rattle.end_rules.specs.Writing.{connection_request, finish_message, disconnect_message, user_abort, provider_abort, session_abort, give_message, please_message};
ghost use Rattle.association_wire.specs.Written.{written};
ghost use Rattle.association_wire.specs.Cases as row;

/// The transport connection: CR and CC, and DR where a CR is refused.
pub fn connection_is_written()
    ensures request { written row.calc 1024 (connection_request row.initiator)
        ≡ row.request_octets }
    ensures confirm { written row.calc 1024 (answer_to_request 1 (Some 10) true)
        ≡ row.confirm_octets }
    ensures refusal { written row.calc 1024 (Transport (DisconnectRequest 1))
        ≡ row.refusal_octets }
{}

/// An invocation on a context in BER, and on one in the packed syntax.
pub fn values_are_written()
    ensures ber { written row.calc 1024 (row.add_five 5 Ber) ≡ row.invoke_octets }
    ensures packed { written row.calc 1024 (row.add_five 9 Packed) ≡ row.packed_invoke_octets }
{}

/// An addition and a deletion, and their answers.
pub fn alterations_are_written()
    ensures addition { written row.calc 1024 row.addition ≡ row.alteration_octets }
    ensures addition_answer { written row.calc 1024 row.addition_answer
        ≡ row.alteration_answer_octets }
    ensures deletion { written row.calc 1024 row.deletion ≡ row.deletion_octets }
    ensures deletion_answer { written row.calc 1024 row.deletion_answer
        ≡ row.deletion_answer_octets }
{}

/// A mark, a restart and its answer, and the token given and asked for.
pub fn marks_are_written()
    ensures mark { written row.calc 1024 (Session (OfMarks (Mark 1))) ≡ row.mark_octets }
    ensures restart { written row.calc 1024 (Session (OfMarks (Restart 2 (Some row.restored))))
        ≡ row.restart_octets }
    ensures answer { written row.calc 1024 (Session (OfMarks (RestartAck 2 (Some row.restored))))
        ≡ row.restart_answer_octets }
    ensures give { written row.calc 1024 (give_message Direct) ≡ row.give_octets }
    ensures please { written row.calc 1024 (please_message (new_body row.initiator) Direct 3)
        ≡ row.please_octets }
{}

/// A release and its answer.
pub fn release_is_written()
    ensures finish { written row.calc 1024 (finish_message row.up) ≡ row.finish_octets }
    ensures disconnect { written row.calc 1024 (disconnect_message row.up) ≡ row.disconnect_octets }
{}

/// An abort of the user, of the presentation and of the session.
pub fn aborts_are_written()
    ensures user { written row.calc 1024 (user_abort row.accepted 0 []) ≡ row.user_abort_octets }
    ensures provider { written row.calc 1024 (provider_abort 6) ≡ row.provider_abort_octets }
    ensures session { written row.calc 1024 session_abort ≡ row.session_abort_octets }
{}
