//! Worked messages of direct mode, read from their octets, and faulty ones.

ghost use Rattle.std.specs.Prelude.{◌≡◌, [], ◌∷◌, Some, None, Ok, Err, true, false};
ghost use Rattle.osi_base.specs.declared.syntax.Syntax.TheVariants.{Ber, Packed};
ghost use Rattle.osi_base.specs.declared.layer_words.Layer.TheVariants as layers;
ghost use Rattle.dialogue.specs.declared.config.Mode.TheVariants.{Direct};
ghost use Rattle.association_wire.specs.end_rules.Messages.{Mark, Please, Restart, RestartAck, OfMarks, Session};
ghost use Rattle.association_wire.specs.end_rules.TakesTransport.{answer_to_request};
ghost use Rattle.association_wire.specs.end_rules.Writing.{connection_request, finish_message, disconnect_message, user_abort, provider_abort, session_abort, give_message, please_message};
ghost use Rattle.association_wire.specs.end_rules.Faults.{fault_at, session_fault};
ghost use Rattle.association_wire.specs.Cases as row;
ghost use Rattle.association_reading.specs.Cases as case;

/// The transport connection: CR and CC; less than a packet, and a packet of another version.
pub fn connection_is_read()
    ensures request { case.read_as case.up row.request_octets
        ≡ Some (Ok (connection_request case.base)) }
    ensures confirm { case.read_as case.up row.confirm_octets
        ≡ Some (Ok (answer_to_request 1 (Some 10) true)) }
    ensures half { case.read_as case.up case.half_octets ≡ None }
    ensures version { case.read_as case.up case.other_version_octets
        ≡ Some (Err (fault_at layers.Transport 0 0)) }
{}

/// An invocation on a context in BER, and on one in the packed syntax.
pub fn values_are_read()
    ensures ber { case.read_as case.up row.invoke_octets ≡ Some (Ok (row.add_five 5 Ber)) }
    ensures packed { case.read_as case.up row.packed_invoke_octets
        ≡ Some (Ok (row.add_five 9 Packed)) }
{}

/// In a module that has the name of association control, data carry its values, and a release those
/// of association control.
pub fn namesakes_are_told_apart()
    ensures invocation { case.read_by case.namesake_base case.namesake_up row.invoke_octets
        ≡ Some (Ok case.namesake_five) }
    ensures release { case.read_by case.namesake_base case.namesake_up row.finish_octets
        ≡ Some (Ok (finish_message case.namesake_up)) }
{}

/// An addition and a deletion, and their answers.
pub fn alterations_are_read()
    ensures addition { case.read_as case.up row.alteration_octets ≡ Some (Ok row.addition) }
    ensures addition_answer { case.read_as case.up row.alteration_answer_octets
        ≡ Some (Ok row.addition_answer) }
    ensures deletion { case.read_as case.up row.deletion_octets ≡ Some (Ok row.deletion) }
    ensures deletion_answer { case.read_as case.up row.deletion_answer_octets
        ≡ Some (Ok row.deletion_answer) }
{}

/// A mark, a restart and its answer, the token given and asked for, and a giving in front of a
/// mark, which are two messages.
pub fn marks_are_read()
    ensures mark { case.read_as case.up row.mark_octets
        ≡ Some (Ok (Session (OfMarks (Mark 1)))) }
    ensures restart { case.read_as case.up row.restart_octets
        ≡ Some (Ok (Session (OfMarks (Restart 2 (Some row.restored))))) }
    ensures answer { case.read_as case.up row.restart_answer_octets
        ≡ Some (Ok (Session (OfMarks (RestartAck 2 (Some row.restored))))) }
    ensures give { case.read_as case.up row.give_octets ≡ Some (Ok (give_message Direct)) }
    ensures please { case.read_as case.up row.please_octets
        ≡ Some (Ok (please_message case.up Direct 3)) }
    ensures given { case.read_as case.up case.given_and_marked_octets
        ≡ Some (Ok (give_message Direct)) }
    ensures two { case.how_many case.given_and_marked_octets ≡ 2 }
    ensures empty { case.read_as case.up case.pleaded_and_marked_octets
        ≡ Some (Ok (Session (OfMarks (Please None [])))) }
{}

/// A release and its answer.
pub fn release_is_read()
    ensures finish { case.read_as case.up row.finish_octets ≡ Some (Ok (finish_message case.up)) }
    ensures disconnect { case.read_as case.up row.disconnect_octets
        ≡ Some (Ok (disconnect_message case.up)) }
{}

/// An abort of the user, of the presentation and of the session.
pub fn aborts_are_read()
    ensures user { case.read_as case.up row.user_abort_octets
        ≡ Some (Ok (user_abort row.accepted 0 [])) }
    ensures provider { case.read_as case.up row.provider_abort_octets
        ≡ Some (Ok (provider_abort 6)) }
    ensures session { case.read_as case.up row.session_abort_octets ≡ Some (Ok session_abort) }
{}

/// Values that may not stand where they came: on a context that isn't there, with another transfer
/// syntax name, in a form that isn't read, and an APDU of association control that can't be read.
pub fn faulty_values_are_told()
    ensures absent { case.read_as case.up_without_nine row.packed_invoke_octets
        ≡ Some (Err (fault_at layers.Presentation 10 6)) }
    ensures name { case.read_as case.up case.named_invoke_octets
        ≡ Some (Err (fault_at layers.Presentation 10 6)) }
    ensures bits { case.read_as case.up case.bits_octets
        ≡ Some (Err (fault_at layers.Presentation 11 6)) }
    ensures single { case.read_as case.up case.single_packed_octets
        ≡ Some (Err (fault_at layers.Presentation 11 6)) }
    ensures acse { case.read_as case.up case.unreadable_acse_octets
        ≡ Some (Err (fault_at layers.Acse 2 0)) }
{}

/// Units that break a grammar, of the session and of the presentation, and one out of place.
pub fn faulty_units_are_told()
    ensures unknown { case.fault_of case.up case.unknown_unit_octets
        ≡ Some (fault_at layers.Session 0 0) }
    ensures lacking { case.fault_of case.up case.bare_confirm_octets
        ≡ Some (fault_at layers.Session 4 0) }
    ensures ppdu { case.fault_of case.up case.unknown_ppdu_octets
        ≡ Some (fault_at layers.Presentation 2 1) }
    ensures arp { case.fault_of case.up case.bare_arp_octets
        ≡ Some (fault_at layers.Presentation 9 6) }
    ensures mark { case.fault_of case.up case.seventh_mark_octets ≡ Some session_fault }
{}
