//! The worked rows: each is a contract of a function with an empty body.

ghost use Rattle.std.specs.Prelude.{◌≡◌, [], ◌∷◌, Some, None, pos, true, false};
ghost use Rattle.osi_base.specs.declared.layer_words.Side.TheVariants.{A, B};
ghost use Rattle.end_rules.specs.Cases.{calc};
ghost use Rattle.bare_duo.specs.Allowed.{may_take};
ghost use Rattle.bare_duo.specs.Carrying.{whole_within};
ghost use Rattle.bare_duo.specs.Cases.{a_reject, a_result, invoking, nothing_open, of_three, of_two, one_answered, own_add, peer_add, the_first};
ghost use Rattle.run_laws.specs.Outcomes.{answers, invocations, outcomes, returned, told_invocations};

/// One invocation and its result, as a transcript tells them.
pub fn one_answer_is_told()
    ensures invoked { invocations A one_answered ≡ the_first ∷ [] }
    ensures told { told_invocations B one_answered ≡ the_first ∷ [] }
    ensures answered { answers B one_answered ≡ returned (pos 1) None ∷ [] }
    ensures outcome { outcomes A one_answered ≡ returned (pos 1) None ∷ [] }
    ensures none { outcomes B one_answered ≡ [] }
{}

/// A result may be taken while its invocation is open, and not after; a reject never.
pub fn outcomes_of_open_invocations()
    ensures open_one { may_take calc own_add a_result ≡ true }
    ensures closed { may_take calc nothing_open a_result ≡ false }
    ensures of_the_peer { may_take calc peer_add a_result ≡ false }
    ensures reject { may_take calc own_add a_reject ≡ false }
{}

/// `add` may be invoked while its identifier is free; `ask` may be linked to an open `add`, and to
/// nothing else, nor `add` to it; an unknown operation may not come.
pub fn invocations_with_links()
    ensures free { may_take calc nothing_open (invoking None 1) ≡ true }
    ensures taken { may_take calc peer_add (invoking None 1) ≡ false }
    ensures linked { may_take calc own_add (invoking (Some (pos 1)) 3) ≡ true }
    ensures unlinked { may_take calc own_add (invoking (Some (pos 1)) 1) ≡ false }
    ensures nothing { may_take calc own_add (invoking (Some (pos 2)) 3) ≡ false }
    ensures unknown { may_take calc nothing_open (invoking None 7) ≡ false }
{}

/// Of a message of two octets and one of three behind it: which have their last octet among the
/// first so many.
pub fn last_octets_count()
    ensures one { whole_within calc 1 (of_two ∷ of_three ∷ []) ≡ [] }
    ensures two { whole_within calc 2 (of_two ∷ of_three ∷ []) ≡ of_two ∷ [] }
    ensures four { whole_within calc 4 (of_two ∷ of_three ∷ []) ≡ of_two ∷ [] }
    ensures five { whole_within calc 5 (of_two ∷ of_three ∷ []) ≡ of_two ∷ of_three ∷ [] }
{}
