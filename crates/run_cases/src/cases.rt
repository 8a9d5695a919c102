//! The worked runs, message by message: each is a contract of a function with an empty body.

ghost use Rattle.std.specs.Prelude.{◌≡◌, [], ◌∷◌, length, map, pos, true, false, Some, None};
ghost use Rattle.osi_base.specs.declared.layer_words.Side.TheVariants.{A, B};
ghost use Rattle.dialogue.specs.declared.config.Mode.TheVariants.{Direct, Reliable};
ghost use Rattle.end_rules.specs.World.{shared_at, holds_at};
ghost use Rattle.end_rules.specs.Cases.{opening, collision, crossing_restarts, transfer};
ghost use Rattle.end_rules.specs.Cases.{acse_alone, with_five, with_seven, in_ber, module_name};
ghost use Rattle.run_laws.specs.Passing.{readings, sendings};
ghost use Rattle.run_laws.specs.Transfers.{arrivals, encodings};
ghost use Rattle.run_cases.specs.Cases.{ends_in, world_of, all_read, pairs_sent, pairs_read};
ghost use Rattle.run_cases.specs.Cases.{answered_once, broken_off, crossed_deletion, deleted_later};
ghost use Rattle.run_cases.specs.Copies.{pairs_by, set_dropping, set_newest};

/// An opening in direct mode: each message is taken as it was sent, the accepted contexts are
/// shared, and the initiator alone holds the token.
pub fn opening_is_taken_as_sent()
    ensures read { let w = world_of Direct opening in
        (readings B w ≡ all_read (sendings (ends_in Direct) A w))
        × (readings A w ≡ all_read (sendings (ends_in Direct) B w)) }
    ensures shared { (shared_at (ends_in Direct) (world_of Direct opening)).set ≡ with_five }
    ensures holder { let w = world_of Direct opening in
        (holds_at (ends_in Direct) A w ≡ true) × (holds_at (ends_in Direct) B w ≡ false) }
{}

/// An invocation and its result: both are taken as they were sent, each under the pair that its
/// context shared at the sending. A break ends the connection, and what was on its way is lost.
pub fn values_are_taken_as_sent()
    ensures invocation { let w = world_of Direct answered_once in
        (pairs_sent (sendings (ends_in Direct) A w) ≡ Some (in_ber module_name) ∷ [])
        × (pairs_read (readings B w) ≡ Some (in_ber module_name) ∷ []) }
    ensures result { let w = world_of Direct answered_once in
        (pairs_sent (sendings (ends_in Direct) B w) ≡ Some (in_ber module_name) ∷ [])
        × (pairs_read (readings A w) ≡ Some (in_ber module_name) ∷ []) }
    ensures broken { let w = world_of Direct broken_off in
        (sendings (ends_in Direct) A w ≡ []) × (readings B w ≡ []) }
{}

/// Two deletions of one context cross: each is answered, and the shared set lacks the context.
pub fn alterations_that_cross_are_shared()
    ensures shared { (shared_at (ends_in Direct) (world_of Direct collision)).set ≡ acse_alone }
    ensures read { let w = world_of Direct collision in
        (length (readings A w) ≡ 4) × (length (readings B w) ≡ 4) }
{}

/// A deletion of a context and an invocation on it cross: the invocation is sent and read under the
/// pair that the context still has, and the deletion is rejected. A set that drops a context at its
/// proposal gives the value no pair.
pub fn deletion_waits_for_its_answer()
    ensures pairs { let w = world_of Direct crossed_deletion in
        (pairs_sent (sendings (ends_in Direct) B w) ≡ Some (in_ber module_name) ∷ [])
        × (pairs_read (readings A w) ≡ Some (in_ber module_name) ∷ []) }
    ensures shared { (shared_at (ends_in Direct) (world_of Direct crossed_deletion)).set
        ≡ with_seven }
    ensures dropped { pairs_by (set_dropping (ends_in Direct)) B (world_of Direct crossed_deletion)
        ≡ None ∷ [] }
{}

/// A context is deleted behind an invocation on it: the invocation was sent and read under the pair
/// of its sending. The newest set gives the value no pair.
pub fn value_has_the_pair_of_its_sending()
    ensures pairs { let w = world_of Direct deleted_later in
        (pairs_sent (sendings (ends_in Direct) A w) ≡ Some (in_ber module_name) ∷ [])
        × (pairs_read (readings B w) ≡ Some (in_ber module_name) ∷ []) }
    ensures shared { (shared_at (ends_in Direct) (world_of Direct deleted_later)).set ≡ with_five }
    ensures newest { let w = world_of Direct deleted_later in
        pairs_by (set_newest (ends_in Direct) w) A w ≡ None ∷ [] }
{}

/// Restarts to 3 and to 2 cross: the one to 3 is passed over, and the initiator holds the token.
pub fn restarts_that_cross_leave_one_holder()
    ensures holder { let w = world_of Direct crossing_restarts in
        (holds_at (ends_in Direct) A w ≡ true) × (holds_at (ends_in Direct) B w ≡ false) }
    ensures shared { (shared_at (ends_in Direct) (world_of Direct crossing_restarts)).set
        ≡ with_five }
{}

/// One transfer in reliable mode: it arrives once, as activity 1, which was encoded once.
pub fn transfer_arrives_once()
    ensures arrived { let w = world_of Reliable transfer in
        (map (λ a. a.activity) (arrivals (ends_in Reliable) B w) ≡ 1 ∷ [])
        × (map (λ e. e.activity) (encodings (ends_in Reliable) A w) ≡ 1 ∷ []) }
    ensures none { arrivals (ends_in Reliable) A (world_of Reliable transfer) ≡ [] }
{}
