//! Each law is the contract of a function with an empty body.

ghost use Rattle.std.specs.Prelude.{◌≡◌};
ghost use Rattle.agreement.specs.Messages.{ModelSetup};
ghost use Rattle.agreement.specs.Laws.{TakenAsSent, NoAbortOfItself, OneHolder, InitiatorLeads, OneOutcome, TheOthersOwn, AnsweredOnce, AcceptedNamesOpen, ContextsStay, ArriveWhole, ArriveOnce, InvokedOnce, OneOperation, OneInvocation, ItemsOfActivities, AlterationsAreFew, ContextsAreKnown};

/// Taken as sent: each message that an end took, and did not pass over, is the one that was sent in
/// its place of the connection, and its value was read under the pair that the shared set gave at
/// the sending.
pub fn taken_as_sent()
    ensures law { (setup : ModelSetup) → TakenAsSent setup }
{}

/// No abort of itself: each message that comes next and is not passed over may be taken; no list of
/// a restart differs, and an answer answers what was asked.
pub fn no_abort_of_itself()
    ensures law { (setup : ModelSetup) → NoAbortOfItself setup }
{}

/// Contexts stay: out of bare mode, a context that each acceptance gives the same pair, and that no
/// alteration names, has this pair in the set of each end that is up or releasing, and in the
/// shared set. So the values of the association and of transfers, which stand in messages of their
/// own, have one pair at their sending and at their taking.
pub fn contexts_stay()
    ensures law { (setup : ModelSetup) → ContextsStay setup }
{}

/// One holder: at no moment do both ends hold the turn.
pub fn one_holder()
    ensures law { (setup : ModelSetup) → OneHolder setup }
{}

/// After an acceptance that the initiator took, also that of a recovery, it holds the turn whenever
/// it is up, until it gives.
pub fn initiator_leads()
    ensures law { (setup : ModelSetup) → InitiatorLeads setup }
{}

/// One outcome: an end is told at most one outcome of an invocation, and only while it is open.
pub fn one_outcome()
    ensures law { (setup : ModelSetup) → OneOutcome setup }
{}

/// The other side's own: each invocation and each outcome that is handed up was handed in at the
/// other end.
pub fn the_others_own()
    ensures law { (setup : ModelSetup) → TheOthersOwn setup }
{}

/// Each invocation is answered at most once: an end hands in at most one outcome of each, so the
/// outcome that is handed up at the other end is that one.
pub fn answered_once()
    ensures law { (setup : ModelSetup) → AnsweredOnce setup }
{}

/// What is accepted names what is open: an outcome an open invocation, and a link an open
/// invocation of the taker whose operation may have it as a child.
pub fn accepted_names_open()
    ensures law { (setup : ModelSetup) → AcceptedNamesOpen setup }
{}

/// Transfers arrive whole: what is handed up at the end of an activity is the item of that activity
/// as it was last encoded, read under the pair that the shared set gave then.
pub fn transfers_arrive_whole()
    ensures law { (setup : ModelSetup) → ArriveWhole setup }
{}

/// Transfers arrive at most once: the activities whose transfers are handed up have rising numbers,
/// through interrupts, discards, resumptions, breaks and recoveries.
pub fn transfers_arrive_once()
    ensures law { (setup : ModelSetup) → ArriveOnce setup }
{}

/// Each invocation is taken at most once: the numbers of the invocations that an end accepts rise.
pub fn invoked_once()
    ensures law { (setup : ModelSetup) → InvokedOnce setup }
{}

/// One operation: where an outcome is accepted, the open invocation that it answers has the
/// operation that it had at the end that answered, and this operation has that outcome. So between
/// two ends no outcome is rejected for its operation, its type or its error.
pub fn one_operation()
    ensures law { (setup : ModelSetup) → OneOperation setup }
{}

/// One invocation: an end hands in at most one invocation under each number, so its link and its
/// argument, too, are at both ends those that were handed in.
pub fn one_invocation()
    ensures law { (setup : ModelSetup) → OneInvocation setup }
{}

/// Items of activities: what was last encoded for an activity is the item that was started as that
/// activity, the k-th that the end started for its activity k.
pub fn items_of_activities()
    ensures law { (setup : ModelSetup) → ItemsOfActivities setup }
{}

/// Alterations are few: an end has at most four unanswered ones, and no identifier is named twice
/// in them.
pub fn alterations_are_few()
    ensures law { (setup : ModelSetup) → AlterationsAreFew setup }
{}

/// Contexts are known: out of bare mode each context of the set of an end and of the shared set has
/// a transfer syntax that the ends know.
pub fn contexts_are_known()
    ensures law { (setup : ModelSetup) → ContextsAreKnown setup }
{}
