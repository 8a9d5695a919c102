//! What the sending of a request changes (X.225 7, X.226 6, X.228 7).

ghost use Rattle.std.specs.Prelude.{◌≡◌, ◌++◌, suc, map, option_map, IfOk, OnOk, None, [], ◌∷◌};
ghost use Rattle.end_rules.specs.State.{Sending as rule_sending, Running, on_transfer, up_to, pieces_of, resumed_set};
ghost use Rattle.end_rules.specs.TakesData.{parts_in};
ghost use Rattle.end_rules.specs.Requesting.{begun, resumed, mark_sent, values_sent, after_sent_association, after_sent_data, after_sent_mark, after_sent_activity, after_sent_word, after_sent_transport, after_sent};
ghost use Rattle.association_words.specs.Seen.{seen_message, seen_values, seen_word, seen_association, seen_data, seen_marks, seen_activities, seen_transport};
ghost use Rattle.association_pieces.specs.Sending.{seen_queued, seen_transfer, seen_sending};
ghost use Rattle.association_hearing.specs.association_state.Seen.{seen};

use association_hearing::association_state_layer::{
    Awaited, Basis, Body, Progress, Queued, Sending, Stage, Transfer, TransferPieces, take_next,
};
use association_hearing::{part_in, set_resumed};
use association_sets::{Alteration, copy_set};
use association_words::{
    ActivityWord, AssociationWord, DataWord, MarkWord, Message, TransportUnit, Value, Word,
};
use dialogue::{Mode, Phase};
use osi_base::{Copied, NoMemory, Octets, SetList};
use std::alloc::Global;

/// The octets of all parts together.
fn parts_in(alloc: Global, values: &[Value]) -> Result<Octets, NoMemory>
    ensures { IfOk result (λ octets. octets ≡ parts_in (seen_values values.now)) }
{
    let mut octets = Octets::new(alloc);
    for value in values {
        octets.extend(part_in(&value.content))?;
    }
    Ok(octets)
}

/// Parts of the current transfer were sent in reliable mode.
fn values_sent(basis: &Basis<'_>, body: &mut Body, values: &[Value]) -> Result<(), NoMemory>
    ensures { OnOk result (seen body.new ≡ values_sent basis.now.config.mode (seen_values
        values.now) (seen body.old)) }
{
    match basis.config.mode {
        Mode::Reliable => match &mut body.sending.current {
            None => Ok(()),
            Some(transfer) => {
                let octets = parts_in(basis.alloc, values)?;
                transfer.pieces.push_octets(octets)
            }
        },
        Mode::Direct => Ok(()),
        Mode::Bare => Ok(()),
    }
}

/// An own alteration was sent.
fn alteration_sent(body: &mut Body, asked: Alteration) -> Result<(), NoMemory>
    ensures { OnOk result (seen body.new ≡ record (seen body.old) {
      sets = record (seen
          body.old).sets { own = (seen body.old).sets.own ++ asked ∷ [] };
    }) }
{
    body.sets.own.push(asked)?;
    Ok(())
}

/// Data was sent.
fn data_sent(basis: &Basis<'_>, body: &mut Body, word: &DataWord) -> Result<(), NoMemory>
    ensures { OnOk result (seen body.new ≡ after_sent_data basis.now.config.mode (seen body.old)
        (seen_data word.now)) }
{
    match word {
        DataWord::Values(values) => values_sent(basis, body, values.as_slice()),
        DataWord::AlterContext { add, delete } => {
            let asked = Alteration::new(add.copy(basis.alloc)?, delete.copy(basis.alloc)?);
            alteration_sent(body, asked)
        }
        DataWord::AlterContextAck { .. } => Ok(()),
    }
}

/// A mark saves the set: in direct mode under its number, in reliable mode in the own activity.
fn mark_sent(basis: &Basis<'_>, body: &mut Body, number: u32) -> Result<(), NoMemory>
    ensures { OnOk result (seen body.new ≡ mark_sent basis.now.config.mode number (seen body.old)) }
{
    match basis.config.mode {
        Mode::Reliable => {
            let set = copy_set(basis.alloc, body.sets.held.as_slice())?;
            match &mut body.sending.current {
                None => Ok(()),
                Some(transfer) => transfer.pieces.push_mark(number, set),
            }
        }
        Mode::Direct => {
            let set = copy_set(basis.alloc, body.sets.held.as_slice())?;
            body.saved.push(number, set)
        }
        Mode::Bare => Ok(()),
    }
}

/// A unit of marks and tokens was sent.
fn marks_sent(basis: &Basis<'_>, body: &mut Body, word: &MarkWord) -> Result<(), NoMemory>
    ensures { OnOk result (seen body.new ≡ after_sent_mark basis.now.config.mode (seen body.old)
        (seen_marks word.now)) }
{
    match word {
        MarkWord::Mark { number } => mark_sent(basis, body, *number),
        MarkWord::Restart { number, .. } => {
            body.link.awaits = Awaited::RestartOf(*number);
            Ok(())
        }
        MarkWord::Give { .. } => {
            body.link.turn = false;
            Ok(())
        }
        MarkWord::GiveConfirm => {
            body.link.turn = false;
            body.link.gave = true;
            Ok(())
        }
        MarkWord::MarkAck { .. } => Ok(()),
        MarkWord::RestartAck { .. } => Ok(()),
        MarkWord::Please { .. } => Ok(()),
        MarkWord::GiveAck => Ok(()),
    }
}

/// The transfer of an item at its start.
fn new_transfer(alloc: Global, item: Queued) -> Transfer
    ensures { seen_transfer result ≡ record {
      item = seen_queued item;
      encoded = None;
      pieces = [];
      confirmed = 0;
      progress = Running;
    } }
{
    Transfer {
        item,
        encoded: None,
        pieces: TransferPieces::new(alloc),
        confirmed: 0,
        progress: Progress::Running,
    }
}

/// The next item as the current transfer, if there is one.
#[tactic(auto, using(crate::proofs::Sendings::begun_none, crate::proofs::Sendings::begun_one))]
fn next_transfer(alloc: Global, queue: &mut Vec<Queued>) -> Option<Transfer>
    ensures { (s : rule_sending) → s.queue ≡ map seen_queued queue.old.items → begun s ≡ record {
      started = suc s.started;
      current = option_map seen_transfer result;
      queue = map seen_queued queue.new.items;
    } }
{
    match take_next(queue) {
        None => None,
        Some(item) => Some(new_transfer(alloc, item)),
    }
}

/// The next item becomes the current transfer. `NoMemory` also where 4,294,967,295 items were
/// started, which no end reaches.
fn begin_next(alloc: Global, sending: &mut Sending) -> Result<(), NoMemory>
    ensures { OnOk result (seen_sending sending.new ≡ begun (seen_sending sending.old)) }
{
    let Some(started) = sending.started.checked_add(1) else {
        return Err(NoMemory);
    };
    sending.started = started;
    sending.current = next_transfer(alloc, &mut sending.queue);
    Ok(())
}

/// A transfer begins anew: its item is to be encoded again.
fn go_to_start(transfer: &mut Transfer)
    ensures { seen_transfer transfer.new ≡ record (seen_transfer transfer.old) {
      encoded = None;
      pieces = [];
      progress = Running;
    } }
{
    transfer.encoded = None;
    transfer.pieces.clear();
    transfer.progress = Progress::Running;
}

/// A transfer goes back to its confirmed mark.
fn go_to_mark(transfer: &mut Transfer)
    ensures { seen_transfer transfer.new ≡ record (seen_transfer transfer.old) {
      pieces = up_to (seen_transfer transfer.old).confirmed (seen_transfer transfer.old).pieces;
      progress = Running;
    } }
{
    transfer.pieces.cut(transfer.confirmed);
    transfer.progress = Progress::Running;
}

/// Back to the confirmed mark, or where nothing is confirmed to the start.
#[tactic(auto, using(crate::proofs::Sendings::resumed_at_first, crate::proofs::Sendings::resumed_later))]
fn go_back(transfer: &mut Transfer)
    ensures { seen_transfer transfer.new ≡ resumed (seen_transfer transfer.old) }
{
    if transfer.confirmed == 0 {
        go_to_start(transfer);
    } else {
        go_to_mark(transfer);
    }
}

/// The set of a resumption: that of its mark, or the held one.
fn resumed_set(basis: &Basis<'_>, body: &Body, mark: u32) -> Result<SetList, NoMemory>
    ensures { IfOk result (λ set. set ≡ resumed_set mark (pieces_of (seen body.now).sending.current)
        (seen body.now).sets.held) }
{
    let held = body.sets.held.as_slice();
    match &body.sending.current {
        None => set_resumed(basis.alloc, &TransferPieces::new(basis.alloc), mark, held),
        Some(transfer) => set_resumed(basis.alloc, &transfer.pieces, mark, held),
    }
}

/// A resumption was sent.
fn resume_sent(basis: &Basis<'_>, body: &mut Body, mark: u32) -> Result<(), NoMemory>
    ensures { OnOk result (seen body.new ≡ record (on_transfer resumed (seen body.old)) {
      sets = record (seen body.old).sets {
        inter = (seen body.old).sets.held;
        held = resumed_set mark (pieces_of (seen body.old).sending.current)
            (seen body.old).sets.held;
      };
    }) }
{
    let inter = copy_set(basis.alloc, body.sets.held.as_slice())?;
    let held = resumed_set(basis, body, mark)?;
    if let Some(transfer) = &mut body.sending.current {
        go_back(transfer);
    }
    body.sets.inter = inter;
    body.sets.held = held;
    Ok(())
}

/// A start was sent.
fn start_sent(basis: &Basis<'_>, body: &mut Body) -> Result<(), NoMemory>
    ensures { OnOk result (seen body.new ≡ record (seen body.old) {
      sending = begun (seen body.old).sending;
      sets = record (seen body.old).sets { inter = (seen body.old).sets.held };
    }) }
{
    let inter = copy_set(basis.alloc, body.sets.held.as_slice())?;
    begin_next(basis.alloc, &mut body.sending)?;
    body.sets.inter = inter;
    Ok(())
}

/// A unit of activities was sent.
fn activity_sent(basis: &Basis<'_>, body: &mut Body, word: &ActivityWord) -> Result<(), NoMemory>
    ensures { OnOk result (seen body.new ≡ after_sent_activity (seen body.old) (seen_activities
        word.now)) }
{
    match word {
        ActivityWord::Start { .. } => start_sent(basis, body),
        ActivityWord::Resume { mark, .. } => resume_sent(basis, body, *mark),
        ActivityWord::End { .. } => {
            if let Some(transfer) = &mut body.sending.current {
                transfer.progress = Progress::Ending;
            }
            Ok(())
        }
        ActivityWord::Interrupt { .. } => {
            body.link.awaits = Awaited::InterruptOf;
            Ok(())
        }
        ActivityWord::Discard { .. } => {
            if let Some(transfer) = &mut body.sending.current {
                transfer.confirmed = 0;
            }
            body.link.awaits = Awaited::DiscardOf;
            Ok(())
        }
        ActivityWord::EndAck { .. } => Ok(()),
        ActivityWord::InterruptAck => Ok(()),
        ActivityWord::DiscardAck => Ok(()),
    }
}

/// A unit of the association was sent.
fn association_sent(body: &mut Body, word: &AssociationWord)
    ensures { seen body.new ≡ after_sent_association (seen body.old) (seen_association word.now) }
{
    if let AssociationWord::Finish { .. } = word {
        body.link.phase = Phase::Releasing;
        body.link.awaits = Awaited::ReleaseOf;
    }
}

/// A transport unit was sent.
fn transport_sent(body: &mut Body, unit: &TransportUnit)
    ensures { seen body.new ≡ after_sent_transport (seen body.old) (seen_transport unit.now) }
{
    if let TransportUnit::ConnectionRequest { .. } = unit {
        body.link.stage = Stage::Asked;
    }
}

/// A unit of the session was sent.
fn word_sent(basis: &Basis<'_>, body: &mut Body, word: &Word) -> Result<(), NoMemory>
    ensures { OnOk result (seen body.new ≡ after_sent_word basis.now.config.mode (seen body.old)
        (seen_word word.now)) }
{
    match word {
        Word::OfAssociation(word) => {
            association_sent(body, word);
            Ok(())
        }
        Word::OfData(word) => data_sent(basis, body, word),
        Word::OfMarks(word) => marks_sent(basis, body, word),
        Word::OfActivities(word) => activity_sent(basis, body, word),
    }
}

/// A request was sent.
pub fn after_sent(basis: &Basis<'_>, body: &mut Body, message: &Message) -> Result<(), NoMemory>
    ensures { OnOk result (seen body.new ≡ after_sent basis.now.config.mode (seen body.old)
        (seen_message message.now)) }
{
    match message {
        Message::Transport(unit) => {
            transport_sent(body, unit);
            Ok(())
        }
        Message::Session(word) => word_sent(basis, body, word),
    }
}
