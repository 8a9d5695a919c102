//! Parts of transfers, the set that a resumption brings back, and a transfer that is suspended
//! (X.228 7; what is restored is this project's own rule).

ghost use Rattle.std.specs.Prelude.{◌≡◌, IfOk};
ghost use Rattle.end_rules.specs.State.{Suspended, Transfer as rule_transfer, on_transfer, resumed_set};
ghost use Rattle.end_rules.specs.TakesData.{part_in};
ghost use Rattle.association_words.specs.Seen.{seen_content};
ghost use Rattle.association_answers.specs.association_state.Seen.{seen};

use association_answers::association_state_layer::{Body, Progress, TransferPieces};
use association_sets::copy_set;
use association_words::ValueContent;
use osi_base::{NoMemory, SetItem, SetList};
use std::alloc::Global;

/// The octets of a part of a transfer; none of another value.
pub fn part_in(content: &ValueContent) -> &[u8]
    ensures { result.now ≡ part_in (seen_content content.now) }
{
    match content {
        ValueContent::Part(octets) => octets.as_slice(),
        ValueContent::Remote { .. } => &[],
        ValueContent::Unread(_) => &[],
        ValueContent::Association { .. } => &[],
        ValueContent::Plea { .. } => &[],
    }
}

/// The set of a resumption: that of its mark, or for 0 the held one.
#[tactic(auto, using(crate::proofs::Resumed::resumed_at))]
pub fn set_resumed(
    alloc: Global,
    pieces: &TransferPieces,
    mark: u32,
    held: &[SetItem],
) -> Result<SetList, NoMemory>
    ensures { IfOk result (λ set. set ≡ resumed_set mark pieces.now held.now) }
{
    if mark == 0 {
        copy_set(alloc, held)
    } else {
        copy_set(alloc, pieces.set_of(mark))
    }
}

/// The current transfer, if there is one, is suspended.
pub fn suspend(body: &mut Body)
    ensures { seen body.new ≡ on_transfer (λ (t : rule_transfer). record t { progress = Suspended })
        (seen body.old) }
{
    if let Some(transfer) = &mut body.sending.current {
        transfer.progress = Progress::Suspended;
    }
}
