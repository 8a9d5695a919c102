//! What an end holds once an opening is accepted.

ghost use Rattle.std.specs.Prelude.{◌≡◌, OnOk};
ghost use Rattle.end_rules.specs.Connecting.{joined_with, begun_with, refused_connect};
ghost use Rattle.association_connecting.specs.Agreed.{seen_agreed};
ghost use Rattle.association_connecting.specs.Joined.{kept_first, stood};
ghost use Rattle.association_answers.specs.association_state.Seen.{base_in, seen};

use crate::agreeing::Agreed;
use association_answers::association_state_layer::{Awaited, Basis, Body, SavedSets, Stage};
use association_ground::is_broken;
use association_sets::copy_set;
use dialogue::{Mode, Phase};
use osi_base::{Copied, NoMemory, SessionConnect, SetItem, SetList};
use std::mem;

/// What the two ends of a connection have: the accepted contexts, the functional units selected,
/// whether context management is, and what is agreed for transfers.
#[derive(Clone, Copy)]
pub(crate) struct Terms<'a> {
    pub accepted: &'a [SetItem],
    pub selected: u16,
    pub manages: bool,
    pub agreed: Agreed,
}

/// In direct mode number 0 saves the accepted contexts; in reliable mode they are the
/// inter-activity set.
fn keep_first(basis: &Basis<'_>, body: &mut Body, accepted: &[SetItem]) -> Result<(), NoMemory>
    ensures { OnOk result (seen body.new ≡ kept_first basis.now.config.mode accepted.now (seen
        body.old)) }
{
    match basis.config.mode {
        Mode::Reliable => {
            body.sets.inter = copy_set(basis.alloc, accepted)?;
            Ok(())
        }
        Mode::Direct => {
            let mut saved = SavedSets::new(basis.alloc);
            saved.push(0, copy_set(basis.alloc, accepted)?)?;
            body.saved = saved;
            Ok(())
        }
        Mode::Bare => Ok(()),
    }
}

/// The association stands on these terms.
fn stand(basis: &Basis<'_>, body: &mut Body, terms: &Terms<'_>, accepted: SetList)
    requires { accepted ≡ terms.now.accepted.now }
    ensures { seen body.new ≡ stood basis.now.config.initiator accepted terms.now.selected
        terms.now.manages (seen_agreed terms.now.agreed) (seen body.old) }
{
    body.link.phase = Phase::Up;
    body.link.stage = Stage::Carrying;
    body.link.selected = terms.selected;
    body.link.manages = terms.manages;
    body.link.turn = basis.config.initiator;
    body.link.gave = false;
    body.link.awaits = Awaited::NoAnswer;
    body.link.accepted = accepted;
    body.link.checkpoint = terms.agreed.checkpoint;
    body.link.window = terms.agreed.window;
}

/// Both ends hold the accepted contexts, and the association stands.
pub(crate) fn join(basis: &Basis<'_>, body: &mut Body, terms: &Terms<'_>) -> Result<(), NoMemory>
    ensures { OnOk result (seen body.new ≡ joined_with (base_in basis.now) terms.now.accepted.now
        terms.now.selected terms.now.manages (seen_agreed terms.now.agreed) (seen body.old)) }
{
    let accepted = copy_set(basis.alloc, terms.accepted)?;
    let held = copy_set(basis.alloc, terms.accepted)?;
    keep_first(basis, body, terms.accepted)?;
    stand(basis, body, terms, accepted);
    body.sets.held = held;
    body.sets.own.clear();
    Ok(())
}

/// An opening begins anew, with the references of its CN.
pub(crate) fn begin(
    basis: &Basis<'_>,
    body: &mut Body,
    session: &SessionConnect,
) -> Result<(), NoMemory>
    ensures { OnOk result (seen body.new ≡ begun_with (base_in basis.now) session.now) }
{
    let reference = session.calling_reference.copy(basis.alloc)?;
    let common = session.common_reference.copy(basis.alloc)?;
    let begun = Body::new(basis)?;
    drop(mem::replace(body, begun));
    body.link.reference = reference;
    body.link.common = common;
    Ok(())
}

/// Who refuses is over, but for an end that is broken, which stays so.
pub(crate) fn refuse(body: &mut Body)
    ensures { seen body.new ≡ refused_connect (seen body.old) }
{
    if !is_broken(body.link.phase) {
        body.link.phase = Phase::Over;
    }
    body.link.stage = Stage::Carrying;
}
