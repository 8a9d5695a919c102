//! All that one end holds.

ghost use Rattle.std.specs.Prelude.{◌≡◌, IfOk};
ghost use Rattle.dialogue.specs.declared.config.Mode.TheVariants.{Bare};
ghost use Rattle.association_reading.specs.end_rules.State.{new_body, new_link, first_phase, first_set};
ghost use Rattle.association_pieces.specs.Link.{seen_link};
ghost use Rattle.association_state.specs.Seen.{seen, base_in};

use crate::basis::Basis;
use association_pieces::{
    Awaited, Link, Receiving, SavedSets, Sending, Sets, Stage, TransferPieces,
};
use dialogue::{Mode, Phase};
use open_invocations::Invocations;
use osi_base::{Copied, ListOf, NoMemory, Pair, SetItem, SetList, Syntax};

/// All that one end holds but its line: the association, the sets, the saved sets, the open
/// invocations, and what it sends and receives by transfers.
#[derive(Drop)]
pub struct Body {
    /// The association and its connection.
    pub link: Link,
    /// The held set, the inter-activity set, and the own alterations that aren't answered.
    pub sets: Sets,
    /// The saved sets.
    pub saved: SavedSets,
    /// The open invocations.
    pub calls: Invocations,
    /// What the end sends by transfers.
    pub sending: Sending,
    /// What the end receives by transfers.
    pub receiving: Receiving,
}

/// The phase of a new end.
fn first_phase(mode: Mode) -> Phase
    ensures { result ≡ first_phase mode }
{
    match mode {
        Mode::Bare => Phase::Up,
        Mode::Direct => Phase::Idle,
        Mode::Reliable => Phase::Idle,
    }
}

/// The association of a new end.
fn new_link(basis: &Basis<'_>) -> Link
    ensures { seen_link result ≡ new_link (base_in basis.now) }
{
    Link {
        phase: first_phase(basis.config.mode),
        stage: Stage::Unused,
        selected: 0,
        manages: false,
        turn: basis.config.initiator,
        gave: false,
        awaits: Awaited::NoAnswer,
        accepted: ListOf::new(basis.alloc),
        reference: None,
        common: None,
        checkpoint: 0,
        window: 1,
    }
}

/// The one context of bare mode.
fn bare_set(basis: &Basis<'_>) -> Result<SetList, NoMemory>
    ensures { IfOk result (λ set. set ≡ first_set basis.now.tables.now Bare) }
{
    let mut set = ListOf::new(basis.alloc);
    set.push(SetItem {
        id: 0,
        pair: Pair {
            abstract_name: basis.tables.name_oid.copy(basis.alloc)?,
            transfer: Syntax::Ber,
        },
    })?;
    Ok(set)
}

/// The set of a new end.
fn first_set(basis: &Basis<'_>) -> Result<SetList, NoMemory>
    ensures { IfOk result (λ set. set ≡ first_set basis.now.tables.now basis.now.config.mode) }
{
    match basis.config.mode {
        Mode::Bare => bare_set(basis),
        Mode::Direct => Ok(ListOf::new(basis.alloc)),
        Mode::Reliable => Ok(ListOf::new(basis.alloc)),
    }
}

impl Body {
    /// What a new end holds.
    pub fn new(basis: &Basis<'_>) -> Result<Body, NoMemory>
        ensures { IfOk result (λ body. seen body ≡ new_body (base_in basis.now)) }
    {
        let alloc = basis.alloc;
        Ok(Body {
            link: new_link(basis),
            sets: Sets {
                held: first_set(basis)?,
                inter: ListOf::new(alloc),
                own: Vec::new(alloc),
            },
            saved: SavedSets::new(alloc),
            calls: Invocations::new(alloc),
            sending: Sending {
                started: 0,
                current: None,
                queue: Vec::new(alloc),
            },
            receiving: Receiving {
                last: 0,
                pieces: TransferPieces::new(alloc),
                was_handed: false,
                active: false,
            },
        })
    }
}
