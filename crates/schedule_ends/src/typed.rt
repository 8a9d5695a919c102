//! What the types of calls and of configurations keep: object identifiers whose arcs have 32 bits,
//! numbers of 32 bits, and octets.

ghost use Rattle.std.specs.Prelude.{◌≡◌, true, None};
ghost use Rattle.std.specs.List.{list_all};
ghost use Rattle.asn1_types.specs.Fits.{has_32_bits};
ghost use Rattle.schedule_text.specs.end_config.Refusing.{config_refusal};
ghost use Rattle.said_worlds.specs.said_spellings.Laws.{IsEndIn};
ghost use Rattle.association_runs.specs.Laws.{AreEvents};
ghost use Rattle.schedule_ends.specs.Fitting.{name_fits, proposal_fits, call_fits, event_fits};

use dialogue::{Call, Config, Event, Events};
use osi_base::{Oid, Proposal, hold_octets};

/// Arcs have 32 bits.
fn arcs_fit(arcs: &[u32])
    ensures { list_all has_32_bits arcs.now ≡ true }
{}

fn name_fits(name: &Oid)
    ensures { name_fits name.now ≡ true }
{
    arcs_fit(name.arcs());
}

fn names_fit(names: &[Oid])
    ensures { list_all name_fits names.now ≡ true }
{
    for name in names {
        name_fits(name);
    }
}

fn proposal_fits(proposal: &Proposal)
    ensures { proposal_fits proposal.now ≡ true }
{
    name_fits(&proposal.abstract_name);
    names_fit(proposal.transfers.as_slice());
}

fn proposals_fit(proposals: &[Proposal])
    ensures { list_all proposal_fits proposals.now ≡ true }
{
    for proposal in proposals {
        proposal_fits(proposal);
    }
}

fn call_fits(call: &Call)
    ensures { call_fits call.now ≡ true }
{
    match call {
        Call::Alter { add, .. } => proposals_fit(add.as_slice()),
        Call::Please { priority } => {
            let _priority = *priority;
        }
        _ => {}
    }
}

fn event_fits(event: &Event)
    ensures { event_fits event.now ≡ true }
{
    match event {
        Event::Call { call, .. } => call_fits(call),
        _ => {}
    }
}

fn events_fit(events: &[Event])
    ensures { list_all event_fits events.now ≡ true }
{
    for event in events {
        event_fits(event);
    }
}

/// Does nothing. Its contract says that the calls among events are calls as their types have them:
/// the names of proposed contexts are object identifiers (X.660 7.6) whose arcs have 32 bits, and a
/// priority has 32 bits.
#[tactic(auto, using(crate::proofs::Fitted::events_of))]
pub fn events_are_calls(events: &Events)
    ensures { AreEvents events.now }
{
    events_fit(events.as_slice());
}

/// Does nothing. Its contract says that a configuration which no end refuses is one of an end of
/// its mode: its selectors and, in reliable mode, its references are octets, and the names of its
/// contexts are object identifiers (X.660 7.6) whose arcs have 32 bits.
#[tactic(auto, using(crate::proofs::Fitted::end_of))]
pub fn config_is_of_end(config: &Config)
    ensures { config_refusal config.now ≡ None → IsEndIn config.now.mode config.now }
{
    hold_octets(config.calling.as_slice());
    hold_octets(config.called.as_slice());
    hold_octets(config.reference.as_slice());
    hold_octets(config.common.as_slice());
    proposals_fit(config.contexts.as_slice());
}
