//! What the lines of the setup say, and what stands where no line says it: direct mode, the context
//! 5 in BER, all three syntaxes, `ref1` and `260101000000Z`, which are those of this project.

use crate::refusals::{all_modes, calc};
use dialogue::Mode;
use osi_base::{Oids, Proposal, Syntax};
use schedule_text::{Schedule, Setup, read_schedule};
use std::alloc::Global;
use std::process::Abort;
use std::test::*;

fn read(rt: &impl Abort, alloc: Global, text: &str) -> Schedule {
    let tables = calc(rt, alloc);
    let read = read_schedule(alloc, all_modes(), &tables, text.as_bytes());
    drop(tables);
    read.expect(rt, "the schedule is read")
}

/// Whether these are the names of these transfer syntaxes, in this order.
fn are(names: &Oids, syntaxes: &[Syntax]) -> bool {
    if names.len() != syntaxes.len() {
        return false;
    }
    for (place, name) in names.as_slice().iter().enumerate() {
        if Syntax::from_name(name.arcs()) != syntaxes.get(place).copied() {
            return false;
        }
    }
    true
}

/// Whether a context with this identifier and these transfer syntaxes is proposed.
fn proposes(proposal: Option<&Proposal>, id: u32, syntaxes: &[Syntax]) -> bool {
    match proposal {
        Some(proposal) => proposal.id == id && are(&proposal.transfers, syntaxes),
        None => false,
    }
}

/// All three syntaxes, in the order in which an end accepts them where no line says any.
const ALL_SYNTAXES: [Syntax; 3] = [Syntax::Ber, Syntax::Der, Syntax::Packed];

/// Direct mode, and what an end says of itself where no line does.
fn check_direct(rt: &impl Abort, setup: &Setup) {
    assert!(rt; setup.a.mode == Mode::Direct);
    assert!(rt; setup.b.mode == Mode::Direct);
    assert!(rt; setup.a.initiator && !setup.b.initiator);
    assert!(rt; setup.a.reference.as_slice() == b"ref1".as_slice());
    assert!(rt; setup.a.common.as_slice() == b"260101000000Z".as_slice());
}

/// The contexts and syntaxes of direct mode where no line says any.
fn check_contexts(rt: &impl Abort, setup: &Setup) {
    assert!(rt; setup.a.contexts.len() == 1, "one context");
    assert!(rt;
        proposes(setup.a.contexts.get(0), 5, &[Syntax::Ber]),
        "context 5 in BER"
    );
    assert!(rt; setup.b.contexts.len() == 0, "a responder proposes none");
    assert!(rt; are(&setup.a.accepts, &ALL_SYNTAXES), "all three syntaxes");
    assert!(rt; are(&setup.b.accepts, &ALL_SYNTAXES), "all three syntaxes");
}

#[test]
fn no_lines_mean_direct_mode(rt: HostRuntime) {
    let schedule = read(&rt, rt.alloc(), "");
    check_direct(&rt, &schedule.setup);
    check_contexts(&rt, &schedule.setup);
    assert!(rt; schedule.events.len() == 0);
    drop(schedule);
}

/// Bare mode, in which there are no contexts.
fn check_bare(rt: &impl Abort, setup: &Setup) {
    assert!(rt; setup.a.mode == Mode::Bare);
    assert!(rt; setup.a.contexts.len() == 0);
    assert!(rt; setup.a.accepts.len() == 0);
}

#[test]
fn bare_mode_has_no_contexts(rt: HostRuntime) {
    let schedule = read(&rt, rt.alloc(), "mode bare\nA abort\n");
    check_bare(&rt, &schedule.setup);
    assert!(rt; schedule.events.len() == 1);
    drop(schedule);
}

const RELIABLE: &'static str =
    "mode reliable 1 2\ncontext 5 ber der\ncontext 7 packed\naccepts B ber\n";

/// What these lines say.
fn check_reliable(rt: &impl Abort, setup: &Setup) {
    assert!(rt; setup.a.mode == Mode::Reliable);
    assert!(rt; setup.a.checkpoint == 1);
    assert!(rt; setup.b.checkpoint == 1);
    assert!(rt; setup.a.window == 2);
    assert!(rt; setup.a.contexts.len() == 2);
    assert!(rt; proposes(setup.a.contexts.get(0), 5, &[Syntax::Ber, Syntax::Der]));
    assert!(rt; proposes(setup.a.contexts.get(1), 7, &[Syntax::Packed]));
    assert!(rt; are(&setup.a.accepts, &ALL_SYNTAXES));
    assert!(rt; are(&setup.b.accepts, &[Syntax::Ber]));
}

#[test]
fn lines_say_contexts_syntaxes_and_windows(rt: HostRuntime) {
    let schedule = read(&rt, rt.alloc(), RELIABLE);
    check_reliable(&rt, &schedule.setup);
    drop(schedule);
}
