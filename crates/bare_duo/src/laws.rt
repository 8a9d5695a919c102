//! The laws of runs, each the contract of a function that does nothing but cite others.

ghost use Rattle.bare_duo.specs.Cutting.{AnyCutting, OneFeed};
ghost use Rattle.bare_duo.specs.Laws.{EveryRunKeepsLaws, OneRun};

use apdu_spelling::written_apdu_is_spelled;
use bare_end::end_wire_layer::{content_says, one_content, written_is_first};
use end_model::bare_ends_are_modelled;

/// Every run of two ends in bare mode keeps the laws. What is taken is what was sent, each value
/// under its pair at the sending, and might be taken then. Each invocation gets at most one
/// outcome: the other end's answer, of an operation that has it, with a value that fits. No end
/// aborts of itself and nothing is rejected. Nothing whole waits: each carry shows what the
/// messages show whose last octet is in it, and nothing else.
pub fn every_run_keeps_laws()
    ensures { EveryRunKeepsLaws }
{
    bare_ends_are_modelled();
    written_is_first();
    one_content();
    content_says();
    written_apdu_is_spelled();
}

/// Octets that come to an end are read in one way.
pub fn one_feed()
    ensures { OneFeed }
{
    one_content();
}

/// Octets are read the same however they are cut: two feeds show together what one feed of both
/// shows, and lead to the same end.
pub fn any_cutting()
    ensures { AnyCutting }
{
    one_content();
}

/// Events have one run from one world.
pub fn one_run()
    ensures { OneRun }
{
    one_content();
}
