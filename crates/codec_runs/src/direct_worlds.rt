//! Laws of two ends whose lines are octets: contracts of functions that do nothing but cite others.

ghost use Rattle.codec_runs.specs.DirectWorlds.{DirectWorldsAreSpelled, DirectWorldsHaveOneHolder, DirectWorldsNeverFail};

use association_worlds::said_is_meant;
use end_laws::{direct_ends_are_modelled, direct_turn_has_one_holder};
use end_model::bare_ends_are_modelled;
use said_worlds::direct_ends_are_said;

/// Two ends of direct mode with the codecs whose lines are octets: what they reach they reach by
/// the messages that these octets are; no end finds a fault in what comes; at no moment do both
/// hold the turn.
pub fn direct_worlds_are_spelled()
    ensures spelled { DirectWorldsAreSpelled }
    ensures calm { DirectWorldsNeverFail }
    ensures holder { DirectWorldsHaveOneHolder }
{
    said_is_meant();
    direct_ends_are_said();
    direct_ends_are_modelled();
    direct_turn_has_one_holder();
    bare_ends_are_modelled();
}
