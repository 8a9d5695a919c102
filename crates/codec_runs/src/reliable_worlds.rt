//! Laws of two ends whose lines are octets: contracts of functions that do nothing but cite others.

ghost use Rattle.codec_runs.specs.ReliableWorlds.{ReliableWorldsAreSpelled, ReliableWorldsHaveOneHolder, ReliableWorldsNeverFail};

use association_worlds::said_is_meant;
use said_worlds::reliable_ends_are_said;

/// Two ends of reliable mode with the codecs whose lines are octets: what they reach they reach by
/// the messages that these octets are; no end finds a fault in what comes; at no moment do both
/// hold the turn.
pub fn reliable_worlds_are_spelled()
    ensures spelled { ReliableWorldsAreSpelled }
    ensures calm { ReliableWorldsNeverFail }
    ensures holder { ReliableWorldsHaveOneHolder }
{
    said_is_meant();
    reliable_ends_are_said();
}
