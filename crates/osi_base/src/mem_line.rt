//! A line that is held in memory.

ghost use Rattle.std.specs.Prelude.{◌≡◌, ◌<◌, ◌≤◌, [], Some, length};

use crate::call_log::CallLog;
use crate::failing_calls::FailingCalls;
use crate::octets::Octets;
use std::alloc::Global;
use std::collections::VecDeque;

/// A line in memory, of which some calls fail. What its peers say stands in it; they take all
/// that is written. A call reads or writes `most` octets at most. It tells its log.
#[derive(Debug, Drop)]
pub struct MemLine {
    pub(crate) alloc: Global,
    /// What each peer says of the connections to come. After the last, peers say nothing.
    pub peers: VecDeque<Octets>,
    /// What the present peer says and said.
    pub peer_octets: Octets,
    /// How many octets of it were read.
    pub octets_read: usize,
    /// How many octets a call reads or writes at most.
    pub most: usize,
    /// Which calls are to fail.
    pub failing: FailingCalls,
    /// The calls so far.
    pub log: CallLog,
    ghost takes_some: { 0 < most },
    ghost reads_peer_octets: { octets_read ≤ length peer_octets },
}

impl MemLine {
    /// A line to these peers, of which no call was made. The calls with these numbers, counted
    /// from 0, fail, and the others read or write `most` octets at most.
    pub fn new(
        alloc: Global,
        peers: VecDeque<Octets>,
        most: usize,
        failing: FailingCalls,
    ) -> MemLine
        requires { 0 < most }
        ensures peers { result.peers ≡ peers }
        ensures silent { result.peer_octets ≡ [] }
        ensures most { result.most ≡ most }
        ensures failing { result.failing ≡ failing }
        ensures log { result.log ≡ Some [] }
    {
        MemLine {
            alloc,
            peers,
            peer_octets: Octets::new(alloc),
            octets_read: 0,
            most,
            failing,
            log: CallLog::new(alloc),
        }
    }
}
