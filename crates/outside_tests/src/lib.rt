//! Tests of the outside: of the objects in memory, and of the trusted edge, where files on the
//! disk, an output that fails and TCP connections begin. They would notice a count that rises
//! without a fault, and a part of a write that is told as the whole. What is expected follows from
//! what each test puts in: what a peer says and a file holds, how much a call takes, and which
//! calls are to fail.
#![tactic(auto)]

#[cfg(test)]
mod broken_stream;
#[cfg(test)]
mod calls;
#[cfg(test)]
mod lines;
#[cfg(test)]
mod memory;
#[cfg(test)]
mod tcp;
