//! Has one layer of the stack do one thing over and over, so that a clock outside can time it. The
//! first word names the bench and the words behind it are its counts:
//!
//! - `codec`: how often values are read and written, in BER and in the packed syntax
//!   (`codec_steps`);
//! - `transfer`: the octets of a transfer, and how often it is sent (`transfers`);
//! - `front`: the octets of a value that comes octet by octet, and how often (`scans`);
//! - `feed`: the octets that come to an end of bare mode, and how often as one APDU and as short
//!   ones (`feeds`);
//! - `forest`: the keys that are opened and closed under one key, and how often (`forests`);
//! - `set`: the marks of an activity over a set of 64 contexts, the activities, and how often each
//!   goes back over its newest mark (`marks`).
//!
//! With `all` in the place of a name each bench runs, in this order, and its counts stand behind
//! those of the bench before it.
#![tactic(auto)]

mod codec_rounds;
mod codec_samples;
mod codec_steps;
mod codec_syntaxes;
mod counts;
mod feeds;
mod forests;
mod marks;
mod note_module;
mod scans;
mod stopped;
mod transfers;

use counts::{behind, counts_of};
use std::alloc::Global;
use std::env;
use std::env::Env;
use std::process::ExitCode;
use stopped::Stopped;

/// What is timed.
#[derive(Clone, Copy)]
enum Bench {
    Codec,
    Transfer,
    Front,
    Feed,
    Forest,
    Set,
}

/// Each bench with the word that names it and the number of its counts.
const BENCHES: &[(&str, Bench, usize)] = &[
    ("codec", Bench::Codec, 16),
    ("transfer", Bench::Transfer, 2),
    ("front", Bench::Front, 2),
    ("feed", Bench::Feed, 3),
    ("forest", Bench::Forest, 2),
    ("set", Bench::Set, 3),
];

/// Runs a bench with the counts that these begin with.
fn run_bench<R: Print + Alloc<A = Global>>(
    rt: &R,
    bench: Bench,
    counts: &[u64],
) -> Result<(), Stopped> {
    match bench {
        Bench::Codec => codec_steps::run(rt, counts),
        Bench::Transfer => transfers::run(rt, counts),
        Bench::Front => scans::run(rt, counts),
        Bench::Feed => feeds::run(rt, counts),
        Bench::Forest => forests::run(rt, counts),
        Bench::Set => marks::run(rt, counts),
    }
}

/// Runs each bench with its counts.
fn run_all<R: Print + Alloc<A = Global>>(rt: &R, counts: &[u64]) -> Result<(), Stopped> {
    let mut rest = counts;
    for (_, bench, taken) in BENCHES {
        run_bench(rt, *bench, rest)?;
        rest = behind(rest, *taken);
    }
    Ok(())
}

/// The bench that this word names.
fn named(word: &str) -> Option<Bench> {
    for (name, bench, _) in BENCHES {
        if word == *name {
            return Some(*bench);
        }
    }
    None
}

/// Runs what the first word names.
fn run_named<R: Print + Alloc<A = Global>>(
    rt: &R,
    word: &str,
    counts: &[u64],
) -> Result<(), Stopped> {
    if word == "all" {
        return run_all(rt, counts);
    }
    match named(word) {
        Some(bench) => run_bench(rt, bench, counts),
        None => Err(Stopped),
    }
}

/// The word behind the program's name; empty where there is none.
fn first_word(arguments: &[String]) -> &str {
    match arguments {
        [_, word, ..] => word.as_str(),
        _ => "",
    }
}

fn run<R: Env + Print + Alloc<A = Global>>(rt: &R) -> Result<(), Stopped> {
    let arguments: Vec<String> = env::args(rt)?.collect(rt.alloc())?;
    let counts = counts_of(rt.alloc(), arguments.as_slice())?;
    run_named(rt, first_word(arguments.as_slice()), counts.as_slice())
}

fn main(rt: HostRuntime) -> ExitCode {
    match run(&rt) {
        Ok(()) => ExitCode::SUCCESS,
        Err(Stopped) => ExitCode::from(1),
    }
}
