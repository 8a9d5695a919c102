//! What no clause says: whole runs with ample memory, and the texts of the refusing statuses. The
//! octets of the transcripts are those of worked invocations and results; the lines around them
//! follow from the events of their schedules, one after the other. Lines and columns of faults are
//! counted in the texts, and the numbers of failing calls in the calls that a run makes.

use crate::runs::{files, gives, run_failing, words};
use osi_base::{FailingCalls, MemLine, MemSink, Status, SureLine, SureSink};
use osi_commands::{Arguments, osi_run, run_process};
use std::alloc::Global;
use std::collections::VecDeque;
use std::process::Abort;
use std::test::*;

/// The text of a module with one operation.
pub(crate) const ONE_MODULE: &[u8] =
    b"One {2 999 7 4} DEFINITIONS ::= BEGIN\nadd OPERATION ::= {ARGUMENT INTEGER RESULT INTEGER CODE local:1}\nEND\n";

/// The module `one`, a text `other` that is no module, and the schedules `bare` and `dance`.
const FILES: [(&str, &[u8]); 4] = [
    ("one", ONE_MODULE),
    ("other", b"One\n"),
    ("bare", b"mode bare\n"),
    ("dance", b"mode bare\nA dance\n"),
];

/// Whether the replay of a schedule has this transcript.
fn replays(rt: &impl Abort, alloc: Global, schedule: &str, transcript: &str) -> bool {
    let files = [("one", ONE_MODULE), ("schedule", schedule.as_bytes())];
    let said = ["replay", "one", "schedule"];
    let text = transcript.as_bytes();
    gives(rt, alloc, &files, &said, Status::Done, text)
}

/// Schedules and their transcripts.
const SCHEDULES: [(&str, &str); 5] = [
    // an addition and its result
    (
        "mode bare\nA invoke 0 add 5\ncarry A all\nB answer 1 5\ncarry B all\n",
        "mode bare
1 A invoke 0 add 5
  ok 1
2 carry A all
  A>B A1 09 02 01 01 02 01 01 02 01 05
  B: invoked 1 add 5
3 B answer 1 5
  ok
4 carry B all
  B>A A2 0B 02 01 01 30 06 02 01 01 02 01 05
  A: result 1 5
end A up
end B up
",
    ),
    // an addition that is carried in two pieces, of 10 octets and of one
    (
        "mode bare\nA invoke 0 add 5\ncarry A 10\ncarry A all\n",
        "mode bare
1 A invoke 0 add 5
  ok 1
2 carry A 10
  A>B A1 09 02 01 01 02 01 01 02 01
3 carry A all
  A>B 05
  B: invoked 1 add 5
end A up
end B up
",
    ),
    // an addition of 200 and its result -129, which have two octets each
    (
        "mode bare\nA invoke 0 add 200\ncarry A all\nB answer 1 -129\ncarry B all\n",
        "mode bare
1 A invoke 0 add 200
  ok 1
2 carry A all
  A>B A1 0A 02 01 01 02 01 01 02 02 00 C8
  B: invoked 1 add 200
3 B answer 1 -129
  ok
4 carry B all
  B>A A2 0C 02 01 01 30 07 02 01 01 02 02 FF 7F
  A: result 1 -129
end A up
end B up
",
    ),
    // the events are printed, with one space between fields, and not the lines of the schedule
    (
        "mode bare\nA invoke 0 add  5\ncarry A all\nB answer 1   5\ncarry B all\n",
        "mode bare
1 A invoke 0 add 5
  ok 1
2 carry A all
  A>B A1 09 02 01 01 02 01 01 02 01 05
  B: invoked 1 add 5
3 B answer 1 5
  ok
4 carry B all
  B>A A2 0B 02 01 01 30 06 02 01 01 02 01 05
  A: result 1 5
end A up
end B up
",
    ),
    // an answer to no invocation, which is refused: nothing is sent
    (
        "mode bare\nB answer 1 5\n",
        "mode bare
1 B answer 1 5
  refused NoInvocation 1
end A up
end B up
",
    ),
];

#[test]
fn replays_schedules(rt: HostRuntime) {
    for (schedule, transcript) in &SCHEDULES {
        assert!(rt; replays(&rt, rt.alloc(), schedule, transcript));
    }
}

/// Words, and the status and the output of a run with them over those files.
type Row = (&'static [&'static str], Status, &'static [u8]);

/// The summary of a schedule without events.
const EMPTY_SUMMARY: &[u8] = b"events 0
octets A>B 0
octets B>A 0
values 0
outcomes 0
rejects 0
cut 0
transfers 0
refused 0
end A up
end B up
";

/// The flag `--brief`, in its places and in others.
const BRIEF: [Row; 5] = [
    // the flag behind the names: a schedule without events
    (
        &["replay", "one", "bare", "--brief"],
        Status::Done,
        EMPTY_SUMMARY,
    ),
    // the flag in front, and `--`, which ends the flags
    (
        &["replay", "--brief", "--", "one", "bare"],
        Status::Done,
        EMPTY_SUMMARY,
    ),
    // the flag twice
    (
        &["replay", "--brief", "one", "bare", "--brief"],
        Status::Usage,
        USAGE,
    ),
    // behind `--` a word is a name: of a schedule that isn't there
    (
        &["replay", "one", "--", "--brief"],
        Status::ReadFault,
        b"cannot read --brief\n",
    ),
    // the flag with another command
    (&["trace", "one", "bare", "--brief"], Status::Usage, USAGE),
];

#[test]
fn writes_a_summary_in_brief(rt: HostRuntime) {
    for (said, status, text) in &BRIEF {
        assert!(rt; gives(&rt, rt.alloc(), &FILES, said, *status, text));
    }
}

/// The text for words that are no command.
pub(crate) const USAGE: &[u8] =
    b"usage: osi_tool check MODULE [--table] | replay MODULE SCHEDULE [--brief] | replay --made N | call MODULE SCRIPT | serve MODULE BOOK CONNECTIONS | trace MODULE FILE\n";

/// What is refused: words, modules and schedules.
const REFUSED: [Row; 10] = [
    // no word
    (&[], Status::Usage, USAGE),
    // no schedule
    (&["replay", "one"], Status::Usage, USAGE),
    // a further word
    (&["replay", "one", "bare", "more"], Status::Usage, USAGE),
    // an unknown command
    (&["relay", "one", "bare"], Status::Usage, USAGE),
    // one name behind the end of the flags
    (&["replay", "--", "bare"], Status::Usage, USAGE),
    // neither file is there
    (
        &["replay", "gone", "gone"],
        Status::ReadFault,
        b"cannot read gone\n",
    ),
    // a text that ends behind one word, and no schedule: the module is refused first, at the
    // front of line 2, where its text ends
    (
        &["replay", "other", "gone"],
        Status::ModuleRefused,
        b"module refused 2 1 UnexpectedToken\n",
    ),
    // no schedule of this name
    (
        &["replay", "one", "away"],
        Status::ReadFault,
        b"cannot read away\n",
    ),
    // a schedule with an unknown call in line 2
    (
        &["replay", "one", "dance"],
        Status::ScriptRefused,
        b"script refused 2 UnknownWord\n",
    ),
    // a module in place of a schedule: its first word
    (
        &["replay", "one", "one"],
        Status::ScriptRefused,
        b"script refused 1 UnknownWord\n",
    ),
];

#[test]
fn refuses_in_the_order_of_words_module_and_schedule(rt: HostRuntime) {
    for (said, status, text) in &REFUSED {
        assert!(rt; gives(&rt, rt.alloc(), &FILES, said, *status, text));
    }
}

/// Whether the replay of the schedule `bare` ends with this output, where the call of `read` with
/// this number fails.
fn is_told(rt: &impl Abort, alloc: Global, number: u64, text: &str) -> bool {
    let numbers = vec![in alloc; number].expect(rt, "memory");
    let said = ["replay", "one", "bare"];
    let (status, written) = run_failing(rt, alloc, &FILES, &said, numbers);
    let is_so = status == Status::ReadFault && written.as_slice() == text.as_bytes();
    drop(written);
    is_so
}

/// The first call of `read` is for the module, and the second for the schedule.
const FAILED_READS: [(u64, &str); 2] = [(0, "cannot read one\n"), (1, "cannot read bare\n")];

#[test]
fn tells_which_file_failed_to_be_read(rt: HostRuntime) {
    for (number, text) in &FAILED_READS {
        assert!(rt; is_told(&rt, rt.alloc(), *number, text));
    }
}

/// Whether the replay of the schedule `bare` ends with this status and this output, where each
/// write takes six octets at most and the one with this number fails.
fn ends_at(rt: &impl Abort, alloc: Global, number: u64, status: Status, text: &str) -> bool {
    let numbers = vec![in alloc; number].expect(rt, "memory");
    let words = words(rt, alloc, &["replay", "one", "bare"]);
    let mut files = files(rt, alloc, &FILES, Vec::new(alloc));
    let mut out = MemSink::new(alloc, 6, FailingCalls::new(numbers));
    let mut line = SureLine::new(alloc);
    let ended = osi_run(alloc, &words, &mut files, &mut out, &mut line);
    drop(line);
    drop(files);
    drop(words);
    let is_so = ended == status && out.written.as_slice() == text.as_bytes();
    drop(out);
    is_so
}

/// The numbers of writes that fail, the statuses and the outputs.
const FAILED_WRITES: [(u64, Status, &str); 3] = [
    // the first write fails
    (0, Status::WriteFault, ""),
    // the third fails, behind twelve octets
    (2, Status::WriteFault, "mode bare\nen"),
    // the sixth would: five write all 28
    (5, Status::Done, "mode bare\nend A up\nend B up\n"),
];

#[test]
fn ends_at_a_write_that_fails(rt: HostRuntime) {
    for (number, status, text) in &FAILED_WRITES {
        assert!(rt; ends_at(&rt, rt.alloc(), *number, *status, text));
    }
}

/// The name of a file alone.
fn given(rt: &impl Abort, alloc: Global) -> Arguments {
    let mut given = Vec::new(alloc);
    for text in &["osi_tool", "one"] {
        let argument = String::from_str(alloc, text).expect(rt, "memory");
        given.push(argument).expect(rt, "memory");
    }
    Arguments::Given(given)
}

/// Whether a run with these arguments ends with this number, asks for no file and makes no call of
/// the line.
fn ends_with(rt: &impl Abort, alloc: Global, arguments: Arguments, number: u8) -> bool {
    let mut files = files(rt, alloc, &FILES, Vec::new(alloc));
    let mut out = SureSink::new(alloc);
    let failing = FailingCalls::new(Vec::new(alloc));
    let mut line = MemLine::new(alloc, VecDeque::new(alloc), 1, failing);
    let ended = run_process(alloc, arguments, &mut files, &mut out, &mut line);
    drop(out);
    let is_so = ended == number && files.asked.is_empty() && line.failing.made == 0;
    drop(files);
    drop(line);
    is_so
}

/// Arguments that are no command: the number of the status.
#[test]
fn ends_with_the_number_of_a_status(rt: HostRuntime) {
    // the name of a file alone
    assert!(rt; ends_with(&rt, rt.alloc(), given(&rt, rt.alloc()), 2));
    // one is no UTF-8
    assert!(rt; ends_with(&rt, rt.alloc(), Arguments::NotText, 2));
    // memory was refused for them
    assert!(rt; ends_with(&rt, rt.alloc(), Arguments::Unread, 10));
}
