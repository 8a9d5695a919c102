//! What no clause says of replays over associations: whole runs with ample memory. Those that are
//! told to be by hand follow from the events of their schedules; a model of the rules that was
//! written apart from this project gave the others.

use crate::runs::{gives, run};
use crate::traces::CALC_MODULE;
use osi_base::Status;
use std::alloc::Global;
use std::process::Abort;
use std::test::*;

/// Whether the replay of a schedule has this transcript.
pub(crate) fn replays(rt: &impl Abort, alloc: Global, schedule: &str, transcript: &str) -> bool {
    let files = [("module", CALC_MODULE), ("schedule", schedule.as_bytes())];
    let said = ["replay", "module", "schedule"];
    let text = transcript.as_bytes();
    gives(rt, alloc, &files, &said, Status::Done, text)
}

/// Whether the replay of a schedule has this summary.
fn sums_up(rt: &impl Abort, alloc: Global, schedule: &str, summary: &str) -> bool {
    let files = [("module", CALC_MODULE), ("schedule", schedule.as_bytes())];
    let said = ["replay", "module", "schedule", "--brief"];
    gives(rt, alloc, &files, &said, Status::Done, summary.as_bytes())
}

/// What a run shows, its schedule and its transcript.
const RUNS: [(&str, &str, &str); 6] = [
    (
        "two alterations and a value in flight cross, and the value is read as it was sent",
        "mode direct
context 7 ber
A open
carry A all
carry B all
carry A all
carry B all
A alter add 11 packed delete 7
B please 0
B alter add 2 ber delete 7
B please 1
carry B all
A invoke 2 add 5
carry A all
carry B all
",
        "mode direct
1 A open
  ok
2 carry A all
  A>B 03 00 00 16 11 E0 00 00 00 01 00 C0 01 0A C1 02 00 01 C2 02 00 01
3 carry B all
  B>A 03 00 00 0E 09 D0 00 01 00 02 00 C0 01 0A
4 carry A all
  A>B 03 00 00 6E 02 F0 80 0D 65 05 09 13 01 00 16 01 02 17 01 31 14 02 04 2A 33 02 00 01 34 02 00 01 C1 4C 31 4A A0 03 80 01 01 A2 43 81 02 00 01 82 02 00 01 A4 22 30 0F 02 01 01 06 04 52 01 00 01 30 04 06 02 51 01 30 0F 02 01 07 06 04 88 37 07 01 30 04 06 02 51 01 88 02 06 C0 61 11 30 0F 02 01 01 A0 0A 60 08 A1 06 06 04 88 37 05 03
  B: opened
5 carry B all
  B>A 03 00 00 5E 02 F0 80 0E 55 05 09 13 01 00 16 01 02 17 01 31 14 02 04 2A C1 44 31 42 A0 03 80 01 01 A2 3B 83 02 00 01 A5 12 30 07 80 01 00 81 02 51 01 30 07 80 01 00 81 02 51 01 88 02 06 C0 61 1D 30 1B 02 01 01 A0 16 61 14 A1 06 06 04 88 37 05 03 A2 03 02 01 00 A3 05 A1 03 02 01 00
  A: opened
6 A alter add 11 packed delete 7
  ok
7 B please 0
  ok
8 B alter add 2 ber delete 7
  ok
9 B please 1
  ok
10 carry B all
  B>A 03 00 00 0C 02 F0 80 02 03 10 01 04 03 00 00 23 02 F0 80 21 00 A0 18 A0 11 30 0F 02 01 02 06 04 88 37 07 01 30 04 06 02 51 01 A1 03 02 01 07 03 00 00 0C 02 F0 80 02 03 10 01 04
  A: please 0
  A: alter taken +2 0 -7 0
  A: please 0
11 A invoke 2 add 5
  ok 1
12 carry A all
  A>B 03 00 00 25 02 F0 80 21 00 A0 1A A0 13 30 11 02 01 0B 06 04 88 37 07 01 30 06 06 04 88 37 05 01 A1 03 02 01 07 03 00 00 1B 02 F0 80 21 00 A1 10 A0 09 30 07 80 01 00 81 02 51 01 A1 03 02 01 00 03 00 00 1F 02 F0 80 01 00 01 00 61 12 30 10 02 01 02 A0 0B A1 09 02 01 01 02 01 01 02 01 05
  B: alter taken +11 0 -7 0
  B: altered +2 0 -7 0
  B: invoked 1 add 5
13 carry B all
  B>A 03 00 00 1D 02 F0 80 21 00 A1 12 A0 0B 30 09 80 01 00 81 04 88 37 05 01 A1 03 02 01 00
  A: altered +11 0 -7 0
end A up
end B up
",
    ),
    (
        "a restart cuts what is open at both ends, and what was answered before it stands",
        "mode direct
context 5 ber der
A open
carry A all
carry B all
carry A all
carry B all
A invoke 5 add 2
carry A all
B invoke 5 add 6
carry B 37
A answer 1 6
carry A all
A invoke 5 note \"x\"
A resync 1
carry A 180
carry B all
",
        "mode direct
1 A open
  ok
2 carry A all
  A>B 03 00 00 16 11 E0 00 00 00 01 00 C0 01 0A C1 02 00 01 C2 02 00 01
3 carry B all
  B>A 03 00 00 0E 09 D0 00 01 00 02 00 C0 01 0A
4 carry A all
  A>B 03 00 00 73 02 F0 80 0D 6A 05 09 13 01 00 16 01 02 17 01 31 14 02 04 2A 33 02 00 01 34 02 00 01 C1 51 31 4F A0 03 80 01 01 A2 48 81 02 00 01 82 02 00 01 A4 27 30 0F 02 01 01 06 04 52 01 00 01 30 04 06 02 51 01 30 14 02 01 05 06 04 88 37 07 01 30 09 06 02 51 01 06 03 51 02 01 88 02 06 C0 61 11 30 0F 02 01 01 A0 0A 60 08 A1 06 06 04 88 37 05 03
  B: opened
5 carry B all
  B>A 03 00 00 5E 02 F0 80 0E 55 05 09 13 01 00 16 01 02 17 01 31 14 02 04 2A C1 44 31 42 A0 03 80 01 01 A2 3B 83 02 00 01 A5 12 30 07 80 01 00 81 02 51 01 30 07 80 01 00 81 02 51 01 88 02 06 C0 61 1D 30 1B 02 01 01 A0 16 61 14 A1 06 06 04 88 37 05 03 A2 03 02 01 00 A3 05 A1 03 02 01 00
  A: opened
6 A invoke 5 add 2
  ok 1
7 carry A all
  A>B 03 00 00 1F 02 F0 80 01 00 01 00 61 12 30 10 02 01 05 A0 0B A1 09 02 01 01 02 01 01 02 01 02
  B: invoked 1 add 2
8 B invoke 5 add 6
  ok 1
9 carry B 37
  B>A 03 00 00 1F 02 F0 80 01 00 01 00 61 12 30 10 02 01 05 A0 0B A1 09 02 01 01 02 01 01 02 01 06
  A: invoked 1 add 6
10 A answer 1 6
  ok
11 carry A all
  A>B 03 00 00 21 02 F0 80 01 00 01 00 61 14 30 12 02 01 05 A0 0D A2 0B 02 01 01 30 06 02 01 01 02 01 06
  B: result 1 6
12 A invoke 5 note \"x\"
  ok 2
13 A resync 1
  ok
14 carry A 180
  A>B 03 00 00 1F 02 F0 80 01 00 01 00 61 12 30 10 02 01 05 A0 0B A1 09 02 01 02 02 01 04 16 01 78 03 00 00 29 02 F0 80 01 00 35 1E 1B 01 00 2A 01 31 C1 16 30 14 A0 12 30 07 02 01 01 06 02 51 01 30 07 02 01 05 06 02 51 01
  B: invoked 2 note \"x\"
  B: cut peer 1
  B: restarted 1
15 carry B all
  B>A 03 00 00 26 02 F0 80 01 00 22 1B 2A 01 31 C1 16 30 14 A0 12 30 07 02 01 01 06 02 51 01 30 07 02 01 05 06 02 51 01
  A: cut own 1
  A: restarted 1
end A up
end B up
",
    ),
    (
        "an abort ends the association at both ends",
        "mode direct
context 5 packed
accepts A ber der
accepts B ber der
A open
carry A all
carry B all
carry A all
carry B all
B abort
carry B 116
",
        "mode direct
1 A open
  ok
2 carry A all
  A>B 03 00 00 16 11 E0 00 00 00 01 00 C0 01 0A C1 02 00 01 C2 02 00 01
3 carry B all
  B>A 03 00 00 0E 09 D0 00 01 00 02 00 C0 01 0A
4 carry A all
  A>B 03 00 00 70 02 F0 80 0D 67 05 09 13 01 00 16 01 02 17 01 31 14 02 04 2A 33 02 00 01 34 02 00 01 C1 4E 31 4C A0 03 80 01 01 A2 45 81 02 00 01 82 02 00 01 A4 24 30 0F 02 01 01 06 04 52 01 00 01 30 04 06 02 51 01 30 11 02 01 05 06 04 88 37 07 01 30 06 06 04 88 37 05 01 88 02 06 C0 61 11 30 0F 02 01 01 A0 0A 60 08 A1 06 06 04 88 37 05 03
  B: opened
5 carry B all
  B>A 03 00 00 5D 02 F0 80 0E 54 05 09 13 01 00 16 01 02 17 01 31 14 02 04 2A C1 43 31 41 A0 03 80 01 01 A2 3A 83 02 00 01 A5 11 30 07 80 01 00 81 02 51 01 30 06 80 01 02 82 01 02 88 02 06 C0 61 1D 30 1B 02 01 01 A0 16 61 14 A1 06 06 04 88 37 05 03 A2 03 02 01 00 A3 05 A1 03 02 01 00
  A: opened
6 B abort
  ok
7 carry B 116
  B>A 03 00 00 1E 02 F0 80 19 15 11 01 03 C1 10 A0 0E 61 0C 30 0A 02 01 01 A0 05 64 03 80 01 00
  A: aborted peer
end A over
end B over
",
    ),
    (
        "a transfer that a break loses is resumed behind a recovery, and arrives once",
        "mode reliable 2 2
context 5 packed
context 7 der
A open
carry A all
carry B all
carry A all
carry B all
A invoke 5 add 1
carry A all
carry B 120
A invoke 7 ask 1
break
A recover
carry A all
carry B 66
carry A all
carry B 28
carry B 84
carry B all
A resume
carry A all
carry B all
",
        "mode reliable
1 A open
  ok
2 carry A all
  A>B 03 00 00 16 11 E0 00 00 00 01 00 C0 01 0A C1 02 00 01 C2 02 00 01
3 carry B all
  B>A 03 00 00 0E 09 D0 00 01 00 02 00 C0 01 0A
4 carry A all
  A>B 03 00 00 C3 02 F0 80 0D BA 01 15 0A 04 72 65 66 31 0B 0D 32 36 30 31 30 31 30 30 30 30 30 30 5A 05 06 13 01 00 16 01 02 14 02 04 49 33 02 00 01 34 02 00 01 C1 8D 31 81 8A A0 03 80 01 01 A2 81 82 81 02 00 01 82 02 00 01 A4 47 30 0F 02 01 01 06 04 52 01 00 01 30 04 06 02 51 01 30 0F 02 01 03 06 04 88 37 05 02 30 04 06 02 51 01 30 11 02 01 05 06 04 88 37 07 01 30 06 06 04 88 37 05 01 30 10 02 01 07 06 04 88 37 07 01 30 05 06 03 51 02 01 88 02 06 C0 61 2B 30 29 02 01 01 A0 24 60 22 A1 06 06 04 88 37 05 04 BE 18 28 16 02 01 03 A0 11 B0 0F 80 01 02 81 01 02 82 01 01 A3 04 A0 02 05 00
  B: opened
5 carry B all
  B>A 03 00 00 87 02 F0 80 0E 7E 05 06 13 01 00 16 01 02 14 02 04 49 C1 70 31 6E A0 03 80 01 01 A2 67 83 02 00 01 A5 27 30 07 80 01 00 81 02 51 01 30 07 80 01 00 81 02 51 01 30 09 80 01 00 81 04 88 37 05 01 30 08 80 01 00 81 03 51 02 01 88 02 06 C0 61 34 30 32 02 01 01 A0 2D 61 2B A1 06 06 04 88 37 05 04 A2 03 02 01 00 A3 05 A1 03 02 01 00 BE 15 28 13 02 01 03 A0 0E B1 0C 80 01 02 81 01 02 A2 04 A0 02 05 00
  A: opened
6 A invoke 5 add 1
  ok 1
7 carry A all
  A>B 03 00 00 0E 02 F0 80 01 00 2D 03 29 01 31 03 00 00 27 02 F0 80 01 00 01 00 61 1A 30 18 02 01 03 A0 13 04 11 30 0F 02 01 05 81 0A 01 01 01 00 00 01 01 01 01 01 03 00 00 0E 02 F0 80 01 00 29 03 2A 01 31
  B: invoked 1 add 1
8 carry B 120
  B>A 03 00 00 0E 02 F0 80 01 00 2A 03 2A 01 31
  A: transferred 1
9 A invoke 7 ask 1
  ok 2
10 break
11 A recover
  ok
12 carry A all
  A>B 03 00 00 16 11 E0 00 00 00 01 00 C0 01 0A C1 02 00 01 C2 02 00 01
13 carry B 66
  B>A 03 00 00 0E 09 D0 00 01 00 02 00 C0 01 0A
14 carry A all
  A>B 03 00 00 D6 02 F0 80 0D CD 01 15 0A 04 72 65 66 31 0B 0D 32 36 30 31 30 31 30 30 30 30 30 30 5A 05 06 13 01 00 16 01 02 14 02 04 49 33 02 00 01 34 02 00 01 C1 A0 31 81 9D A0 03 80 01 01 A2 81 95 81 02 00 01 82 02 00 01 A4 47 30 0F 02 01 01 06 04 52 01 00 01 30 04 06 02 51 01 30 0F 02 01 03 06 04 88 37 05 02 30 04 06 02 51 01 30 11 02 01 05 06 04 88 37 07 01 30 06 06 04 88 37 05 01 30 10 02 01 07 06 04 88 37 07 01 30 05 06 03 51 02 01 88 02 06 C0 61 3E 30 3C 02 01 01 A0 37 60 35 A1 06 06 04 88 37 05 04 BE 2B 28 29 02 01 03 A0 24 B0 22 80 01 02 81 01 02 82 01 01 A3 17 A1 15 04 04 72 65 66 31 17 0D 32 36 30 31 30 31 30 30 30 30 30 30 5A
  B: recovered
15 carry B 28
  B>A 03 00 00 9B 02 F0 80 0E 92 05 06 13 01 00 16 01 02 14 02 04 49 C1 84 31 81 81 A0 03
16 carry B 84
  B>A 80 01 01 A2 7A 83 02 00 01 A5 27 30 07 80 01 00 81 02 51 01 30 07 80 01 00 81 02 51 01 30 09 80 01 00 81 04 88 37 05 01 30 08 80 01 00 81 03 51 02 01 88 02 06 C0 61 47 30 45 02 01 01 A0 40 61 3E A1 06 06 04 88 37 05 04 A2 03 02 01 00 A3 05 A1 03 02 01
17 carry B all
  B>A 00 BE 28 28 26 02 01 03 A0 21 B1 1F 80 01 02 81 01 02 A2 17 A1 15 04 04 72 65 66 31 17 0D 32 36 30 31 30 31 30 30 30 30 30 30 5A
  A: recovered
18 A resume
  ok
19 carry A all
  A>B 03 00 00 16 02 F0 80 01 00 1D 0B 21 06 29 01 32 2A 01 30 29 01 32 03 00 00 28 02 F0 80 01 00 01 00 61 1B 30 19 02 01 03 A0 14 04 12 30 10 02 01 07 A0 0B A1 09 02 01 02 02 01 03 02 01 01 03 00 00 0E 02 F0 80 01 00 29 03 2A 01 31
  B: resumed 2 0
  B: invoked 2 ask 1
20 carry B all
  B>A 03 00 00 0E 02 F0 80 01 00 2A 03 2A 01 31
  A: transferred 2
end A up
end B up
",
    ),
    (
        "an addition of two contexts of which the peer takes one; and a context that it took none of from the start",
        "mode direct
context 5 packed
accepts A ber der
accepts B ber der
A open
carry A all
carry B all
carry A all
carry B all
carry A all
carry A all
carry A all
carry A all
carry A all
carry A all
B answer 1 0
carry A all
B invoke 5 add 6
carry A all
carry B all
carry A all
carry B all
carry B all
carry B all
B alter add 2 ber add 4 as {2 999 1} packed der
carry A 95
carry B all
B alter add 6 der
carry A all
",
        "mode direct
1 A open
  ok
2 carry A all
  A>B 03 00 00 16 11 E0 00 00 00 01 00 C0 01 0A C1 02 00 01 C2 02 00 01
3 carry B all
  B>A 03 00 00 0E 09 D0 00 01 00 02 00 C0 01 0A
4 carry A all
  A>B 03 00 00 70 02 F0 80 0D 67 05 09 13 01 00 16 01 02 17 01 31 14 02 04 2A 33 02 00 01 34 02 00 01 C1 4E 31 4C A0 03 80 01 01 A2 45 81 02 00 01 82 02 00 01 A4 24 30 0F 02 01 01 06 04 52 01 00 01 30 04 06 02 51 01 30 11 02 01 05 06 04 88 37 07 01 30 06 06 04 88 37 05 01 88 02 06 C0 61 11 30 0F 02 01 01 A0 0A 60 08 A1 06 06 04 88 37 05 03
  B: opened
5 carry B all
  B>A 03 00 00 5D 02 F0 80 0E 54 05 09 13 01 00 16 01 02 17 01 31 14 02 04 2A C1 43 31 41 A0 03 80 01 01 A2 3A 83 02 00 01 A5 11 30 07 80 01 00 81 02 51 01 30 06 80 01 02 82 01 02 88 02 06 C0 61 1D 30 1B 02 01 01 A0 16 61 14 A1 06 06 04 88 37 05 03 A2 03 02 01 00 A3 05 A1 03 02 01 00
  A: opened
6 carry A all
  A>B
7 carry A all
  A>B
8 carry A all
  A>B
9 carry A all
  A>B
10 carry A all
  A>B
11 carry A all
  A>B
12 B answer 1 0
  refused NoInvocation 1
13 carry A all
  A>B
14 B invoke 5 add 6
  refused Absent 5
15 carry A all
  A>B
16 carry B all
  B>A
17 carry A all
  A>B
18 carry B all
  B>A
19 carry B all
  B>A
20 carry B all
  B>A
21 B alter add 2 ber add 4 as {2 999 1} packed der
  ok
22 carry A 95
  A>B
23 carry B all
  B>A 03 00 00 35 02 F0 80 21 00 A0 2A A0 28 30 0F 02 01 02 06 04 88 37 07 01 30 04 06 02 51 01 30 15 02 01 04 06 03 88 37 01 30 0B 06 04 88 37 05 01 06 03 51 02 01
  A: alter taken +2 0 +4 2
24 B alter add 6 der
  ok
25 carry A all
  A>B 03 00 00 1E 02 F0 80 21 00 A1 13 A0 11 30 07 80 01 00 81 02 51 01 30 06 80 01 02 82 01 01
  B: altered +2 0 +4 2
end A up
end B up
",
    ),
    (
        "by hand: a release is the initiator's",
        "mode direct
context 5 ber
A open
carry A all
carry B all
carry A all
carry B all
B release
",
        "mode direct
1 A open
  ok
2 carry A all
  A>B 03 00 00 16 11 E0 00 00 00 01 00 C0 01 0A C1 02 00 01 C2 02 00 01
3 carry B all
  B>A 03 00 00 0E 09 D0 00 01 00 02 00 C0 01 0A
4 carry A all
  A>B 03 00 00 6E 02 F0 80 0D 65 05 09 13 01 00 16 01 02 17 01 31 14 02 04 2A 33 02 00 01 34 02 00 01 C1 4C 31 4A A0 03 80 01 01 A2 43 81 02 00 01 82 02 00 01 A4 22 30 0F 02 01 01 06 04 52 01 00 01 30 04 06 02 51 01 30 0F 02 01 05 06 04 88 37 07 01 30 04 06 02 51 01 88 02 06 C0 61 11 30 0F 02 01 01 A0 0A 60 08 A1 06 06 04 88 37 05 03
  B: opened
5 carry B all
  B>A 03 00 00 5E 02 F0 80 0E 55 05 09 13 01 00 16 01 02 17 01 31 14 02 04 2A C1 44 31 42 A0 03 80 01 01 A2 3B 83 02 00 01 A5 12 30 07 80 01 00 81 02 51 01 30 07 80 01 00 81 02 51 01 88 02 06 C0 61 1D 30 1B 02 01 01 A0 16 61 14 A1 06 06 04 88 37 05 03 A2 03 02 01 00 A3 05 A1 03 02 01 00
  A: opened
6 B release
  refused NotInitiator
end A up
end B up
",
    ),
];

#[test]
fn replays_associations(rt: HostRuntime) {
    for (shows, schedule, transcript) in &RUNS {
        assert!(rt; replays(&rt, rt.alloc(), schedule, transcript), "{shows}");
    }
}

/// What stands in a schedule in front of a long value, and behind it.
type Around = (&'static str, &'static str);

/// The schedule, with a value of so many octets, each 0.
fn with_octets(rt: &impl Abort, alloc: Global, around: Around, count: usize) -> String {
    let (front, rest) = around;
    let mut digits = String::new(alloc);
    for _ in 0..count {
        digits.push_str("00").expect(rt, "memory");
    }
    format!(in alloc; "{front}'{digits}'H{rest}").expect(rt, "memory")
}

/// A schedule of bare mode in which 300 octets are carried of an invocation that has more: its
/// value has 300.
const CARRIED: Around = ("mode bare\nA invoke 0 store ", "\ncarry A 300\n");

/// Its summary, by hand: two events, and no invocation that came whole.
const CARRIED_SUMMARY: &str = "events 2
octets A>B 300
octets B>A 0
values 0
outcomes 0
rejects 0
cut 0
transfers 0
refused 0
end A up
end B up
";

#[test]
fn carries_as_many_octets_as_are_asked_for(rt: HostRuntime) {
    let schedule = with_octets(&rt, rt.alloc(), CARRIED, 300);
    let is_so = sums_up(&rt, rt.alloc(), schedule.as_str(), CARRIED_SUMMARY);
    drop(schedule);
    assert!(rt; is_so);
}

/// A schedule in which the transfer of a value of 1,100 octets is interrupted, resumed and
/// confirmed, and the connection breaks behind it and is recovered.
const INTERRUPTED: Around = (
    "mode reliable 1 1
context 5 packed
context 9 der
context 7 ber packed
A open
carry A all
carry B all
carry A all
carry B all
A answer 2 4
carry B 7
A invoke 7 add 0
carry A all
B interrupt
carry B 2
A invoke 5 store ",
    "
A answer 2 4
carry B 140
carry A 165
A interrupt
B invoke 9 add 8
A resume
B resume
carry A 110
carry A 158
carry A 94
carry A 182
carry A 75
A resume
carry A all
carry B all
A answer 1 6
A resume
carry A 125
carry A 119
carry A all
carry B 35
B answer 1 7
carry A all
carry B 130
break
B resume
A resume
A recover
carry A 176
carry A 143
A give
carry B 66
carry A 194
carry B 132
carry A all
carry A all
carry B 84
carry B 62
carry B 22
carry A 55
carry A 18
A answer 1 7
A resume
",
);

/// What the model gave as the transcript of that schedule, summed up: how many events it has,
/// octets each way, values taken, transfers and refused calls, and in which phases the ends are
/// left.
const INTERRUPTED_SUMMARY: &str = "events 55
octets A>B 2902
octets B>A 404
values 2
outcomes 0
rejects 0
cut 0
transfers 2
refused 12
end A up
end B up
";

#[test]
fn resumes_an_interrupted_transfer(rt: HostRuntime) {
    let schedule = with_octets(&rt, rt.alloc(), INTERRUPTED, 1_100);
    let is_so = sums_up(&rt, rt.alloc(), schedule.as_str(), INTERRUPTED_SUMMARY);
    drop(schedule);
    assert!(rt; is_so);
}

/// A schedule in which a value of 1,100 octets goes on a context that was added, and the connection
/// breaks behind the first 1,024 of them: behind the recovery the context isn't there, and the mark
/// from which the transfer is resumed brings it back.
const BROUGHT_BACK: Around = (
    "mode reliable 1 1
context 5 ber
A open
carry A all
carry B all
carry A all
carry B all
A alter add 7 ber
carry A all
carry B all
A invoke 7 store ",
    "
carry A all
carry B all
break
A recover
carry A all
carry B all
carry A all
carry B all
A resume
carry A all
carry B all
",
);

/// How its transcript ends, by hand: the value is confirmed, at the mark behind that of its first
/// octets.
const BROUGHT_BACK_END: &str = "
20 carry B all
  B>A 03 00 00 0E 02 F0 80 01 00 2A 03 2A 01 32
  A: transferred 1
end A up
end B up
";

/// Whether the replay of a schedule has a transcript that ends so.
fn ends_so(rt: &impl Abort, alloc: Global, schedule: &str, end: &str) -> bool {
    let files = [("module", CALC_MODULE), ("schedule", schedule.as_bytes())];
    let said = ["replay", "module", "schedule"];
    let (status, written) = run(rt, alloc, &files, &said);
    let is_so = status == Status::Done && written.as_slice().ends_with(end.as_bytes());
    drop(written);
    is_so
}

#[test]
fn a_mark_brings_a_context_back(rt: HostRuntime) {
    let schedule = with_octets(&rt, rt.alloc(), BROUGHT_BACK, 1_100);
    let is_so = ends_so(&rt, rt.alloc(), schedule.as_str(), BROUGHT_BACK_END);
    drop(schedule);
    assert!(rt; is_so);
}
