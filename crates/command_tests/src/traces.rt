//! What no clause says of traces: whole runs with ample memory, among them those of the examples.
//! The octets are those of worked dialogues; where a row tells that it is by hand, the APDU is laid
//! out by X.882 9, and the data value around it by X.226 8.4.2. The units that a line names, and
//! how many octets a value has, are read off these octets.

use crate::runs::gives;
use crate::whole_runs::ONE_MODULE;
use osi_base::Status;
use std::alloc::Global;
use std::process::Abort;
use std::test::*;

/// Whether the trace of a recording, by the tables of a module, ends with this status and output.
fn traces(
    rt: &impl Abort,
    alloc: Global,
    module: &[u8],
    recording: &str,
    status: Status,
    text: &str,
) -> bool {
    let files = [("module", module), ("recording", recording.as_bytes())];
    let said = ["trace", "module", "recording"];
    gives(rt, alloc, &files, &said, status, text.as_bytes())
}

/// A connect unit of the session protocol, with a request for an association.
const CONNECT: &str =
    "A>B 03 00 00 6E 02 F0 80 0D 65 05 09 13 01 00 16 01 02 17 01 31 14 02 04 2A 33 02 00 01 34 02 00 01 C1 4C 31 4A
A>B A0 03 80 01 01 A2 43 81 02 00 01 82 02 00 01 A4 22 30 0F 02 01 01 06 04 52 01 00 01 30 04 06 02 51 01 30 0F 02
A>B 01 05 06 04 88 37 07 01 30 04 06 02 51 01 88 02 06 C0 61 11 30 0F 02 01 01 A0 0A 60 08 A1 06 06 04 88 37 05 03
";

/// Recordings, and what they say by the tables of the module with one operation.
const RECORDINGS: [(&str, &str); 7] = [
    // an invocation with the identifier 1, on context 5: a session unit GIVE TOKENS in front of
    // its DATA TRANSFER
    (
        "A>B 03 00 00 1F 02 F0 80 01 00 01 00 61 12 30 10 02 01 05 A0 0B A1 09 02 01 01 02 01 01 02 01 05\n",
        "A>B GT+DT 5:invoke 1 add\n",
    ),
    // the same eleven octets as a string of bits, which is read as no invocation, by hand
    (
        "A>B 03 00 00 20 02 F0 80 01 00 01 00 61 13 30 11 02 01 05 82 0C 00 A1 09 02 01 01 02 01 01 02 01 05\n",
        "A>B GT+DT 5:value 11\n",
    ),
    // a CONNECT with its CP, whose AARQ on context 1 has 10 octets; its packet stands in three
    // lines
    (CONNECT, "A>B CN CP 1:value 10\n"),
    // a packet's length of 6, which has no room for a unit of the transport: the place of the
    // length, behind two octets
    ("A>B 03 00 00 06\n", "A>B fault transport 2 Length\n"),
    // TYPED DATA with an alteration, AC, which deletes context 5; and with its answer, ACA
    (
        "A>B 03 00 00 10 02 F0 80 21 00 A0 05 A1 03 02 01 05\nA>B 03 00 00 10 02 F0 80 21 00 A1 05 A1 03 02 01 00\n",
        "A>B TD AC\nA>B TD ACA\n",
    ),
    // RESYNCHRONIZE behind GIVE TOKENS, with the unit RS and its list of two contexts
    (
        "B>A 03 00 00 29 02 F0 80 01 00 35 1E 1B 01 00 2A 01 32 C1 16 30 14 A0 12 30 07 02 01 01 06 02 51 01 30 07 02 01 05 06 02 51 01\n",
        "B>A GT+RS RS\n",
    ),
    // RESYNCHRONIZE ACK behind GIVE TOKENS, with the unit RSA and the same list
    (
        "A>B 03 00 00 26 02 F0 80 01 00 22 1B 2A 01 32 C1 16 30 14 A0 12 30 07 02 01 01 06 02 51 01 30 07 02 01 05 06 02 51 01\n",
        "A>B GT+RA RSA\n",
    ),
];

#[test]
fn traces_recordings(rt: HostRuntime) {
    for (recording, text) in &RECORDINGS {
        assert!(rt; traces(&rt, rt.alloc(), ONE_MODULE, recording, Status::Done, text));
    }
}

/// A field of one digit in line 1.
#[test]
fn refuses_a_recording_with_an_odd_digit(rt: HostRuntime) {
    let status = Status::ScriptRefused;
    let text = "script refused 1 BadField\n";
    assert!(rt; traces(&rt, rt.alloc(), ONE_MODULE, "A>B 0\n", status, text));
}

/// The module of the recordings in `examples/`.
pub(crate) const CALC_MODULE: &[u8] = b"Calc {2 999 7 1} DEFINITIONS IMPLICIT TAGS ::= BEGIN
IMPORTS OPERATION, ERROR FROM Remote-Operations-Information-Objects
  {joint-iso-itu-t remote-operations(4) informationObjects(5) version1(0)};
add OPERATION ::= {ARGUMENT INTEGER RESULT INTEGER ERRORS {overflow} LINKED {ask} CODE local:1}
store OPERATION ::= {ARGUMENT OCTET STRING RESULT NULL CODE local:2}
ask OPERATION ::= {ARGUMENT INTEGER RESULT INTEGER CODE local:3}
note OPERATION ::= {ARGUMENT IA5String RETURN RESULT FALSE CODE local:4}
overflow ERROR ::= {PARAMETER INTEGER CODE local:1}
END
";

/// The recording of an opening in direct mode, an invocation, an alteration and the release.
const DIRECT: &str =
    "The opening of a connection in direct mode, one invocation with its result, an alteration and the release.
A>B 03 00 00 16 11 E0 00 00 00 01 00 C0 01 0A C1 02 00 01 C2 02 00 01
B>A 03 00 00 0E 09 D0 00 01 00 02 00 C0 01 0A
A>B 03 00 00 6E 02 F0 80 0D 65 05 09 13 01 00 16 01 02 17 01 31 14 02 04 2A 33 02 00 01 34 02 00 01 C1 4C 31 4A A0 03 80 01 01
A>B A2 43 81 02 00 01 82 02 00 01 A4 22 30 0F 02 01 01 06 04 52 01 00 01 30 04 06 02 51 01 30 0F 02 01 05 06 04 88 37 07 01 30 04
A>B 06 02 51 01 88 02 06 C0 61 11 30 0F 02 01 01 A0 0A 60 08 A1 06 06 04 88 37 05 03
B>A 03 00 00 5E 02 F0 80 0E 55 05 09 13 01 00 16 01 02 17 01 31 14 02 04 2A C1 44 31 42 A0 03 80 01 01 A2 3B 83 02 00 01 A5 12 30
B>A 07 80 01 00 81 02 51 01 30 07 80 01 00 81 02 51 01 88 02 06 C0 61 1D 30 1B 02 01 01 A0 16 61 14 A1 06 06 04 88 37 05 03 A2 03
B>A 02 01 00 A3 05 A1 03 02 01 00
A>B 03 00 00 1F 02 F0 80 01 00 01 00 61 12 30 10 02 01 05 A0 0B A1 09 02 01 01 02 01 01 02 01 05
B>A 03 00 00 21 02 F0 80 01 00 01 00 61 14 30 12 02 01 05 A0 0D A2 0B 02 01 01 30 06 02 01 01 02 01 05
A>B 03 00 00 10 02 F0 80 21 00 A0 05 A1 03 02 01 05
B>A 03 00 00 10 02 F0 80 21 00 A1 05 A1 03 02 01 00
A>B 03 00 00 1C 02 F0 80 09 13 11 01 01 C1 0E 61 0C 30 0A 02 01 01 A0 05 62 03 80 01 00
B>A 03 00 00 19 02 F0 80 0A 10 C1 0E 61 0C 30 0A 02 01 01 A0 05 63 03 80 01 00
";

/// The transcript of a transfer in reliable mode.
const RELIABLE: &str =
    "A transcript is a recording too: its lines of octets are traced, and all others are passed over.
mode reliable
1 A open
  ok
2 carry A all
  A>B 03 00 00 16 11 E0 00 00 00 01 00 C0 01 0A C1 02 00 01 C2 02 00 01
3 carry B all
  B>A 03 00 00 0E 09 D0 00 01 00 02 00 C0 01 0A
4 carry A all
  A>B 03 00 00 B4 02 F0 80 0D AB 01 15 0A 04 72 65 66 31 0B 0D 32 36 30 31 30 31 30 30 30 30 30 30 5A 05 06 13 01 00 16 01 02 14 02 04 49 33 02 00 01 34 02 00 01 C1 7E 31 7C A0 03 80 01 01 A2 75 81 02 00 01 82 02 00 01 A4 3A 30 0F 02 01 01 06 04 52 01 00 01 30 04 06 02 51 01 30 0F 02 01 03 06 04 88 37 05 02 30 04 06 02 51 01 30 16 02 01 07 06 04 88 37 07 01 30 0B 06 04 88 37 05 01 06 03 51 02 01 88 02 06 C0 61 2B 30 29 02 01 01 A0 24 60 22 A1 06 06 04 88 37 05 04 BE 18 28 16 02 01 03 A0 11 B0 0F 80 01 01 81 01 01 82 01 01 A3 04 A0 02 05 00
  B: opened
5 carry B all
  B>A 03 00 00 7D 02 F0 80 0E 74 05 06 13 01 00 16 01 02 14 02 04 49 C1 66 31 64 A0 03 80 01 01 A2 5D 83 02 00 01 A5 1D 30 07 80 01 00 81 02 51 01 30 07 80 01 00 81 02 51 01 30 09 80 01 00 81 04 88 37 05 01 88 02 06 C0 61 34 30 32 02 01 01 A0 2D 61 2B A1 06 06 04 88 37 05 04 A2 03 02 01 00 A3 05 A1 03 02 01 00 BE 15 28 13 02 01 03 A0 0E B1 0C 80 01 01 81 01 01 A2 04 A0 02 05 00
  A: opened
6 A invoke 7 add 0
  ok 1
7 carry A all
  A>B 03 00 00 0E 02 F0 80 01 00 2D 03 29 01 31 03 00 00 27 02 F0 80 01 00 01 00 61 1A 30 18 02 01 03 A0 13 04 11 30 0F 02 01 07 81 0A 01 01 01 00 00 01 01 01 01 00 03 00 00 0E 02 F0 80 01 00 29 03 2A 01 31
  B: invoked 1 add 0
8 carry B all
  B>A 03 00 00 0E 02 F0 80 01 00 2A 03 2A 01 31
  A: transferred 1
end A up
end B up
";

/// A recording in bare mode.
const BARE: &str =
    "In bare mode no packet carries an APDU, and a trace begins with packets: it tells that there is none.
A>B A1 09 02 01 01 02 01 01 02 01 05
B>A A2 0B 02 01 01 30 06 02 01 01 02 01 05
";

/// What the recording in direct mode says.
const DIRECT_TRACE: &str = "A>B CR
B>A CC
A>B CN CP 1:value 10
B>A AC CPA 1:value 22
A>B GT+DT 5:invoke 1 add
B>A GT+DT 5:result 1
A>B TD AC
B>A TD ACA
A>B FN 1:value 5
B>A DN 1:value 5
";

/// What the transcript in reliable mode says.
const RELIABLE_TRACE: &str = "A>B CR
B>A CC
A>B CN CP 1:value 36
B>A AC CPA 1:value 45
A>B GT+AS
A>B GT+DT 3:value 19
A>B GT+AE
B>A GT+AEA
";

/// The recordings in `examples/`, and what they say.
const EXAMPLES: [(&str, &str); 3] = [
    (DIRECT, DIRECT_TRACE),
    (RELIABLE, RELIABLE_TRACE),
    (
        BARE,
        "A>B fault transport 0 Tag\nB>A fault transport 0 Tag\n",
    ),
];

#[test]
fn traces_the_examples(rt: HostRuntime) {
    for (recording, text) in &EXAMPLES {
        assert!(rt; traces(&rt, rt.alloc(), CALC_MODULE, recording, Status::Done, text));
    }
}

/// An error and a reject of the invocation 1, each behind GIVE TOKENS, by hand.
const OUTCOMES: &str =
    "B>A 03 00 00 1F 02 F0 80 01 00 01 00 61 12 30 10 02 01 05 A0 0B A3 09 02 01 01 02 01 01 02 01 05
B>A 03 00 00 1C 02 F0 80 01 00 01 00 61 0F 30 0D 02 01 05 A0 08 A4 06 02 01 01 82 01 02
";

/// What they say: an error by its name, and the problem 2 of a result (X.880 9.4).
const OUTCOMES_TRACE: &str = "B>A GT+DT 5:error 1 overflow
B>A GT+DT 5:reject 1 result 2
";

#[test]
fn traces_an_error_and_a_reject(rt: HostRuntime) {
    let status = Status::Done;
    assert!(rt;
        traces(
            &rt,
            rt.alloc(),
            CALC_MODULE,
            OUTCOMES,
            status,
            OUTCOMES_TRACE
        )
    );
}

/// The text ends behind its first word and a line feed: the place is the front of line 2.
#[test]
fn refuses_a_module_at_its_fault(rt: HostRuntime) {
    let status = Status::ModuleRefused;
    let text = "module refused 2 1 UnexpectedToken\n";
    assert!(rt; traces(&rt, rt.alloc(), b"One\n", "", status, text));
}
