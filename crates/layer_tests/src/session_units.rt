//! Octets of each unit: those of worked dialogues, and others that are laid out by hand by X.225
//! 8.2 and 8.3, which are named so. Places of faults are counted in the octets.
//! The octets of a worked dialogue were given by a model of the rules that was written apart from
//! this program and isn't part of this repository.

ghost use Rattle.std.specs.Prelude.{◌≡◌, ◌≤◌, true, [], ◌∷◌, ◌++◌, length};
ghost use Rattle.spdu_codec.specs.Written.{AreFields, AreWritable, octets_in, stands_alone, stands_second};

use osi_base::{Kind, Octets, SessionConnect, SessionWord, Spdus};
use spdu_codec::{SFault, read_spdus, write_spdus};
use std::alloc::Global;
use std::process::Abort;
use std::test::*;

/// The presentation data of a connect, of an accept and of a restart of worked dialogues.
const CONNECT_DATA: &'static [u8] = &[
    0x31, 0x4A, 0xA0, 0x03, 0x80, 0x01, 0x01, 0xA2, 0x43, 0x81, 0x02, 0x00, 0x01, 0x82, 0x02, 0x00,
    0x01, 0xA4, 0x22, 0x30, 0x0F, 0x02, 0x01, 0x01, 0x06, 0x04, 0x52, 0x01, 0x00, 0x01, 0x30, 0x04,
    0x06, 0x02, 0x51, 0x01, 0x30, 0x0F, 0x02, 0x01, 0x05, 0x06, 0x04, 0x88, 0x37, 0x07, 0x01, 0x30,
    0x04, 0x06, 0x02, 0x51, 0x01, 0x88, 0x02, 0x06, 0xC0, 0x61, 0x11, 0x30, 0x0F, 0x02, 0x01, 0x01,
    0xA0, 0x0A, 0x60, 0x08, 0xA1, 0x06, 0x06, 0x04, 0x88, 0x37, 0x05, 0x03,
];

const ACCEPT_DATA: &'static [u8] = &[
    0x31, 0x42, 0xA0, 0x03, 0x80, 0x01, 0x01, 0xA2, 0x3B, 0x83, 0x02, 0x00, 0x01, 0xA5, 0x12, 0x30,
    0x07, 0x80, 0x01, 0x00, 0x81, 0x02, 0x51, 0x01, 0x30, 0x07, 0x80, 0x01, 0x00, 0x81, 0x02, 0x51,
    0x01, 0x88, 0x02, 0x06, 0xC0, 0x61, 0x1D, 0x30, 0x1B, 0x02, 0x01, 0x01, 0xA0, 0x16, 0x61, 0x14,
    0xA1, 0x06, 0x06, 0x04, 0x88, 0x37, 0x05, 0x03, 0xA2, 0x03, 0x02, 0x01, 0x00, 0xA3, 0x05, 0xA1,
    0x03, 0x02, 0x01, 0x00,
];

const RESTART_DATA: &'static [u8] = &[
    0x30, 0x14, 0xA0, 0x12, 0x30, 0x07, 0x02, 0x01, 0x01, 0x06, 0x02, 0x51, 0x01, 0x30, 0x07, 0x02,
    0x01, 0x05, 0x06, 0x02, 0x51, 0x01,
];

/// The octets of a connect, of an accept, of a restart and of its answer, of the same dialogues.
const CONNECT: &'static [u8] = &[
    0x0D, 0x65, 0x05, 0x09, 0x13, 0x01, 0x00, 0x16, 0x01, 0x02, 0x17, 0x01, 0x31, 0x14, 0x02, 0x04,
    0x2A, 0x33, 0x02, 0x00, 0x01, 0x34, 0x02, 0x00, 0x01, 0xC1, 0x4C, 0x31, 0x4A, 0xA0, 0x03, 0x80,
    0x01, 0x01, 0xA2, 0x43, 0x81, 0x02, 0x00, 0x01, 0x82, 0x02, 0x00, 0x01, 0xA4, 0x22, 0x30, 0x0F,
    0x02, 0x01, 0x01, 0x06, 0x04, 0x52, 0x01, 0x00, 0x01, 0x30, 0x04, 0x06, 0x02, 0x51, 0x01, 0x30,
    0x0F, 0x02, 0x01, 0x05, 0x06, 0x04, 0x88, 0x37, 0x07, 0x01, 0x30, 0x04, 0x06, 0x02, 0x51, 0x01,
    0x88, 0x02, 0x06, 0xC0, 0x61, 0x11, 0x30, 0x0F, 0x02, 0x01, 0x01, 0xA0, 0x0A, 0x60, 0x08, 0xA1,
    0x06, 0x06, 0x04, 0x88, 0x37, 0x05, 0x03,
];

const ACCEPT: &'static [u8] = &[
    0x0E, 0x55, 0x05, 0x09, 0x13, 0x01, 0x00, 0x16, 0x01, 0x02, 0x17, 0x01, 0x31, 0x14, 0x02, 0x04,
    0x2A, 0xC1, 0x44, 0x31, 0x42, 0xA0, 0x03, 0x80, 0x01, 0x01, 0xA2, 0x3B, 0x83, 0x02, 0x00, 0x01,
    0xA5, 0x12, 0x30, 0x07, 0x80, 0x01, 0x00, 0x81, 0x02, 0x51, 0x01, 0x30, 0x07, 0x80, 0x01, 0x00,
    0x81, 0x02, 0x51, 0x01, 0x88, 0x02, 0x06, 0xC0, 0x61, 0x1D, 0x30, 0x1B, 0x02, 0x01, 0x01, 0xA0,
    0x16, 0x61, 0x14, 0xA1, 0x06, 0x06, 0x04, 0x88, 0x37, 0x05, 0x03, 0xA2, 0x03, 0x02, 0x01, 0x00,
    0xA3, 0x05, 0xA1, 0x03, 0x02, 0x01, 0x00,
];

const RESTART: &'static [u8] = &[
    0x01, 0x00, 0x35, 0x1E, 0x1B, 0x01, 0x00, 0x2A, 0x01, 0x32, 0xC1, 0x16, 0x30, 0x14, 0xA0, 0x12,
    0x30, 0x07, 0x02, 0x01, 0x01, 0x06, 0x02, 0x51, 0x01, 0x30, 0x07, 0x02, 0x01, 0x05, 0x06, 0x02,
    0x51, 0x01,
];

const RESTARTED: &'static [u8] = &[
    0x01, 0x00, 0x22, 0x1B, 0x2A, 0x01, 0x32, 0xC1, 0x16, 0x30, 0x14, 0xA0, 0x12, 0x30, 0x07, 0x02,
    0x01, 0x01, 0x06, 0x02, 0x51, 0x01, 0x30, 0x07, 0x02, 0x01, 0x05, 0x06, 0x02, 0x51, 0x01,
];

/// A connect with references and a token setting, by hand: `ref1` and `260101000000Z`, each behind
/// its code and its length.
const CONNECT_WITH_REFERENCES: &'static [u8] = &[
    0x0D, 0x28, 0x01, 0x15, 0x0A, 0x04, 0x72, 0x65, 0x66, 0x31, 0x0B, 0x0D, 0x32, 0x36, 0x30, 0x31,
    0x30, 0x31, 0x30, 0x30, 0x30, 0x30, 0x30, 0x30, 0x5A, 0x05, 0x09, 0x13, 0x01, 0x00, 0x16, 0x01,
    0x02, 0x1A, 0x01, 0x00, 0x14, 0x02, 0x04, 0x49, 0xC1, 0x00,
];

/// An accept with requirements and user data alone, by hand.
const SHORT_ACCEPT: &'static [u8] = &[0x0E, 0x08, 0x14, 0x02, 0x00, 0x02, 0xC1, 0x02, 0x31, 0x00];

/// A refusal with a reason and user data, by hand.
const REFUSE: &'static [u8] = &[0x0C, 0x08, 0x11, 0x01, 0x01, 0x32, 0x03, 0x02, 0x30, 0x00];

/// The presentation data of a release, of its answer and of an abort of worked dialogues, each in
/// front of its unit.
const FINISH_DATA: &'static [u8] = &[
    0x61, 0x0C, 0x30, 0x0A, 0x02, 0x01, 0x01, 0xA0, 0x05, 0x62, 0x03, 0x80, 0x01, 0x00,
];

const FINISH: &'static [u8] = &[
    0x09, 0x13, 0x11, 0x01, 0x01, 0xC1, 0x0E, 0x61, 0x0C, 0x30, 0x0A, 0x02, 0x01, 0x01, 0xA0, 0x05,
    0x62, 0x03, 0x80, 0x01, 0x00,
];

const DISCONNECT_DATA: &'static [u8] = &[
    0x61, 0x0C, 0x30, 0x0A, 0x02, 0x01, 0x01, 0xA0, 0x05, 0x63, 0x03, 0x80, 0x01, 0x00,
];

const DISCONNECT: &'static [u8] = &[
    0x0A, 0x10, 0xC1, 0x0E, 0x61, 0x0C, 0x30, 0x0A, 0x02, 0x01, 0x01, 0xA0, 0x05, 0x63, 0x03, 0x80,
    0x01, 0x00,
];

const ABORT_DATA: &'static [u8] = &[
    0xA0, 0x0E, 0x61, 0x0C, 0x30, 0x0A, 0x02, 0x01, 0x01, 0xA0, 0x05, 0x64, 0x03, 0x80, 0x01, 0x00,
];

/// An abort of the association, and one of the presentation, of worked dialogues.
const ABORT: &'static [u8] = &[
    0x19, 0x15, 0x11, 0x01, 0x03, 0xC1, 0x10, 0xA0, 0x0E, 0x61, 0x0C, 0x30, 0x0A, 0x02, 0x01, 0x01,
    0xA0, 0x05, 0x64, 0x03, 0x80, 0x01, 0x00,
];

const PROVIDER_ABORT: &'static [u8] = &[
    0x19, 0x0A, 0x11, 0x01, 0x03, 0xC1, 0x05, 0x30, 0x03, 0x80, 0x01, 0x06,
];

/// An alteration of a worked dialogue.
const TYPED_DATA: &'static [u8] = &[0x21, 0x00, 0xA0, 0x05, 0xA1, 0x03, 0x02, 0x01, 0x05];

/// An invocation of a worked dialogue in its presentation data, and in a unit.
const INVOCATION: &'static [u8] = &[
    0x61, 0x12, 0x30, 0x10, 0x02, 0x01, 0x05, 0xA0, 0x0B, 0xA1, 0x09, 0x02, 0x01, 0x01, 0x02, 0x01,
    0x01, 0x02, 0x01, 0x05,
];

const DATA: &'static [u8] = &[
    0x01, 0x00, 0x01, 0x00, 0x61, 0x12, 0x30, 0x10, 0x02, 0x01, 0x05, 0xA0, 0x0B, 0xA1, 0x09, 0x02,
    0x01, 0x01, 0x02, 0x01, 0x01, 0x02, 0x01, 0x05,
];

/// Resumptions of the activity 1 at the marks 1 and 0, as worked dialogues have them.
const RESUME: &'static [u8] = &[
    0x01, 0x00, 0x1D, 0x0B, 0x21, 0x06, 0x29, 0x01, 0x31, 0x2A, 0x01, 0x31, 0x29, 0x01, 0x31,
];

const RESUME_AT_FIRST: &'static [u8] = &[
    0x01, 0x00, 0x1D, 0x0B, 0x21, 0x06, 0x29, 0x01, 0x31, 0x2A, 0x01, 0x30, 0x29, 0x01, 0x31,
];

/// The mark 5 with the long form of a length (X.225 8.2.5), an unknown parameter twice, and the
/// sync type item, by hand.
const LONG_MARK: &'static [u8] = &[
    0x01, 0xFF, 0x00, 0x00, 0x31, 0xFF, 0x00, 0x0C, 0x0F, 0x01, 0x01, 0x63, 0x00, 0x63, 0x00, 0x2A,
    0xFF, 0x00, 0x01, 0x35,
];

/// Octets, by hand, and the place and the kind of the first fault of each.
const FAULTY: [(&'static [u8], usize, Kind); 17] = [
    // a mark alone, where it stands behind a GT
    (&[0x31, 0x03, 0x2A, 0x01, 0x31], 0, Kind::Tag),
    // no octet
    (&[], 0, Kind::Missing),
    // a unit of the code 63
    (&[0x63], 0, Kind::Tag),
    // a unit's code without its length
    (&[0x01], 1, Kind::Length),
    // an empty GT, and no unit behind it
    (&[0x01, 0x00], 2, Kind::Missing),
    // a length of 1, and no octet
    (&[0x01, 0x01], 1, Kind::Length),
    // a unit behind one that stands alone
    (&[0x15, 0x00, 0x15, 0x00], 2, Kind::Extra),
    // a mark's number with a zero in front
    (
        &[0x01, 0x00, 0x31, 0x04, 0x2A, 0x02, 0x30, 0x31],
        6,
        Kind::Content,
    ),
    // a mark's number twice: the second
    (
        &[0x01, 0x00, 0x31, 0x06, 0x2A, 0x01, 0x31, 0x2A, 0x01, 0x31],
        7,
        Kind::Extra,
    ),
    // a number's length of 2, where one octet is left
    (&[0x01, 0x00, 0x31, 0x03, 0x2A, 0x02, 0x31], 5, Kind::Length),
    // an octet behind the last unit
    (
        &[0x01, 0x00, 0x31, 0x03, 0x2A, 0x01, 0x31, 0x00],
        7,
        Kind::Extra,
    ),
    // An answer to a mark without its number.
    (&[0x01, 0x00, 0x32, 0x00], 4, Kind::Missing),
    // Activity numbers that differ.
    (
        &[
            0x01, 0x00, 0x1D, 0x0B, 0x21, 0x06, 0x29, 0x01, 0x31, 0x2A, 0x01, 0x31, 0x29, 0x01,
            0x32,
        ],
        14,
        Kind::Content,
    ),
    // An activity's resumption without the mark.
    (
        &[
            0x01, 0x00, 0x1D, 0x08, 0x21, 0x03, 0x29, 0x01, 0x31, 0x29, 0x01, 0x31,
        ],
        12,
        Kind::Missing,
    ),
    // A restart of another type.
    (
        &[0x01, 0x00, 0x35, 0x06, 0x1B, 0x01, 0x01, 0x2A, 0x01, 0x31],
        6,
        Kind::Content,
    ),
    // User data in both parameters.
    (&[0x0D, 0x04, 0xC1, 0x00, 0xC2, 0x00], 4, Kind::Extra),
    // A mark in the long form, without its number.
    (
        &[
            0x01, 0xFF, 0x00, 0x00, 0x31, 0xFF, 0x00, 0x0B, 0x0F, 0x01, 0x01, 0x63, 0x00, 0x63,
            0x00, 0x2A, 0xFF, 0x00, 0x00,
        ],
        19,
        Kind::Content,
    ),
];

/// A copy of octets, which are 200 at most.
fn octets(rt: &impl Abort, alloc: Global, bytes: &[u8]) -> Octets
    ensures { length result ≤ 200 }
{
    assert!(rt; bytes.len() <= 200);
    Octets::from_slice(alloc, bytes).expect(rt, "memory")
}

/// Words as a text.
fn shown(rt: &impl Abort, alloc: Global, words: &Spdus) -> String {
    format!(in alloc; "{words:?}").expect(rt, "memory")
}

/// Whether octets are read as these words.
fn are_read(rt: &impl Abort, alloc: Global, octets: &[u8], words: &Spdus) -> bool {
    let read = read_spdus(alloc, octets).expect(rt, "units");
    let shown_read = shown(rt, alloc, &read);
    drop(read);
    let wanted = shown(rt, alloc, words);
    let is_so = shown_read.as_str() == wanted.as_str();
    drop(shown_read);
    drop(wanted);
    is_so
}

/// Whether words are written as these octets.
fn are_written(rt: &impl Abort, alloc: Global, words: &Spdus, octets: &[u8]) -> bool
    requires { AreWritable words.now }
{
    let written = write_spdus(alloc, words).expect(rt, "memory");
    let is_so = written.as_slice() == octets;
    drop(written);
    is_so
}

/// These words are written as these octets, and the octets are read as these words.
fn check(rt: &impl Abort, alloc: Global, words: &Spdus, octets: &[u8])
    requires { AreWritable words.now }
{
    assert!(rt; are_written(rt, alloc, words, octets));
    assert!(rt; are_read(rt, alloc, octets, words));
}

/// A word behind these.
fn add(rt: &impl Abort, words: &mut Spdus, word: SessionWord)
    ensures { words.new ≡ words.old ++ word ∷ [] }
{
    words.push(word).expect(rt, "memory");
}

/// A unit that stands alone.
fn alone(rt: &impl Abort, alloc: Global, word: SessionWord, octets: &[u8])
    requires stands { stands_alone word ≡ true }
    requires fields { AreFields word }
    requires short { octets_in word ≤ 1000 }
{
    let mut words = Spdus::new(alloc);
    add(rt, &mut words, word);
    check(rt, alloc, &words, octets);
    drop(words);
}

/// A unit behind an empty GT.
fn second(rt: &impl Abort, alloc: Global, word: SessionWord, octets: &[u8])
    requires stands { stands_second word ≡ true }
    requires fields { AreFields word }
    requires short { octets_in word ≤ 1000 }
{
    let mut words = Spdus::new(alloc);
    add(rt, &mut words, SessionWord::GiveTokens { tokens: None });
    add(rt, &mut words, word);
    check(rt, alloc, &words, octets);
    drop(words);
}

/// The connect of an opening in direct mode.
#[test]
fn a_connect(rt: HostRuntime) {
    let alloc = rt.alloc();
    let connect = SessionConnect {
        calling_reference: None,
        common_reference: None,
        options: Some(0),
        version: Some(2),
        initial: Some(1),
        token_setting: None,
        requirements: Some(0x042A),
        calling: Some(octets(&rt, alloc, &[0, 1])),
        called: Some(octets(&rt, alloc, &[0, 1])),
        user: octets(&rt, alloc, CONNECT_DATA),
    };
    alone(&rt, alloc, SessionWord::Connect(connect), CONNECT);
}

/// A connect of reliable mode with a token setting.
#[test]
fn a_connect_with_references(rt: HostRuntime) {
    let alloc = rt.alloc();
    let connect = SessionConnect {
        calling_reference: Some(octets(&rt, alloc, b"ref1")),
        common_reference: Some(octets(&rt, alloc, b"260101000000Z")),
        options: Some(0),
        version: Some(2),
        initial: None,
        token_setting: Some(0),
        requirements: Some(0x0449),
        calling: None,
        called: None,
        user: octets(&rt, alloc, &[]),
    };
    let word = SessionWord::Connect(connect);
    alone(&rt, alloc, word, CONNECT_WITH_REFERENCES);
}

#[test]
fn an_accept(rt: HostRuntime) {
    let alloc = rt.alloc();
    let word = SessionWord::Accept {
        options: Some(0),
        version: Some(2),
        initial: Some(1),
        requirements: Some(0x042A),
        user: octets(&rt, alloc, ACCEPT_DATA),
    };
    alone(&rt, alloc, word, ACCEPT);
}

#[test]
fn a_short_accept(rt: HostRuntime) {
    let alloc = rt.alloc();
    let word = SessionWord::Accept {
        options: None,
        version: None,
        initial: None,
        requirements: Some(0x0002),
        user: octets(&rt, alloc, &[0x31, 0x00]),
    };
    alone(&rt, alloc, word, SHORT_ACCEPT);
}

#[test]
fn a_refusal(rt: HostRuntime) {
    let alloc = rt.alloc();
    let user = octets(&rt, alloc, &[0x30, 0x00]);
    assert!(rt; user.len() > 0);
    let word = SessionWord::Refuse {
        transport: Some(1),
        reason: Some(2),
        user: Some(user),
    };
    alone(&rt, alloc, word, REFUSE);
}

#[test]
fn the_end_of_a_connection(rt: HostRuntime) {
    let alloc = rt.alloc();
    let word = SessionWord::Finish {
        transport: Some(1),
        user: octets(&rt, alloc, FINISH_DATA),
    };
    alone(&rt, alloc, word, FINISH);
    let user = octets(&rt, alloc, DISCONNECT_DATA);
    let word = SessionWord::Disconnect { user };
    alone(&rt, alloc, word, DISCONNECT);
}

#[test]
fn aborts_with_data(rt: HostRuntime) {
    let alloc = rt.alloc();
    let word = SessionWord::Abort {
        transport: Some(3),
        user: Some(octets(&rt, alloc, ABORT_DATA)),
    };
    alone(&rt, alloc, word, ABORT);
    let word = SessionWord::Abort {
        transport: Some(3),
        user: Some(octets(&rt, alloc, &[0x30, 0x03, 0x80, 0x01, 0x06])),
    };
    alone(&rt, alloc, word, PROVIDER_ABORT);
}

#[test]
fn aborts_without_data(rt: HostRuntime) {
    let alloc = rt.alloc();
    let word = SessionWord::Abort {
        transport: Some(5),
        user: None,
    };
    alone(&rt, alloc, word, &[0x19, 0x03, 0x11, 0x01, 0x05]);
    // its answer, by hand
    let word = SessionWord::AbortAccept;
    alone(&rt, alloc, word, &[0x1A, 0x00]);
}

#[test]
fn tokens(rt: HostRuntime) {
    let alloc = rt.alloc();
    let word = SessionWord::GiveTokens { tokens: Some(4) };
    alone(&rt, alloc, word, &[0x01, 0x03, 0x10, 0x01, 0x04]);
    let word = SessionWord::GiveTokensConfirm;
    alone(&rt, alloc, word, &[0x15, 0x00]);
    let word = SessionWord::GiveTokensAck;
    alone(&rt, alloc, word, &[0x16, 0x00]);
}

#[test]
fn requests_for_tokens(rt: HostRuntime) {
    let alloc = rt.alloc();
    let word = SessionWord::PleaseTokens {
        tokens: Some(4),
        user: None,
    };
    alone(&rt, alloc, word, &[0x02, 0x03, 0x10, 0x01, 0x04]);
    // all tokens, with an octet of user data, by hand
    let word = SessionWord::PleaseTokens {
        tokens: Some(0x15),
        user: Some(octets(&rt, alloc, &[7])),
    };
    let unit = [0x02, 0x06, 0x10, 0x01, 0x15, 0xC1, 0x01, 0x07];
    alone(&rt, alloc, word, &unit);
}

#[test]
fn data(rt: HostRuntime) {
    let alloc = rt.alloc();
    let user = octets(&rt, alloc, &[0xA0, 0x05, 0xA1, 0x03, 0x02, 0x01, 0x05]);
    let word = SessionWord::TypedData { user };
    alone(&rt, alloc, word, TYPED_DATA);
    let user = octets(&rt, alloc, INVOCATION);
    second(&rt, alloc, SessionWord::Data { user }, DATA);
}

#[test]
fn marks(rt: HostRuntime) {
    let alloc = rt.alloc();
    let word = SessionWord::Mark { number: 1 };
    second(
        &rt,
        alloc,
        word,
        &[0x01, 0x00, 0x31, 0x03, 0x2A, 0x01, 0x31],
    );
    let word = SessionWord::MarkAck { number: 1 };
    second(
        &rt,
        alloc,
        word,
        &[0x01, 0x00, 0x32, 0x03, 0x2A, 0x01, 0x31],
    );
}

#[test]
fn restarts(rt: HostRuntime) {
    let alloc = rt.alloc();
    let word = SessionWord::Resynchronize {
        number: 2,
        user: Some(octets(&rt, alloc, RESTART_DATA)),
    };
    second(&rt, alloc, word, RESTART);
    let word = SessionWord::ResynchronizeAck {
        number: 2,
        user: Some(octets(&rt, alloc, RESTART_DATA)),
    };
    second(&rt, alloc, word, RESTARTED);
}

#[test]
fn beginnings_of_activities(rt: HostRuntime) {
    let alloc = rt.alloc();
    let word = SessionWord::ActivityStart { activity: 1 };
    second(
        &rt,
        alloc,
        word,
        &[0x01, 0x00, 0x2D, 0x03, 0x29, 0x01, 0x31],
    );
    let word = SessionWord::ActivityResume {
        activity: 1,
        mark: 1,
    };
    second(&rt, alloc, word, RESUME);
    let word = SessionWord::ActivityResume {
        activity: 1,
        mark: 0,
    };
    second(&rt, alloc, word, RESUME_AT_FIRST);
}

#[test]
fn ends_of_activities(rt: HostRuntime) {
    let alloc = rt.alloc();
    let word = SessionWord::ActivityEnd { number: 3 };
    second(
        &rt,
        alloc,
        word,
        &[0x01, 0x00, 0x29, 0x03, 0x2A, 0x01, 0x33],
    );
    let word = SessionWord::ActivityEndAck { number: 3 };
    second(
        &rt,
        alloc,
        word,
        &[0x01, 0x00, 0x2A, 0x03, 0x2A, 0x01, 0x33],
    );
}

#[test]
fn interrupts_of_activities(rt: HostRuntime) {
    let alloc = rt.alloc();
    let word = SessionWord::ActivityInterrupt { reason: Some(0) };
    second(
        &rt,
        alloc,
        word,
        &[0x01, 0x00, 0x19, 0x03, 0x32, 0x01, 0x00],
    );
    let word = SessionWord::ActivityInterruptAck;
    second(&rt, alloc, word, &[0x01, 0x00, 0x1A, 0x00]);
}

#[test]
fn discards_of_activities(rt: HostRuntime) {
    let alloc = rt.alloc();
    let word = SessionWord::ActivityDiscard { reason: Some(0) };
    second(
        &rt,
        alloc,
        word,
        &[0x01, 0x00, 0x39, 0x03, 0x32, 0x01, 0x00],
    );
    let word = SessionWord::ActivityDiscardAck;
    second(&rt, alloc, word, &[0x01, 0x00, 0x3A, 0x00]);
}

/// A mark with the long form of a length, an unknown parameter twice, and the sync type item.
#[test]
fn a_mark_in_the_long_form(rt: HostRuntime) {
    let spdus = read_spdus(rt.alloc(), LONG_MARK).expect(&rt, "units");
    let is_mark = matches!(spdus.get(1), Some(SessionWord::Mark { number: 5 }));
    drop(spdus);
    assert!(rt; is_mark);
}

/// The fault of octets.
fn fault_of(alloc: Global, octets: &[u8]) -> Option<SFault> {
    match read_spdus(alloc, octets) {
        Ok(words) => {
            drop(words);
            None
        }
        Err(fault) => Some(fault),
    }
}

/// Extended user data of one octet, where User Data would do, by hand.
#[test]
fn short_data_in_the_long_parameter(rt: HostRuntime) {
    assert!(rt; fault_of(rt.alloc(), &[0x0D, 0x03, 0xC2, 0x01, 0x09]).is_none());
}

/// Whether this is the fault of octets.
fn is_faulty(alloc: Global, octets: &[u8], place: usize, kind: Kind) -> bool {
    match fault_of(alloc, octets) {
        Some(
            SFault::At {
                place: at,
                kind: of,
            },
        ) => at == place && of == kind,
        _ => false,
    }
}

#[test]
fn faults(rt: HostRuntime) {
    for (octets, place, kind) in &FAULTY {
        assert!(rt; is_faulty(rt.alloc(), octets, *place, *kind));
    }
}
