//! Whole texts, with the module that each is, as `Debug` prints it, or with its first fault. Both
//! follow from the grammar, and their lines and columns are counted in the texts. The form of a
//! printed module is that of `Debug`: the names of types and of their fields, as they are declared.
//! What stands in it is the same, to the last line and column, as what a parser that was written
//! apart from this project finds in the text.

use notation_tokens::cut_text;
use operation_notation::{NotationFault, NotationKind, lex, parse_module};
use std::alloc::Global;
use std::process::Abort;
use std::test::*;

/// A module with five assignments.
const CALC: &[u8] = b"Calc {2 999 7 1} DEFINITIONS IMPLICIT TAGS ::= BEGIN
IMPORTS OPERATION, ERROR FROM Remote-Operations-Information-Objects
  {joint-iso-itu-t remote-operations(4) informationObjects(5) version1(0)};
add OPERATION ::= {ARGUMENT INTEGER RESULT INTEGER ERRORS {overflow} LINKED {ask} CODE local:1}
store OPERATION ::= {ARGUMENT OCTET STRING RESULT NULL CODE local:2}
ask OPERATION ::= {ARGUMENT INTEGER RESULT INTEGER CODE local:3}
note OPERATION ::= {ARGUMENT IA5String RETURN RESULT FALSE CODE local:4}
overflow ERROR ::= {PARAMETER INTEGER CODE local:1}
END
";

/// The module of that text: its assignments in their order, each with what it says.
const CALC_SHOWN: &str =
    "ModuleText { name: Located { text: Name { text: \"Calc\" }, line: 1, column: 1 }, name_oid: \
    Oid { arcs: [2, 999, 7, 1] }, implicit: true, assignments: ListOf { items: [Assignment { \
    name: Located { text: Name { text: \"add\" }, line: 4, column: 1 }, body: Operation(OpText { \
    argument: Some(UseText { line: 4, column: 20, of: TypeText { line: 4, column: 29, tag: None, \
    plain: Integer(None) }, optional: false }), result: Some(UseText { line: 4, column: 37, of: \
    TypeText { line: 4, column: 44, tag: None, plain: Integer(None) }, optional: false }), \
    returns: true, always: true, errors: ListOf { items: [Located { text: Name { text: \
    \"overflow\" }, line: 4, column: 60 }] }, linked: ListOf { items: [Located { text: Name { \
    text: \"ask\" }, line: 4, column: 78 }] }, code: Some(CodeText { line: 4, column: 88, local: \
    Some(1), global: None }) }) }, Assignment { name: Located { text: Name { text: \"store\" }, \
    line: 5, column: 1 }, body: Operation(OpText { argument: Some(UseText { line: 5, column: 22, \
    of: TypeText { line: 5, column: 31, tag: None, plain: Octets(None) }, optional: false }), \
    result: Some(UseText { line: 5, column: 44, of: TypeText { line: 5, column: 51, tag: None, \
    plain: Null }, optional: false }), returns: true, always: true, errors: ListOf { items: [] \
    }, linked: ListOf { items: [] }, code: Some(CodeText { line: 5, column: 61, local: Some(2), \
    global: None }) }) }, Assignment { name: Located { text: Name { text: \"ask\" }, line: 6, \
    column: 1 }, body: Operation(OpText { argument: Some(UseText { line: 6, column: 20, of: \
    TypeText { line: 6, column: 29, tag: None, plain: Integer(None) }, optional: false }), \
    result: Some(UseText { line: 6, column: 37, of: TypeText { line: 6, column: 44, tag: None, \
    plain: Integer(None) }, optional: false }), returns: true, always: true, errors: ListOf { \
    items: [] }, linked: ListOf { items: [] }, code: Some(CodeText { line: 6, column: 57, local: \
    Some(3), global: None }) }) }, Assignment { name: Located { text: Name { text: \"note\" }, \
    line: 7, column: 1 }, body: Operation(OpText { argument: Some(UseText { line: 7, column: 21, \
    of: TypeText { line: 7, column: 30, tag: None, plain: Text(1) }, optional: false }), result: \
    None, returns: false, always: true, errors: ListOf { items: [] }, linked: ListOf { items: [] \
    }, code: Some(CodeText { line: 7, column: 65, local: Some(4), global: None }) }) }, \
    Assignment { name: Located { text: Name { text: \"overflow\" }, line: 8, column: 1 }, body: \
    Error(ErrText { parameter: Some(UseText { line: 8, column: 21, of: TypeText { line: 8, \
    column: 31, tag: None, plain: Integer(None) }, optional: false }), code: Some(CodeText { \
    line: 8, column: 44, local: Some(1), global: None }) }) }] } }";

/// A type with a tag, a size, an optional part and an alternative.
const PARTS: &[u8] = b"M {2 999} DEFINITIONS ::= BEGIN
T ::= [APPLICATION 3] IMPLICIT SEQUENCE {a OCTET STRING (SIZE (0..7)) OPTIONAL, b CHOICE {c U}}
END
";

/// The module of that text: the class 1 is APPLICATION, and the place of a size is that of its
/// least.
const PARTS_SHOWN: &str =
    "ModuleText { name: Located { text: Name { text: \"M\" }, line: 1, column: 1 }, name_oid: Oid \
    { arcs: [2, 999] }, implicit: false, assignments: ListOf { items: [Assignment { name: \
    Located { text: Name { text: \"T\" }, line: 2, column: 1 }, body: Typed(TypeText { line: 2, \
    column: 7, tag: Some(TagText { class: 1, number: 3, explicit: Some(false) }), plain: \
    Sequence([PartText { name: Located { text: Name { text: \"a\" }, line: 2, column: 42 }, of: \
    TypeText { line: 2, column: 44, tag: None, plain: Octets(Some(RangeText { line: 2, column: \
    64, low: 0, high: 7 })) }, optional: true, dflt: None }, PartText { name: Located { text: Name { text: \
    \"b\" }, line: 2, column: 81 }, of: TypeText { line: 2, column: 83, tag: None, plain: \
    Choice([PartText { name: Located { text: Name { text: \"c\" }, line: 2, column: 91 }, of: \
    TypeText { line: 2, column: 93, tag: None, plain: Named(Located { text: Name { text: \"U\" \
    }, line: 2, column: 93 }) }, optional: false, dflt: None }]) }, optional: false, dflt: None }]) }) }] } }";

/// Parts with defaults of each form, and SET OF.
const DEFAULTS: &[u8] = b"M {2 999} DEFINITIONS ::= BEGIN
T ::= SET {a BOOLEAN DEFAULT TRUE, b INTEGER DEFAULT -7, c U DEFAULT red, d SET OF NULL}
END
";

/// The module of that text: the place of a default is that of its value.
const DEFAULTS_SHOWN: &str =
    "ModuleText { name: Located { text: Name { text: \"M\" }, line: 1, column: 1 }, name_oid: Oid \
    { arcs: [2, 999] }, implicit: false, assignments: ListOf { items: [Assignment { name: \
    Located { text: Name { text: \"T\" }, line: 2, column: 1 }, body: Typed(TypeText { line: 2, \
    column: 7, tag: None, plain: Set([PartText { name: Located { text: Name { text: \"a\" }, \
    line: 2, column: 12 }, of: TypeText { line: 2, column: 14, tag: None, plain: Boolean }, \
    optional: false, dflt: Some(DfltText { line: 2, column: 30, value: Truth(true) }) }, PartText \
    { name: Located { text: Name { text: \"b\" }, line: 2, column: 36 }, of: TypeText { line: 2, \
    column: 38, tag: None, plain: Integer(None) }, optional: false, dflt: Some(DfltText { line: \
    2, column: 54, value: Number(-7) }) }, PartText { name: Located { text: Name { text: \"c\" }, \
    line: 2, column: 58 }, of: TypeText { line: 2, column: 60, tag: None, plain: Named(Located { \
    text: Name { text: \"U\" }, line: 2, column: 60 }) }, optional: false, dflt: Some(DfltText { \
    line: 2, column: 70, value: Item(Name { text: \"red\" }) }) }, PartText { name: Located { \
    text: Name { text: \"d\" }, line: 2, column: 75 }, of: TypeText { line: 2, column: 77, tag: \
    None, plain: SetOf(TypeText { line: 2, column: 84, tag: None, plain: Null }) }, optional: \
    false, dflt: None }]) }) }] } }";

/// A text with the place and kind of its first fault.
type Row = (&'static [u8], u32, u32, NotationKind);

/// Texts with their first faults. A place is that of the first octet of what can't stand there, and
/// each label says how many octets of its line stand before it: its column is one more. A line ends
/// at its line feed, and a text that ends too early is at fault behind its last octet.
const FAULTS: [Row; 29] = [
    // REAL, a word that isn't supported, behind 24 octets of line 2
    (
        b"M {2 999 7 2} DEFINITIONS ::= BEGIN\na OPERATION ::= {RESULT REAL}\nEND\n",
        2,
        25,
        NotationKind::Unsupported,
    ),
    // an octet that begins no token, behind 22 octets of line 2
    (
        b"M {2 999 7 2} DEFINITIONS ::= BEGIN\na OPERATION ::= {CODE $}\nEND\n",
        2,
        23,
        NotationKind::BadCharacter,
    ),
    // a text that ends behind the module's name: the place behind its one octet
    (b"M", 1, 2, NotationKind::UnexpectedToken),
    // a code of -0, which writes no integer, behind 60 octets
    (
        b"M {2 999} DEFINITIONS ::= BEGIN a OPERATION ::= {CODE local:-0} END",
        1,
        61,
        NotationKind::UnexpectedToken,
    ),
    // END where the type of a SET OF should stand, behind 45 octets
    (
        b"M {2 999} DEFINITIONS ::= BEGIN T ::= SET OF END",
        1,
        46,
        NotationKind::UnexpectedToken,
    ),
    // a default of an alternative of a CHOICE: DEFAULT, behind 53 octets
    (
        b"M {2 999} DEFINITIONS ::= BEGIN T ::= CHOICE {a NULL DEFAULT 1} END",
        1,
        54,
        NotationKind::UnexpectedToken,
    ),
    // a default behind OPTIONAL: DEFAULT, behind 64 octets
    (
        b"M {2 999} DEFINITIONS ::= BEGIN T ::= SEQUENCE {a NULL OPTIONAL DEFAULT 1} END",
        1,
        65,
        NotationKind::UnexpectedToken,
    ),
    // DEFAULT, a word of the grammar's own, where a type should stand, behind 38 octets
    (
        b"M {2 999} DEFINITIONS ::= BEGIN T ::= DEFAULT END",
        1,
        39,
        NotationKind::UnexpectedToken,
    ),
    // a brace behind the name of a type, which isn't supported, behind 40 octets
    (
        b"M {2 999} DEFINITIONS ::= BEGIN T ::= B {} END",
        1,
        41,
        NotationKind::Unsupported,
    ),
    // an import of another name than OPERATION and ERROR, behind 40 octets
    (
        b"M {2 999} DEFINITIONS ::= BEGIN IMPORTS X FROM Y; END",
        1,
        41,
        NotationKind::Unsupported,
    ),
    // another name that follows ERROR among the imports: x, behind 47 octets
    (
        b"M {2 999} DEFINITIONS ::= BEGIN IMPORTS ERROR, x FROM Y; END",
        1,
        48,
        NotationKind::Unsupported,
    ),
    // a number where an import should stand, behind 40 octets
    (
        b"M {2 999} DEFINITIONS ::= BEGIN IMPORTS 7 FROM Y; END",
        1,
        41,
        NotationKind::UnexpectedToken,
    ),
    // no import: the semicolon, behind 40 octets
    (
        b"M {2 999} DEFINITIONS ::= BEGIN IMPORTS ; END",
        1,
        41,
        NotationKind::UnexpectedToken,
    ),
    // no import: FROM, behind 40 octets
    (
        b"M {2 999} DEFINITIONS ::= BEGIN IMPORTS FROM Y; END",
        1,
        41,
        NotationKind::UnexpectedToken,
    ),
    // 2^63 as the end of a range, one above the greatest, behind 50 octets
    (
        b"M {2 999} DEFINITIONS ::= BEGIN T ::= INTEGER (0..9223372036854775808) END",
        1,
        51,
        NotationKind::UnexpectedToken,
    ),
    // a default that is neither TRUE, FALSE, an integer nor a name: NULL, behind 63 octets
    (
        b"M {2 999} DEFINITIONS ::= BEGIN T ::= SEQUENCE {a NULL DEFAULT NULL} END",
        1,
        64,
        NotationKind::UnexpectedToken,
    ),
    // 33 arcs, one too many: the last of them, behind 67 octets
    (
        b"M {1 2 3 4 5 6 7 8 9 0 1 2 3 4 5 6 7 8 9 0 1 2 3 4 5 6 7 8 9 0 1 2 3}",
        1,
        68,
        NotationKind::UnexpectedToken,
    ),
    // a second arc without its number: the brace in its place, behind 18 octets
    (
        b"M {iso member-body} DEFINITIONS",
        1,
        19,
        NotationKind::UnexpectedToken,
    ),
    // a first arc of 3, where 2 is the greatest (X.690 8.19.4), behind 3 octets
    (b"M {3 1}", 1, 4, NotationKind::UnexpectedToken),
    // a second arc of 40 below 1, where 39 is the greatest (X.690 8.19.4), behind 5 octets
    (b"M {1 40}", 1, 6, NotationKind::UnexpectedToken),
    // one arc alone, where a second should stand: the brace, behind 4 octets
    (b"M {2}", 1, 5, NotationKind::UnexpectedToken),
    // 2^32 as an arc, one above the greatest, behind 5 octets
    (b"M {2 4294967296}", 1, 6, NotationKind::UnexpectedToken),
    // an arc with a leading zero, behind 5 octets
    (b"M {2 01}", 1, 6, NotationKind::UnexpectedToken),
    // a hyphen at the end of a name, which begins no token, behind one octet
    (b"M- {2 999}", 1, 2, NotationKind::BadCharacter),
    // behind a comment that its two hyphens end, an octet that begins no token, behind 23 octets
    (
        b"M -- to the next -- {2 $",
        1,
        24,
        NotationKind::BadCharacter,
    ),
    // behind a comment that its line ends, an octet that begins no token, behind 3 of line 2
    (
        b"M -- to the line's end\n{2 $",
        2,
        4,
        NotationKind::BadCharacter,
    ),
    // behind a comment with a letter of two octets, an octet that begins no token, behind 11 octets
    (b"M -- \xC3\xA9 -- $", 1, 12, NotationKind::BadCharacter),
    // a token behind the module's END, behind 36 octets
    (
        b"M {2 999} DEFINITIONS ::= BEGIN END END",
        1,
        37,
        NotationKind::UnexpectedToken,
    ),
    // ERRORS behind LINKED, where it may stand in front alone, behind 60 octets
    (
        b"M {2 999} DEFINITIONS ::= BEGIN a OPERATION ::= {LINKED {b} ERRORS {c}} END",
        1,
        61,
        NotationKind::UnexpectedToken,
    ),
];

/// Whether a text is a module that prints so.
fn is_shown(rt: &impl Abort, alloc: Global, text: &[u8], module: &str) -> bool {
    let read = parse_module(alloc, text);
    let found = format!(in alloc; "{read:?}").expect(rt, "memory");
    drop(read);
    let wanted = format!(in alloc; "Ok({module})").expect(rt, "memory");
    found.as_str() == wanted.as_str()
}

#[test]
fn calc_has_its_five_assignments(rt: HostRuntime) {
    assert!(rt; is_shown(&rt, rt.alloc(), CALC, CALC_SHOWN));
}

#[test]
fn a_type_has_its_tag_size_and_parts(rt: HostRuntime) {
    assert!(rt; is_shown(&rt, rt.alloc(), PARTS, PARTS_SHOWN));
}

#[test]
fn parts_have_their_defaults(rt: HostRuntime) {
    assert!(rt; is_shown(&rt, rt.alloc(), DEFAULTS, DEFAULTS_SHOWN));
}

/// Whether a module's text has this first fault.
fn is_refused(alloc: Global, text: &[u8], line: u32, column: u32, kind: NotationKind) -> bool {
    let fault = NotationFault::At { line, column, kind };
    parse_module(alloc, text).err() == Some(fault)
}

#[test]
fn first_faults(rt: HostRuntime) {
    for (text, line, column, kind) in &FAULTS {
        assert!(rt;
            is_refused(rt.alloc(), text, *line, *column, *kind),
            "{text:?}"
        );
    }
}

/// Octets are counted from 0, lines and columns from 1: the line feed is the octet 9.
#[test]
fn each_token_has_its_place(rt: HostRuntime) {
    let tokens = lex(rt.alloc(), b"M -- x --\n {-5 a-b ::=");
    let found = format!(in rt.alloc(); "{tokens:?}").expect(&rt, "memory");
    drop(tokens);
    let wanted = "Ok(ListOf { items: [\
        Token { kind: Word, from: 0, to: 1, line: 1, column: 1 }, \
        Token { kind: Sign, from: 11, to: 12, line: 2, column: 2 }, \
        Token { kind: Number, from: 12, to: 14, line: 2, column: 3 }, \
        Token { kind: Word, from: 15, to: 18, line: 2, column: 6 }, \
        Token { kind: Sign, from: 19, to: 22, line: 2, column: 10 }] })";
    assert!(rt; found.as_str() == wanted);
}

/// The octet is the fourth, in column 2 of line 2.
#[test]
fn cutting_stops_at_an_octet_that_begins_nothing(rt: HostRuntime) {
    let cut = cut_text(rt.alloc(), b"M\n $ M");
    let found = format!(in rt.alloc(); "{cut:?}").expect(&rt, "memory");
    drop(cut);
    let wanted = "Ok(Lexed { tokens: ListOf { items: [\
        Token { kind: Word, from: 0, to: 1, line: 1, column: 1 }] }, \
        stop: Some(BadCharacter), place: Place { line: 2, column: 2 } })";
    assert!(rt; found.as_str() == wanted);
}

/// `T ::= ` and so many times `SEQUENCE OF`, and these tokens.
fn nested(rt: &impl Abort, alloc: Global, times: usize, tokens: &[u8]) -> Vec<u8> {
    let front = b"M {2 999} DEFINITIONS ::= BEGIN T ::= ";
    let mut text = Vec::from_slice(alloc, front).expect(rt, "memory");
    for _ in 0..times {
        text.extend_from_slice(b"SEQUENCE OF ").expect(rt, "memory");
    }
    text.extend_from_slice(tokens).expect(rt, "memory");
    text.extend_from_slice(b" END").expect(rt, "memory");
    text
}

/// Whether a text is a module.
fn is_module(alloc: Global, text: &[u8]) -> bool {
    let read = parse_module(alloc, text);
    let is_read = read.is_ok();
    drop(read);
    is_read
}

/// Whether these tokens behind 256 `SEQUENCE OF` have this fault: the first type stands in column
/// 39, and each `SEQUENCE OF` in front of the last has 12 octets.
fn is_refused_deep(rt: &impl Abort, alloc: Global, tokens: &[u8], kind: NotationKind) -> bool {
    let deeper = nested(rt, alloc, 256, tokens);
    is_refused(alloc, &deeper, 1, 39 + 256 * 12, kind)
}

const TYPES: [&'static [u8]; 6] = [
    b"NULL",
    b"U",
    b"[1] NULL",
    b"CHOICE {",
    b"SET {}",
    b"SET OF",
];

#[test]
fn types_nest_256_deep(rt: HostRuntime) {
    let most = nested(&rt, rt.alloc(), 255, b"NULL");
    assert!(rt; is_module(rt.alloc(), &most));
    for tokens in &TYPES {
        assert!(rt; is_refused_deep(&rt, rt.alloc(), tokens, NotationKind::Unsupported));
    }
}

const NO_TYPES: [&'static [u8]; 4] = [b"}", b"u", b"7", b"OPTIONAL"];

/// At the same place stands what begins no type, or one that isn't supported at any depth.
#[test]
fn no_type_begins_too_deep(rt: HostRuntime) {
    for tokens in &NO_TYPES {
        assert!(rt; is_refused_deep(&rt, rt.alloc(), tokens, NotationKind::UnexpectedToken));
    }
    assert!(rt; is_refused_deep(&rt, rt.alloc(), b"REAL", NotationKind::Unsupported));
}

/// This octet so many times.
fn repeated(rt: &impl Abort, alloc: Global, octet: u8, count: usize) -> Vec<u8> {
    vec![in alloc; octet; count].expect(rt, "memory")
}

/// Whether a text is cut into tokens.
fn is_cut(alloc: Global, text: &[u8]) -> bool {
    let tokens = lex(alloc, text);
    let is_read = tokens.is_ok();
    drop(tokens);
    is_read
}

#[test]
fn texts_have_at_most_1_048_576_octets(rt: HostRuntime) {
    let more = repeated(&rt, rt.alloc(), b' ', 1_048_577);
    assert!(rt; is_refused(rt.alloc(), &more, 1, 1, NotationKind::TextTooLong));
    let most = repeated(&rt, rt.alloc(), b' ', 1_048_576);
    assert!(rt; is_cut(rt.alloc(), &most));
}

#[test]
fn texts_have_at_most_65_536_tokens(rt: HostRuntime) {
    let more = repeated(&rt, rt.alloc(), b',', 65_537);
    let fault = NotationFault::At {
        line: 1,
        column: 65_537,
        kind: NotationKind::TooManyTokens,
    };
    assert!(rt; lex(rt.alloc(), &more).err() == Some(fault));
    let most = repeated(&rt, rt.alloc(), b',', 65_536);
    assert!(rt; is_cut(rt.alloc(), &most));
}
