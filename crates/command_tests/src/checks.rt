//! What no clause says of checks: whole runs with ample memory, over the worked modules. The
//! listings and the table file follow from the modules, field by field, and lines and columns are
//! counted in their texts.

use crate::runs::gives;
use crate::traces::CALC_MODULE;
use crate::whole_runs::USAGE;
use osi_base::Status;
use std::test::*;

/// The module with neither operations nor errors, as a table file of version 2: `OTAB`, the
/// version, the module's name and its object identifier, each behind its length, and three counts
/// of 0: of types, of errors and of operations.
const EMPTY_FILE: [u8; 31] = [
    0x4F, 0x54, 0x41, 0x42, 0, 2, 0, 0, 0, 1, 0x45, 0, 0, 0, 4, 0x88, 0x37, 7, 3, 0, 0, 0, 0, 0, 0,
    0, 0, 0, 0, 0, 0,
];

/// That file without its last octet.
const CUT_FILE: [u8; 30] = [
    0x4F, 0x54, 0x41, 0x42, 0, 2, 0, 0, 0, 1, 0x45, 0, 0, 0, 4, 0x88, 0x37, 7, 3, 0, 0, 0, 0, 0, 0,
    0, 0, 0, 0, 0,
];

/// The same file with version 3, which is none.
const LATER_FILE: [u8; 31] = [
    0x4F, 0x54, 0x41, 0x42, 0, 3, 0, 0, 0, 1, 0x45, 0, 0, 0, 4, 0x88, 0x37, 7, 3, 0, 0, 0, 0, 0, 0,
    0, 0, 0, 0, 0, 0,
];

/// A table file of version 1 with two types, a BOOLEAN and a SEQUENCE of a part `a` of it: a part
/// has no default there, so its three fields are followed by the counts of errors and operations.
const EARLIER_FILE: [u8; 45] = [
    0x4F, 0x54, 0x41, 0x42, 0, 1, 0, 0, 0, 1, 0x45, 0, 0, 0, 4, 0x88, 0x37, 7, 3, 0, 0, 0, 2, 0, 8,
    0, 0, 0, 1, 0, 0, 0, 1, 0x61, 1, 0, 0, 0, 0, 0, 0, 0, 0, 0, 0,
];

/// One of version 2 with one type, an INTEGER from 1 to 0, behind the count of types.
const UNSOUND_FILE: [u8; 36] = [
    0x4F, 0x54, 0x41, 0x42, 0, 2, 0, 0, 0, 1, 0x45, 0, 0, 0, 4, 0x88, 0x37, 7, 3, 0, 0, 0, 1, 1, 1,
    1, 1, 0, 0, 0, 0, 0, 0, 0, 0, 0,
];

/// A type that names a later one, another name of that, and an implicit tag over a CHOICE.
const TYPES: &[u8] = b"E {2 999 7 3} DEFINITIONS ::= BEGIN
L ::= SEQUENCE {b BOOLEAN, n N}
N ::= INTEGER (0..1)
A ::= N
C ::= CHOICE {x NULL}
T ::= [5] IMPLICIT C
END
";

/// Its table file. Each type stands behind those that it names, in the order in which it names
/// them: BOOLEAN, the INTEGER, L, NULL, C and T, whose tag is explicit. Another name makes no row.
const TYPES_FILE: [u8; 83] = [
    0x4F, 0x54, 0x41, 0x42, 0, 2, 0, 0, 0, 1, 0x45, 0, 0, 0, 4, 0x88, 0x37, 7, 3, 0, 0, 0, 6, 0, 1,
    1, 0, 1, 1, 8, 0, 0, 0, 2, 0, 0, 0, 1, 0x62, 1, 0, 0, 0, 0, 0, 0, 1, 0x6E, 1, 1, 0, 0, 3, 0x0B,
    0, 0, 0, 1, 0, 0, 0, 1, 0x78, 1, 3, 0, 0, 0x0C, 1, 2, 1, 5, 1, 1, 4, 0, 0, 0, 0, 0, 0, 0, 0,
];

/// A part that may be absent, in front of one whose tag is that of an alternative of its CHOICE.
const TAGS_THAT_MEET: &[u8] = b"E {2 999 7 3} DEFINITIONS ::= BEGIN
S ::= SEQUENCE {a C OPTIONAL, b INTEGER}
C ::= CHOICE {x INTEGER, y NULL}
END
";

/// A type that has a part of its own.
const RECURSIVE: &[u8] = b"E {2 999 7 3} DEFINITIONS ::= BEGIN
S ::= SEQUENCE {a S}
END
";

/// A name that stands twice, and on the line behind it a code that does.
const TWO_FAULTS: &[u8] = b"M {2 999 7 2} DEFINITIONS ::= BEGIN
a OPERATION ::= {CODE local:1}
a OPERATION ::= {CODE local:2}
b OPERATION ::= {CODE local:1}
END
";

/// What is listed of the module with four operations and an error.
const CALC_LISTING: &[u8] = b"operation add local:1 argument yes result yes errors 1 linked 1
operation store local:2 argument yes result yes errors 0 linked 0
operation ask local:3 argument yes result yes errors 0 linked 0
operation note local:4 argument yes result never errors 0 linked 0
error overflow local:1 parameter yes
checked 4 operations 1 errors
";

/// Two operations with one code.
const DOUBLE_CODE: &[u8] = b"M {2 999 7 2} DEFINITIONS ::= BEGIN
a OPERATION ::= {CODE local:1}
b OPERATION ::= {CODE local:1}
END
";

/// An operation with an error, and no operation that is linked to it.
const ONE_ERROR: &[u8] = b"E {2 999 7 3} DEFINITIONS ::= BEGIN
a OPERATION ::= {ERRORS {e} CODE local:1}
e ERROR ::= {CODE local:1}
END
";

/// What is listed of it.
const ONE_ERROR_LISTING: &[u8] = b"operation a local:1 argument none result none errors 1 linked 0
error e local:1 parameter none
checked 1 operations 1 errors
";

/// A module without assignments.
const EMPTY: &[u8] = b"E {2 999 7 3} DEFINITIONS ::= BEGIN END\n";

/// What a module's octets are, the words, the status and the output.
type Row = (
    &'static [u8],
    &'static [&'static str],
    Status,
    &'static [u8],
);

const ROWS: [Row; 17] = [
    // a module with four operations and an error: a line for each, operations first, and their
    // counts
    (
        CALC_MODULE,
        &["check", "module"],
        Status::Done,
        CALC_LISTING,
    ),
    // a code that two operations have: that of the second, behind 22 octets of line 3
    (
        DOUBLE_CODE,
        &["check", "module"],
        Status::ModuleRefused,
        b"module refused 3 23 DoubleCode\n",
    ),
    // a module without assignments: its counts alone
    (
        EMPTY,
        &["check", "module"],
        Status::Done,
        b"checked 0 operations 0 errors\n",
    ),
    // the same module, written as a table file
    (
        EMPTY,
        &["check", "--table", "module"],
        Status::Done,
        &EMPTY_FILE,
    ),
    // that table file, read: the counts of the module's text
    (
        &EMPTY_FILE,
        &["check", "module"],
        Status::Done,
        b"checked 0 operations 0 errors\n",
    ),
    // that table file without its last octet: line 0, as of each table file, and the place
    // behind its 30 octets
    (
        &CUT_FILE,
        &["check", "module"],
        Status::ModuleRefused,
        b"module refused 0 30 Missing\n",
    ),
    // one of version 3: its version, behind 4 octets
    (
        &LATER_FILE,
        &["check", "module"],
        Status::ModuleRefused,
        b"module refused 0 4 Content\n",
    ),
    // one of version 1
    (
        &EARLIER_FILE,
        &["check", "module"],
        Status::Done,
        b"checked 0 operations 0 errors\n",
    ),
    // one with a row that isn't sound: the row, behind 23 octets
    (
        &UNSOUND_FILE,
        &["check", "module"],
        Status::ModuleRefused,
        b"module refused 0 23 Content\n",
    ),
    // types in the order of their rows
    (
        TYPES,
        &["check", "--table", "module"],
        Status::Done,
        &TYPES_FILE,
    ),
    // two parts with one tag: the second, behind 30 octets of line 2
    (
        TAGS_THAT_MEET,
        &["check", "module"],
        Status::ModuleRefused,
        b"module refused 2 31 TagsNotDistinct\n",
    ),
    // a type that can't end: its name, at the front of line 2
    (
        RECURSIVE,
        &["check", "module"],
        Status::ModuleRefused,
        b"module refused 2 1 Recursive\n",
    ),
    // two faults: the first
    (
        TWO_FAULTS,
        &["check", "module"],
        Status::ModuleRefused,
        b"module refused 3 1 DoubleName\n",
    ),
    // errors and linked operations are counted apart
    (
        ONE_ERROR,
        &["check", "module"],
        Status::Done,
        ONE_ERROR_LISTING,
    ),
    // the flag twice
    (
        &EMPTY_FILE,
        &["check", "--table", "module", "--table"],
        Status::Usage,
        USAGE,
    ),
    // a flag of another command, and no name
    (&EMPTY_FILE, &["check", "--brief"], Status::Usage, USAGE),
    // a name that no file has
    (
        &EMPTY_FILE,
        &["check", "gone"],
        Status::ReadFault,
        b"cannot read gone\n",
    ),
];

#[test]
fn checks_modules(rt: HostRuntime) {
    for (octets, said, status, text) in &ROWS {
        let files = [("module", *octets)];
        assert!(rt; gives(&rt, rt.alloc(), &files, said, *status, text));
    }
}
