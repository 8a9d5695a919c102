//! How many octets APDUs have in each syntax: none is written to learn it, and no memory is taken.
//! A length past 64 bits stands still at their end.

ghost use Rattle.std.specs.Prelude.{◌≡◌, length, Some, None};
ghost use Rattle.std.specs.Option.{option_map};
ghost use Rattle.asn1_types.specs.Writing.{saturated};
ghost use Rattle.apdu_spelling.specs.Heads.{or_none};
ghost use Rattle.apdu_spelling.specs.Heads as heads;
ghost use Rattle.apdu_spelling.specs.Writing.{written_value, written_typed, written_carried, written_head, outcome_of, written_apdu};
ghost use Rattle.stub_tables.specs.Apdus.{argument_of, result_of, parameter_of, operation_coded, error_coded, returned_use, use_in};
ghost use Rattle.apdu_codec.specs.Lengths.{held_size, marked_size, integer_size, object_id_size, code_size, linked_size, rejected_size, is_too_long_in, is_too_long};

use asn1_types::{Class, TypeId, TypeTable, Val};
use ber_spelling::Tag;
use ber_writing::{ber_len, definite_len};
use osi_base::{Problem, Syntax};
use packed_codec::packed_len;
use stub_tables::{Apdu, Code, Returned, Tables, Use};

/// The most octets that an APDU may have.
const MOST_OCTETS: u64 = 262_144;

/// The tag of a SEQUENCE. Each tag of a head has one octet, as this one.
const SEQUENCE: Tag = Tag {
    class: Class::Universal,
    number: 16,
};

/// The length of a value.
fn value_len(syntax: Syntax, types: &TypeTable, of: TypeId, value: &Val) -> u64
    ensures { result ≡ saturated (length (written_value syntax types.now of.0 value.now)) }
{
    match syntax {
        Syntax::Ber => ber_len(types, of, value),
        Syntax::Der => ber_len(types, of, value),
        Syntax::Packed => packed_len(types, of, value),
    }
}

/// The length of a value whose type may not be known.
fn typed_len(syntax: Syntax, types: &TypeTable, of: Option<TypeId>, value: &Val) -> u64
    ensures { result ≡ saturated (length (or_none (written_typed syntax types.now of value.now))) }
{
    match of {
        Some(of) => value_len(syntax, types, of, value),
        None => 0,
    }
}

/// The length of what is carried.
fn carried_len(syntax: Syntax, types: &TypeTable, used: Option<Use>, value: &Option<Val>) -> u64
    ensures { result
        ≡ saturated (length (or_none (written_carried syntax types.now used value.now))) }
{
    let Some(used) = used else { return 0 };
    match value {
        Some(value) => typed_len(syntax, types, used.inner, value),
        None => 0,
    }
}

/// The length of what a result carries.
fn outcome_len(syntax: Syntax, types: &TypeTable, used: Option<Use>, value: &Val) -> u64
    ensures { result
        ≡ saturated (length (or_none (written_carried syntax types.now used (Some value.now)))) }
{
    let Some(used) = used else { return 0 };
    typed_len(syntax, types, used.inner, value)
}

/// The length of what holds others, which together have this one.
fn held_len(syntax: Syntax, count: u64) -> u64
    ensures { result ≡ saturated (held_size syntax count) }
{
    match syntax {
        Syntax::Ber => definite_len(SEQUENCE, count),
        Syntax::Der => definite_len(SEQUENCE, count),
        Syntax::Packed => count.saturating_add(1),
    }
}

/// The length of what is one of several, or may lack.
fn marked_len(syntax: Syntax, count: u64) -> u64
    ensures { result ≡ saturated (marked_size syntax count) }
{
    match syntax {
        Syntax::Ber => count,
        Syntax::Der => count,
        Syntax::Packed => count.saturating_add(1),
    }
}

/// The length of an INTEGER.
fn integer_len(syntax: Syntax, number: i64) -> u64
    ensures { result ≡ saturated (integer_size syntax number) }
{
    match syntax {
        Syntax::Ber => held_len(syntax, ber_writing::integer_len(number)),
        Syntax::Der => held_len(syntax, ber_writing::integer_len(number)),
        Syntax::Packed => 1 + packed_codec::integer_len(number),
    }
}

/// The length of an OBJECT IDENTIFIER.
fn object_id_len(syntax: Syntax, arcs: &[u32]) -> u64
    ensures { result ≡ saturated (object_id_size syntax arcs.now) }
{
    match syntax {
        Syntax::Ber => held_len(syntax, ber_writing::arcs_len(arcs)),
        Syntax::Der => held_len(syntax, ber_writing::arcs_len(arcs)),
        Syntax::Packed => packed_codec::arcs_len(arcs).saturating_add(4),
    }
}

/// The length of a code.
fn code_len(syntax: Syntax, code: &Code) -> u64
    ensures { result ≡ saturated (code_size syntax code.now) }
{
    match code {
        Code::Local(number) => marked_len(syntax, integer_len(syntax, *number)),
        Code::Global(oid) => marked_len(syntax, object_id_len(syntax, oid.arcs())),
    }
}

/// The length of the identifier of the invocation that one is linked to.
fn linked_len(syntax: Syntax, linked: Option<i64>) -> u64
    ensures { result ≡ saturated (linked_size syntax linked) }
{
    match linked {
        Some(id) => marked_len(syntax, integer_len(syntax, id)),
        None => marked_len(syntax, 0),
    }
}

/// The length of what is rejected: an identifier, or NULL.
fn rejected_len(syntax: Syntax, id: Option<i64>) -> u64
    ensures { result ≡ saturated (rejected_size syntax id) }
{
    match id {
        Some(id) => marked_len(syntax, integer_len(syntax, id)),
        None => match syntax {
            Syntax::Ber => 2,
            Syntax::Der => 2,
            Syntax::Packed => 1,
        },
    }
}

/// The length of an invocation whose argument is used so.
fn invoke_len(
    syntax: Syntax,
    tables: &Tables,
    used: Option<Use>,
    id: i64,
    linked: Option<i64>,
    code: &Code,
    argument: &Option<Val>,
) -> u64
    requires { used ≡ option_map argument_of (operation_coded tables.now code.now) }
    ensures { result ≡ saturated (length (written_head syntax
        (heads.invoke id linked code.now (written_carried syntax tables.now.types
        (option_map argument_of (operation_coded tables.now code.now)) argument.now)))) }
{
    let carried = carried_len(syntax, &tables.types, used, argument);
    let front = integer_len(syntax, id).saturating_add(linked_len(syntax, linked));
    let behind = code_len(syntax, code).saturating_add(marked_len(syntax, carried));
    let contents = front.saturating_add(behind);
    held_len(syntax, contents)
}

/// The length of an error whose parameter is used so.
fn error_len(
    syntax: Syntax,
    tables: &Tables,
    used: Option<Use>,
    id: i64,
    code: &Code,
    parameter: &Option<Val>,
) -> u64
    requires { used ≡ option_map parameter_of (error_coded tables.now code.now) }
    ensures { result ≡ saturated (length (written_head syntax
        (heads.error id code.now (written_carried syntax tables.now.types
        (option_map parameter_of (error_coded tables.now code.now)) parameter.now)))) }
{
    let carried = carried_len(syntax, &tables.types, used, parameter);
    let behind = code_len(syntax, code).saturating_add(marked_len(syntax, carried));
    let contents = integer_len(syntax, id).saturating_add(behind);
    held_len(syntax, contents)
}

/// The length of a result without a value.
fn none_len(syntax: Syntax, id: i64) -> u64
    ensures { result ≡ saturated (length (written_head syntax (heads.result id None))) }
{
    let contents = integer_len(syntax, id).saturating_add(marked_len(syntax, 0));
    held_len(syntax, contents)
}

/// The length of a result with what is returned, which is used so.
fn result_len(
    syntax: Syntax,
    tables: &Tables,
    used: Option<Use>,
    id: i64,
    returned: &Returned,
) -> u64
    requires { used ≡ option_map result_of (operation_coded tables.now returned.now.code) }
    ensures { result ≡ saturated (length (written_head syntax
        (heads.result id (outcome_of tables.now syntax (Some returned.now))))) }
{
    let carried = outcome_len(syntax, &tables.types, used, &returned.value);
    let behind = code_len(syntax, &returned.code).saturating_add(carried);
    let outcome = held_len(syntax, behind);
    let contents = integer_len(syntax, id).saturating_add(outcome);
    held_len(syntax, contents)
}

/// The length of a result with what is returned, if anything, which is used so.
fn returned_len(
    syntax: Syntax,
    tables: &Tables,
    used: Option<Use>,
    id: i64,
    returned: &Option<Returned>,
) -> u64
    requires { used ≡ returned_use tables.now returned.now }
    ensures { result ≡ saturated (length (written_head syntax
        (heads.result id (outcome_of tables.now syntax returned.now)))) }
{
    match returned {
        Some(returned) => result_len(syntax, tables, used, id, returned),
        None => none_len(syntax, id),
    }
}

/// The length of a reject.
fn reject_len(syntax: Syntax, id: Option<i64>, problem: &Problem) -> u64
    ensures { result ≡ saturated (length (written_head syntax (heads.reject id problem.now))) }
{
    let rejected = rejected_len(syntax, id);
    let number = integer_len(syntax, problem.number);
    let contents = rejected.saturating_add(marked_len(syntax, number));
    held_len(syntax, contents)
}

/// The length of an APDU whose value is used so.
#[tactic(auto, unfolding(apdu_spelling::specs::Writing::written_apdu))]
fn len_with(syntax: Syntax, tables: &Tables, used: Option<Use>, apdu: &Apdu) -> u64
    requires { used ≡ use_in tables.now apdu.now }
    ensures { result ≡ saturated (length (written_apdu tables.now syntax apdu.now)) }
{
    match apdu {
        Apdu::Invoke {
            id,
            linked,
            code,
            argument,
        } => invoke_len(syntax, tables, used, *id, *linked, code, argument),
        Apdu::Result { id, returned } => returned_len(syntax, tables, used, *id, returned),
        Apdu::Error {
            id,
            code,
            parameter,
        } => error_len(syntax, tables, used, *id, code, parameter),
        Apdu::Reject { id, problem } => reject_len(syntax, *id, problem),
    }
}

/// How many octets an APDU has as `write_apdu` writes it. One of 2 ^ 64 or more gives 2 ^ 64 - 1.
pub fn apdu_len(syntax: Syntax, tables: &Tables, apdu: &Apdu) -> u64
    ensures { result ≡ saturated (length (written_apdu tables.now syntax apdu.now)) }
{
    len_with(syntax, tables, tables.use_in(apdu), apdu)
}

/// Whether an APDU has more octets than one may have in a syntax.
#[tactic(auto, using(crate::proofs::Sizes::is_past))]
fn is_too_long_in(syntax: Syntax, tables: &Tables, used: Option<Use>, apdu: &Apdu) -> bool
    requires { used ≡ use_in tables.now apdu.now }
    ensures { result ≡ is_too_long_in tables.now syntax apdu.now }
{
    len_with(syntax, tables, used, apdu) > MOST_OCTETS
}

/// Whether an APDU whose value is used so has more than 262,144 octets in one of the three
/// syntaxes. BER and DER have one spelling.
#[tactic(auto, using(crate::proofs::Sizes::too_long))]
pub fn is_too_long_with(tables: &Tables, used: Option<Use>, apdu: &Apdu) -> bool
    requires { used ≡ use_in tables.now apdu.now }
    ensures { result ≡ is_too_long tables.now apdu.now }
{
    let ber = is_too_long_in(Syntax::Ber, tables, used, apdu);
    let packed = is_too_long_in(Syntax::Packed, tables, used, apdu);
    ber || packed
}

/// Whether an APDU has more than 262,144 octets in one of the three syntaxes.
pub fn is_too_long(tables: &Tables, apdu: &Apdu) -> bool
    ensures { result ≡ is_too_long tables.now apdu.now }
{
    is_too_long_with(tables, tables.use_in(apdu), apdu)
}
