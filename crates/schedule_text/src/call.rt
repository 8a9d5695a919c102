//! Calls as fields.

ghost use Rattle.std.specs.Prelude.{◌≡◌, ◌<◌, ◌^◌, ◌-◌, IfOk, IfSome, bytes_eq, position, length, codes, Some, None};
ghost use Rattle.std.specs.Option.{option_copied};
ghost use Rattle.stub_tables.specs.Lookup.{operation_at, error_at};
ghost use Rattle.script_lines.specs.Invoked.{result_type};
ghost use Rattle.script_lines.specs.Reading.{Gives, or_kind};
ghost use Rattle.schedule_text.specs.Calls.{operation_named, error_named, argument_of, parameter_of, linked_here, linked_at, invoke_at, refuse_at, answer_at, please_at, resync_at, plain_call, long_call, call_of, no_use, linked_word};
ghost use Rattle.schedule_text.specs.Calls.{narrowed};

use crate::alter::alter;
use dialogue::Call;
use script_lines::{
    ScriptKind, ScriptLineFault, at_line_end, field, identifier_field, is_over, number_field,
    result_type, used_value, value_of_result,
};
use std::alloc::Global;
use stub_tables::{ErrorRow, Operation, Tables, Use};

/// The place of the first operation of this name.
fn operation_place(operations: &[Operation], name: &[u8]) -> Option<usize>
    ensures { result ≡ position (λ operation. bytes_eq operation.name name.now) operations.now }
{
    operations
        .iter()
        .position(|operation| operation.name.as_bytes() == name)
}

/// The place of the first error of this name.
fn error_place(errors: &[ErrorRow], name: &[u8]) -> Option<usize>
    ensures { result ≡ position (λ error. bytes_eq error.name name.now) errors.now }
{
    errors
        .iter()
        .position(|error| error.name.as_bytes() == name)
}

/// The place of 32 bits, or a `BadName`.
fn narrowed(place: Option<usize>) -> Result<u32, ScriptLineFault>
    ensures { Gives (λ x. x) result (or_kind ScriptKind.BadName (narrowed place)) }
{
    let Some(place) = place else {
        return Err(ScriptLineFault::Kind(ScriptKind::BadName));
    };
    match u32::try_from(place) {
        Ok(place) => Ok(place),
        Err(_) => Err(ScriptLineFault::Kind(ScriptKind::BadName)),
    }
}

/// The operation of this name.
fn operation_named(tables: &Tables, name: &[u8]) -> Result<u32, ScriptLineFault>
    ensures { Gives (λ x. x) result (or_kind ScriptKind.BadName
        (operation_named tables.now name.now)) }
{
    narrowed(operation_place(tables.operations.as_slice(), name))
}

/// The error of this name.
fn error_named(tables: &Tables, name: &[u8]) -> Result<u32, ScriptLineFault>
    ensures { Gives (λ x. x) result (or_kind ScriptKind.BadName (error_named tables.now name.now)) }
{
    narrowed(error_place(tables.errors.as_slice(), name))
}

/// A use without a value.
fn no_use() -> Use
    ensures { result ≡ no_use }
{
    Use {
        inner: None,
        optional: false,
    }
}

/// What the operation at this place takes.
fn argument_of(tables: &Tables, place: u32) -> Use
    ensures { result ≡ argument_of (operation_at tables.now place) }
{
    match tables.operation(place) {
        Some(operation) => operation.argument,
        None => no_use(),
    }
}

/// What the error at this place carries.
fn parameter_of(tables: &Tables, place: u32) -> Use
    ensures { result ≡ parameter_of (error_at tables.now place) }
{
    match tables.error(place) {
        Some(error) => error.parameter,
        None => no_use(),
    }
}

/// The word `linked`, which has to stand next.
fn linked_word(text: &[u8]) -> Result<&[u8], ScriptLineFault>
    ensures { Gives (λ x. x.now) result (linked_word text.now) }
{
    let (word, rest) = field(text)?;
    if word == b"linked".as_slice() {
        Ok(rest)
    } else {
        Err(ScriptLineFault::Kind(ScriptKind::BadField))
    }
}

/// The invocation to which one is linked, if a field is left.
fn linked(text: &[u8]) -> Result<(Option<i64>, &[u8]), ScriptLineFault>
    ensures { Gives (λ x. (x.0, x.1.now)) result (linked_at text.now) }
{
    if is_over(text) {
        return Ok((None, text));
    }
    let rest = linked_word(text)?;
    let (id, rest) = identifier_field(rest)?;
    Ok((Some(id), rest))
}

/// What follows the word `invoke`.
#[tactic(auto, unfolding(crate::specs::Calls::invoke_at))]
fn invoke(alloc: Global, tables: &Tables, text: &[u8]) -> Result<Call, ScriptLineFault>
    ensures { Gives (λ x. x) result (invoke_at tables.now text.now) }
{
    let (context, rest) = number_field(text)?;
    let (name, rest) = field(rest)?;
    let operation = operation_named(tables, name)?;
    let used = argument_of(tables, operation);
    let (argument, rest) = used_value(alloc, &tables.types, used, true, rest)?;
    let (linked, rest) = linked(rest)?;
    at_line_end(
        Call::Invoke {
            context,
            operation,
            argument,
            linked,
        },
        rest,
    )
}

/// What follows the word `refuse`.
#[tactic(auto, unfolding(crate::specs::Calls::refuse_at))]
fn refuse(alloc: Global, tables: &Tables, text: &[u8]) -> Result<Call, ScriptLineFault>
    ensures { Gives (λ x. x) result (refuse_at tables.now text.now) }
{
    let (id, rest) = identifier_field(text)?;
    let (name, rest) = field(rest)?;
    let error = error_named(tables, name)?;
    let used = parameter_of(tables, error);
    let (parameter, rest) = used_value(alloc, &tables.types, used, false, rest)?;
    at_line_end(
        Call::Refuse {
            id,
            error,
            parameter,
        },
        rest,
    )
}

/// What follows the word `answer`.
#[tactic(auto, unfolding(crate::specs::Calls::answer_at))]
fn answer(
    alloc: Global,
    tables: &Tables,
    invoked: &[u32],
    text: &[u8],
) -> Result<Call, ScriptLineFault>
    ensures { Gives (λ x. x) result (answer_at tables.now invoked.now text.now) }
{
    let (id, rest) = identifier_field(text)?;
    let of = result_type(tables, invoked, id);
    let (result_value, rest) = value_of_result(alloc, &tables.types, of, rest)?;
    at_line_end(
        Call::Answer {
            id,
            result: result_value,
        },
        rest,
    )
}

/// What follows the word `please`.
fn please(text: &[u8]) -> Result<Call, ScriptLineFault>
    ensures { Gives (λ x. x) result (please_at text.now) }
{
    let (priority, rest) = number_field(text)?;
    at_line_end(Call::Please { priority }, rest)
}

/// What follows the word `resync`.
fn resync(text: &[u8]) -> Result<Call, ScriptLineFault>
    ensures { Gives (λ x. x) result (resync_at text.now) }
{
    let (n, rest) = number_field(text)?;
    at_line_end(Call::Resync { n }, rest)
}

/// A call that is one word.
fn plain_call(word: &[u8]) -> Option<Call>
    ensures { result ≡ plain_call word.now }
{
    if word == b"open".as_slice() {
        Some(Call::Open)
    } else if word == b"mark".as_slice() {
        Some(Call::Mark)
    } else if word == b"give".as_slice() {
        Some(Call::Give)
    } else if word == b"interrupt".as_slice() {
        Some(Call::Interrupt)
    } else if word == b"resume".as_slice() {
        Some(Call::Resume)
    } else if word == b"discard".as_slice() {
        Some(Call::Discard)
    } else if word == b"recover".as_slice() {
        Some(Call::Recover)
    } else if word == b"release".as_slice() {
        Some(Call::Release)
    } else if word == b"abort".as_slice() {
        Some(Call::Abort)
    } else {
        None
    }
}

/// A call that has further fields.
fn long_call(
    alloc: Global,
    tables: &Tables,
    invoked: &[u32],
    word: &[u8],
    rest: &[u8],
) -> Result<Call, ScriptLineFault>
    ensures { Gives (λ x. x) result (long_call tables.now invoked.now word.now rest.now) }
{
    if word == b"invoke".as_slice() {
        invoke(alloc, tables, rest)
    } else if word == b"answer".as_slice() {
        answer(alloc, tables, invoked, rest)
    } else if word == b"refuse".as_slice() {
        refuse(alloc, tables, rest)
    } else if word == b"alter".as_slice() {
        alter(alloc, tables, rest)
    } else if word == b"please".as_slice() {
        please(rest)
    } else if word == b"resync".as_slice() {
        resync(rest)
    } else {
        Err(ScriptLineFault::Kind(ScriptKind::UnknownWord))
    }
}

/// A call, of which the word and what follows it are given. The results of answers are read by the
/// operations that the lines of the other end invoked before.
pub(crate) fn call(
    alloc: Global,
    tables: &Tables,
    invoked: &[u32],
    word: &[u8],
    rest: &[u8],
) -> Result<Call, ScriptLineFault>
    ensures { Gives (λ x. x) result (call_of tables.now invoked.now word.now rest.now) }
{
    match plain_call(word) {
        Some(call) => at_line_end(call, rest),
        None => long_call(alloc, tables, invoked, word, rest),
    }
}
