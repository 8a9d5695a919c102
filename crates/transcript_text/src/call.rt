//! Calls, events and what came of them, as texts.

ghost use Rattle.std.specs.Prelude.{◌≡◌, ◌++◌, ◌∷◌, ◌<◌, ℕ, [], List, OnOk, decimal, flat_map, slice_get, codes};
ghost use Rattle.std.specs.Fmt.{signed_decimal};
ghost use Rattle.transcript_text.specs.Calls.{operation_name, error_name, linked_field, syntax_text, syntax_field, as_field, addition_text, number_field, deletions_text, call_text, amount_text, carry_text, event_text, answer_text};
ghost use Rattle.dialogue.specs.Printed.{call_refusal_text};
ghost use Rattle.script_lines.specs.Invoked.{result_type};
ghost use Rattle.transcript_text.specs.Typed.{field_by, argument_type, parameter_type};
ghost use Rattle.transcript_text.specs.Words.{side_word};
ghost use Rattle.dialogue.specs.declared.event.Event.TheVariants as events;

use crate::typed::{put_argument, put_parameter, put_result};
use crate::words::{other, side_word};
use asn1_types::Val;
use dialogue::{Call, CallRefusal, Event};
use osi_base::{NoMemory, Oid, Proposal, Side, Syntax};
use script_lines::InvokedOperations;
use stub_tables::Tables;
use value_text::{Text, put_oid};

/// The name of the operation at this place, or `?` where there is none.
pub(crate) fn put_operation(text: &mut Text, tables: &Tables, place: u32) -> Result<(), NoMemory>
    ensures { OnOk result (text.new ≡ text.old ++ operation_name tables.now place) }
{
    match tables.operations.get(place as usize) {
        Some(operation) => text.put_raw(operation.name.as_bytes()),
        None => text.put("?"),
    }
}

/// The name of the error at this place, or `?` where there is none.
pub(crate) fn put_error(text: &mut Text, tables: &Tables, place: u32) -> Result<(), NoMemory>
    ensures { OnOk result (text.new ≡ text.old ++ error_name tables.now place) }
{
    match tables.errors.get(place as usize) {
        Some(error) => text.put_raw(error.name.as_bytes()),
        None => text.put("?"),
    }
}

/// The invocation to which one is linked, where there is one.
pub(crate) fn put_linked(text: &mut Text, linked: Option<i64>) -> Result<(), NoMemory>
    ensures { OnOk result (text.new ≡ text.old ++ linked_field linked) }
{
    match linked {
        Some(id) => {
            text.put(" linked ")?;
            text.put_signed(id)
        }
        None => Ok(()),
    }
}

/// A space, and a transfer syntax by its word or by its object identifier.
fn put_syntax(text: &mut Text, name: &Oid) -> Result<(), NoMemory>
    ensures { OnOk result (text.new ≡ text.old ++ syntax_field name.now) }
{
    text.put(" ")?;
    match Syntax::from_name(name.arcs()) {
        Some(Syntax::Ber) => text.put("ber"),
        Some(Syntax::Der) => text.put("der"),
        Some(Syntax::Packed) => text.put("packed"),
        None => put_oid(text, name.arcs()),
    }
}

/// The abstract syntax of an addition, where it isn't the module's.
fn put_abstract(text: &mut Text, tables: &Tables, name: &Oid) -> Result<(), NoMemory>
    ensures { OnOk result (text.new ≡ text.old ++ as_field tables.now name.now) }
{
    if name.is(&tables.name_oid) {
        return Ok(());
    }
    text.put(" as ")?;
    put_oid(text, name.arcs())
}

/// An addition.
fn put_addition(text: &mut Text, tables: &Tables, addition: &Proposal) -> Result<(), NoMemory>
    ensures { OnOk result (text.new ≡ text.old ++ addition_text tables.now addition.now) }
{
    text.put(" add ")?;
    text.put_number(u64::from(addition.id))?;
    put_abstract(text, tables, &addition.abstract_name)?;
    for name in addition.transfers.as_slice() {
        put_syntax(text, name)?;
    }
    Ok(())
}

/// The additions of an alteration.
fn put_additions(text: &mut Text, tables: &Tables, additions: &[Proposal]) -> Result<(), NoMemory>
    ensures { OnOk result (text.new ≡ text.old ++ flat_map (addition_text tables.now)
        additions.now) }
{
    for addition in additions {
        put_addition(text, tables, addition)?;
    }
    Ok(())
}

/// A number as a field of its own.
pub(crate) fn put_number_field(text: &mut Text, number: u64) -> Result<(), NoMemory>
    ensures { OnOk result (text.new ≡ text.old ++ number_field number) }
{
    text.put(" ")?;
    text.put_number(number)
}

/// The deletions of an alteration, where there are any.
fn put_deletions(text: &mut Text, ids: &[u32]) -> Result<(), NoMemory>
    ensures { OnOk result (text.new ≡ text.old ++ deletions_text ids.now) }
{
    if ids.is_empty() {
        return Ok(());
    }
    text.put(" delete")?;
    for id in ids {
        put_number_field(text, u64::from(*id))?;
    }
    Ok(())
}

/// An invocation that is asked for.
fn put_invoke(
    text: &mut Text,
    tables: &Tables,
    context: u32,
    operation: u32,
    argument: &Option<Val>,
    linked: Option<i64>,
) -> Result<(), NoMemory>
    ensures { OnOk result (text.new ≡ text.old ++ (codes "invoke " ++ decimal context ++ codes " "
        ++ operation_name tables.now operation
        ++ field_by tables.now.types (argument_type tables.now operation) argument.now
        ++ linked_field linked)) }
{
    text.put("invoke ")?;
    text.put_number(u64::from(context))?;
    text.put(" ")?;
    put_operation(text, tables, operation)?;
    put_argument(text, tables, operation, argument)?;
    put_linked(text, linked)
}

/// An error behind the name of what tells it, with its invocation and its parameter.
pub(crate) fn put_told_error(
    text: &mut Text,
    tables: &Tables,
    name: &str,
    id: i64,
    error: u32,
    parameter: &Option<Val>,
) -> Result<(), NoMemory>
    ensures { OnOk result (text.new ≡ text.old ++ (name.now ++ signed_decimal id ++ codes " "
        ++ error_name tables.now error
        ++ field_by tables.now.types (parameter_type tables.now error) parameter.now)) }
{
    text.put(name)?;
    text.put_signed(id)?;
    text.put(" ")?;
    put_error(text, tables, error)?;
    put_parameter(text, tables, error, parameter)
}

/// A call. Values print by their types where they fit them, else by their form; that of an answer
/// by the operation that the other end's invocation of its number named, of which `named` are all.
pub(crate) fn put_call(
    text: &mut Text,
    tables: &Tables,
    named: &[u32],
    call: &Call,
) -> Result<(), NoMemory>
    ensures { OnOk result (text.new ≡ text.old ++ call_text tables.now named.now call.now) }
{
    match call {
        Call::Open => text.put("open"),
        Call::Invoke {
            context,
            operation,
            argument,
            linked,
        } => put_invoke(text, tables, *context, *operation, argument, *linked),
        Call::Answer { id, result } => {
            text.put("answer ")?;
            text.put_signed(*id)?;
            put_result(text, tables, named, *id, result)
        }
        Call::Refuse {
            id,
            error,
            parameter,
        } => put_told_error(text, tables, "refuse ", *id, *error, parameter),
        Call::Alter { add, delete } => {
            text.put("alter")?;
            put_additions(text, tables, add.as_slice())?;
            put_deletions(text, delete.as_slice())
        }
        Call::Mark => text.put("mark"),
        Call::Give => text.put("give"),
        Call::Please { priority } => put_named(text, "please ", *priority),
        Call::Resync { n } => put_named(text, "resync ", *n),
        Call::Interrupt => text.put("interrupt"),
        Call::Resume => text.put("resume"),
        Call::Discard => text.put("discard"),
        Call::Recover => text.put("recover"),
        Call::Release => text.put("release"),
        Call::Abort => text.put("abort"),
    }
}

/// A carry from one side.
pub(crate) fn put_carry(text: &mut Text, side: Side, most: Option<u32>) -> Result<(), NoMemory>
    ensures { OnOk result (text.new ≡ text.old ++ carry_text side most) }
{
    text.put("carry ")?;
    text.put(side_word(side))?;
    text.put(" ")?;
    match most {
        Some(most) => text.put_number(u64::from(most)),
        None => text.put("all"),
    }
}

/// A call at one side, behind calls that named these operations.
pub(crate) fn put_call_event(
    text: &mut Text,
    tables: &Tables,
    invoked: &InvokedOperations,
    side: Side,
    call: &Call,
) -> Result<(), NoMemory>
    ensures { OnOk result (text.new ≡ text.old ++ event_text tables.now invoked.now
        (events.Call side call.now)) }
{
    text.put(side_word(side))?;
    text.put(" ")?;
    put_call(text, tables, invoked.of(other(side)), call)
}

/// An event, with single spaces between its fields, behind others whose calls named these
/// operations.
pub fn put_event(
    text: &mut Text,
    tables: &Tables,
    invoked: &InvokedOperations,
    event: &Event,
) -> Result<(), NoMemory>
    ensures { OnOk result (text.new ≡ text.old ++ event_text tables.now invoked.now event.now) }
{
    match event {
        Event::Call { side, call } => put_call_event(text, tables, invoked, *side, call),
        Event::Carry { side, most } => put_carry(text, *side, *most),
        Event::Break => text.put("break"),
    }
}

/// A name, and the number that comes with it.
pub(crate) fn put_named(text: &mut Text, name: &str, number: u32) -> Result<(), NoMemory>
    ensures { OnOk result (text.new ≡ text.old ++ (name.now ++ decimal number)) }
{
    text.put(name)?;
    text.put_number(u64::from(number))
}

/// A name, and the identifier that comes with it.
fn put_identified(text: &mut Text, name: &str, id: i64) -> Result<(), NoMemory>
    ensures { OnOk result (text.new ≡ text.old ++ (name.now ++ signed_decimal id)) }
{
    text.put(name)?;
    text.put_signed(id)
}

/// A refusal by its name, with the number that it carries.
fn put_refusal(text: &mut Text, refusal: CallRefusal) -> Result<(), NoMemory>
    ensures { OnOk result (text.new ≡ text.old ++ call_refusal_text refusal) }
{
    text.put(refusal.word())?;
    match refusal.number() {
        None => Ok(()),
        Some(number) => put_identified(text, " ", number),
    }
}

/// The answer to a call.
pub fn put_answer(
    text: &mut Text,
    answer: &Result<Option<i64>, CallRefusal>,
) -> Result<(), NoMemory>
    ensures { OnOk result (text.new ≡ text.old ++ answer_text answer.now) }
{
    match answer {
        Ok(None) => text.put("ok"),
        Ok(Some(id)) => put_identified(text, "ok ", *id),
        Err(refusal) => {
            text.put("refused ")?;
            put_refusal(text, *refusal)
        }
    }
}
