//! What is told of the head of an APDU.

ghost use Rattle.std.specs.Prelude.{◌≡◌, ◌++◌, IfOk, OnOk};
ghost use Rattle.std.specs.Option.{option_copied};
ghost use Rattle.trace_values.specs.Heads.{operation_named, error_named, named_text, result_text, invoke_told, result_told, error_told, reject_told, WasTold, head_told};

use apdu_spelling::{ApduHead, ApduKind};
use osi_base::{Name, NoMemory};
use stub_tables::{Code, Tables};
use transcript_text::{put_id, put_problem};
use value_text::Text;

/// The name of the operation with this code.
fn operation_named<'t>(tables: &'t Tables, code: &Code) -> Option<&'t Name>
    ensures { option_copied result ≡ operation_named tables.entry.now code.now }
{
    let place = tables.operation_with(code)?;
    let operation = tables.operation(place)?;
    Some(&operation.name)
}

/// The name of the error with this code.
fn error_named<'t>(tables: &'t Tables, code: &Code) -> Option<&'t Name>
    ensures { option_copied result ≡ error_named tables.entry.now code.now }
{
    let place = tables.error_with(code)?;
    let error = tables.error(place)?;
    Some(&error.name)
}

/// A word, an identifier and a name.
fn put_named(text: &mut Text, word: &str, id: Option<i64>, name: &Name) -> Result<(), NoMemory>
    ensures { OnOk result (text.new ≡ text.old ++ named_text word.now id name.now) }
{
    text.put(word)?;
    put_id(text, id)?;
    text.put(" ")?;
    text.put(name.as_str())
}

fn put_invoke(text: &mut Text, tables: &Tables, head: &ApduHead) -> Result<bool, NoMemory>
    ensures { IfOk result (λ told. WasTold told text.old text.new
        (invoke_told tables.now head.now.id head.now.code)) }
{
    let Some(code) = &head.code else {
        return Ok(false);
    };
    match operation_named(tables, code) {
        None => Ok(false),
        Some(name) => {
            put_named(text, "invoke ", head.id, name)?;
            Ok(true)
        }
    }
}

fn put_error(text: &mut Text, tables: &Tables, head: &ApduHead) -> Result<bool, NoMemory>
    ensures { IfOk result (λ told. WasTold told text.old text.new
        (error_told tables.now head.now.id head.now.code)) }
{
    let Some(code) = &head.code else {
        return Ok(false);
    };
    match error_named(tables, code) {
        None => Ok(false),
        Some(name) => {
            put_named(text, "error ", head.id, name)?;
            Ok(true)
        }
    }
}

fn put_bare_result(text: &mut Text, id: Option<i64>) -> Result<(), NoMemory>
    ensures { OnOk result (text.new ≡ text.old ++ result_text id) }
{
    text.put("result ")?;
    put_id(text, id)
}

fn put_result(text: &mut Text, tables: &Tables, head: &ApduHead) -> Result<bool, NoMemory>
    ensures { IfOk result (λ told. WasTold told text.old text.new
        (result_told tables.now head.now.id head.now.code)) }
{
    let Some(code) = &head.code else {
        put_bare_result(text, head.id)?;
        return Ok(true);
    };
    match operation_named(tables, code) {
        None => Ok(false),
        Some(_) => {
            put_bare_result(text, head.id)?;
            Ok(true)
        }
    }
}

fn put_reject(text: &mut Text, head: &ApduHead) -> Result<bool, NoMemory>
    ensures { IfOk result (λ told. WasTold told text.old text.new
        (reject_told head.now.id head.now.problem)) }
{
    match head.problem {
        None => Ok(false),
        Some(problem) => {
            text.put("reject ")?;
            put_id(text, head.id)?;
            text.put(" ")?;
            put_problem(text, problem)?;
            Ok(true)
        }
    }
}

/// Puts what is told of a head behind the text; false, and then nothing, where it has a code that
/// the module doesn't know, or none in an invocation or an error.
pub(crate) fn put_head(text: &mut Text, tables: &Tables, head: &ApduHead) -> Result<bool, NoMemory>
    ensures { IfOk result (λ told. WasTold told text.old text.new (head_told tables.now head.now)) }
{
    match head.kind {
        ApduKind::Invoke => put_invoke(text, tables, head),
        ApduKind::Result => put_result(text, tables, head),
        ApduKind::Error => put_error(text, tables, head),
        ApduKind::Reject => put_reject(text, head),
    }
}
