//! A line for each operation and each error, and one with their numbers.

ghost use Rattle.std.specs.Prelude.{◌≡◌, ◌++◌, ◌∷◌, ◌<◌, ℕ, List, [], OnOk, IfOk, codes, decimal, flat_map, length};
ghost use Rattle.std.specs.Fmt.{signed_decimal};
ghost use Rattle.table_listing.specs.Listing.{use_word, result_word, code_text, operation_line, error_line, count_line, listing_of};

use osi_base::{NoMemory, Octets};
use std::alloc::Global;
use stub_tables::{Code, ErrorRow, Operation, Tables, Use};
use value_text::{Text, put_oid};

/// Whether a value is carried: always, perhaps or never.
fn use_word(carried: Use) -> &'static str
    ensures { result.now ≡ use_word carried }
{
    if carried.inner.is_none() {
        "none"
    } else if carried.optional {
        "optional"
    } else {
        "yes"
    }
}

/// The same of a result, which some operations never return.
fn result_word(operation: &Operation) -> &'static str
    ensures { result.now ≡ result_word operation.now }
{
    if operation.returns {
        use_word(operation.result)
    } else {
        "never"
    }
}

/// A code.
fn put_code(text: &mut Text, code: &Code) -> Result<(), NoMemory>
    ensures { OnOk result (text.new ≡ text.old ++ code_text code.now) }
{
    match code {
        Code::Local(number) => {
            text.put("local:")?;
            text.put_signed(*number)
        }
        Code::Global(oid) => {
            text.put("global:")?;
            put_oid(text, oid.arcs())
        }
    }
}

/// The line of an operation.
#[tactic(auto, unfolding(crate::specs::Listing::operation_line))]
fn put_operation(text: &mut Text, operation: &Operation) -> Result<(), NoMemory>
    ensures { OnOk result (text.new ≡ text.old ++ operation_line operation.now) }
{
    text.put("operation ")?;
    text.put_raw(operation.name.as_bytes())?;
    text.put(" ")?;
    put_code(text, &operation.code)?;
    text.put(" argument ")?;
    text.put(use_word(operation.argument))?;
    text.put(" result ")?;
    text.put(result_word(operation))?;
    text.put(" errors ")?;
    text.put_number(operation.errors.len() as u64)?;
    text.put(" linked ")?;
    text.put_number(operation.linked.len() as u64)?;
    text.end_line()
}

/// The line of an error.
#[tactic(auto, unfolding(crate::specs::Listing::error_line))]
fn put_error(text: &mut Text, error: &ErrorRow) -> Result<(), NoMemory>
    ensures { OnOk result (text.new ≡ text.old ++ error_line error.now) }
{
    text.put("error ")?;
    text.put_raw(error.name.as_bytes())?;
    text.put(" ")?;
    put_code(text, &error.code)?;
    text.put(" parameter ")?;
    text.put(use_word(error.parameter))?;
    text.end_line()
}

/// The lines of operations.
fn put_operations(text: &mut Text, operations: &[Operation]) -> Result<(), NoMemory>
    ensures { OnOk result (text.new ≡ text.old ++ flat_map operation_line operations.now) }
{
    for operation in operations {
        put_operation(text, operation)?;
    }
    Ok(())
}

/// The lines of errors.
fn put_errors(text: &mut Text, errors: &[ErrorRow]) -> Result<(), NoMemory>
    ensures { OnOk result (text.new ≡ text.old ++ flat_map error_line errors.now) }
{
    for error in errors {
        put_error(text, error)?;
    }
    Ok(())
}

/// A number, and words behind it.
fn put_count(text: &mut Text, number: usize, words: &str) -> Result<(), NoMemory>
    ensures { OnOk result (text.new ≡ text.old ++ (decimal number ++ words.now)) }
{
    text.put_number(number as u64)?;
    text.put(words)
}

/// The last line: how many operations and errors there are.
#[tactic(auto, unfolding(crate::specs::Listing::count_line))]
fn put_counts(text: &mut Text, operations: usize, errors: usize) -> Result<(), NoMemory>
    ensures { OnOk result (text.new ≡ text.old ++ count_line operations errors) }
{
    text.put("checked ")?;
    put_count(text, operations, " operations ")?;
    put_count(text, errors, " errors")?;
    text.end_line()
}

/// The listing of a module: a line for each operation, then one for each error, in the order of the
/// text, and how many there are.
///
/// # Errors
///
/// Where memory is refused.
#[tactic(auto, unfolding(crate::specs::Listing::listing_of))]
pub fn listing(alloc: Global, tables: &Tables) -> Result<Octets, NoMemory>
    ensures { IfOk result (λ octets. octets ≡ listing_of tables.now) }
{
    let mut text = Text::new(alloc);
    put_operations(&mut text, tables.operations.as_slice())?;
    put_errors(&mut text, tables.errors.as_slice())?;
    put_counts(&mut text, tables.operations.len(), tables.errors.len())?;
    Ok(text.into_octets())
}
