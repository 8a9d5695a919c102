//! Values in a line.

ghost use Rattle.std.specs.Prelude.{◌≡◌, IfOk};
ghost use Rattle.value_reading.specs.Found.{found};
ghost use Rattle.script_lines.specs.Reading.{Gives};
ghost use Rattle.script_lines.specs.Values.{typed_at, bad_value, if_parted, no_value, value_is_over, used_found, used_at, form_found, by_form, result_found, result_at};

use crate::fault::ScriptKind;
use crate::fields::{is_next, is_parted};
use crate::line_fault::ScriptLineFault;
use asn1_types::{TextKind, TypeId, TypeTable, Val, is_text};
use osi_base::NoMemory;
use std::alloc::Global;
use stub_tables::Use;
use value_reading::{ValueAndRest, after_spaces, read_form, read_typed};

/// The value of a type, where there is one, that stands first.
fn typed<'a>(
    alloc: Global,
    types: &TypeTable,
    of: Option<TypeId>,
    text: &'a [u8],
) -> Result<Option<ValueAndRest<'a>>, NoMemory>
    ensures { IfOk result (λ front. found front ≡ typed_at types.now of text.now) }
{
    match of {
        Some(of) => read_typed(alloc, types, of, text),
        None => Ok(None),
    }
}

/// How what is no value is faulty.
fn bad_value(here: &[u8]) -> ScriptKind
    ensures { result ≡ bad_value here.now }
{
    if is_text(TextKind::Utf8, here) {
        ScriptKind::BadValue
    } else {
        ScriptKind::BadField
    }
}

/// A value that is parted from what follows it.
fn if_parted(front: ValueAndRest<'_>) -> Result<(Option<Val>, &[u8]), ScriptLineFault>
    ensures { Gives (λ x. (x.0, x.1.now)) result
        (if_parted (record { value = front.entry.value; rest = front.entry.rest.now })) }
{
    let ValueAndRest { value, rest } = front;
    if is_parted(rest) {
        Ok((Some(value), rest))
    } else {
        Err(ScriptLineFault::Kind(ScriptKind::BadField))
    }
}

/// No value, where a use may lack it.
fn no_value(used: Use, here: &[u8]) -> Result<(Option<Val>, &[u8]), ScriptLineFault>
    ensures { Gives (λ x. (x.0, x.1.now)) result (no_value used here.now) }
{
    if used.may_lack() {
        Ok((None, here))
    } else {
        Err(ScriptLineFault::Kind(bad_value(here)))
    }
}

/// Whether nothing stands here, or the word that follows an argument.
fn value_is_over(links: bool, here: &[u8]) -> bool
    ensures { result ≡ value_is_over links here.now }
{
    here.is_empty() || (links && is_next("linked", here))
}

/// The value of a use that was found, or what stands in its place.
fn used_found<'a>(
    used: Use,
    links: bool,
    here: &'a [u8],
    front: Option<ValueAndRest<'a>>,
) -> Result<(Option<Val>, &'a [u8]), ScriptLineFault>
    ensures { Gives (λ x. (x.0, x.1.now)) result
        (used_found used links here.now (found front.entry)) }
{
    match front {
        Some(front) => if_parted(front),
        None => {
            if value_is_over(links, here) {
                no_value(used, here)
            } else {
                Err(ScriptLineFault::Kind(bad_value(here)))
            }
        }
    }
}

/// The value of an argument or parameter, if one stands next, and what follows it: by its type, and
/// none where the use has no type or may lack it; else a `BadValue`. A `BadField` where no space and
/// no end of the line follows the value, or where the rest of the line isn't UTF-8. With `links` the
/// word `linked` may follow in its place.
#[tactic(auto, unfolding(crate::specs::Values::used_at))]
pub fn used_value<'a>(
    alloc: Global,
    types: &TypeTable,
    used: Use,
    links: bool,
    text: &'a [u8],
) -> Result<(Option<Val>, &'a [u8]), ScriptLineFault>
    ensures { Gives (λ x. (x.0, x.1.now)) result (used_at types.now used links text.now) }
{
    let here = after_spaces(text);
    let front = typed(alloc, types, used.inner, here)?;
    used_found(used, links, here, front)
}

/// The value of a form that was found.
fn form_found(front: Option<ValueAndRest<'_>>) -> Result<(Option<Val>, &[u8]), ScriptLineFault>
    ensures { Gives (λ x. (x.0, x.1.now)) result (form_found (found front.entry)) }
{
    match front {
        Some(front) => if_parted(front),
        None => Err(ScriptLineFault::Kind(ScriptKind::BadValue)),
    }
}

/// A value by its form.
fn by_form(alloc: Global, here: &[u8]) -> Result<(Option<Val>, &[u8]), ScriptLineFault>
    ensures { Gives (λ x. (x.0, x.1.now)) result (by_form here.now) }
{
    if !is_text(TextKind::Utf8, here) {
        return Err(ScriptLineFault::Kind(ScriptKind::BadField));
    }
    let front = read_form(alloc, here)?;
    form_found(front)
}

/// The value of a result that was found by its type, else one by its form.
fn result_found<'a>(
    alloc: Global,
    here: &'a [u8],
    front: Option<ValueAndRest<'a>>,
) -> Result<(Option<Val>, &'a [u8]), ScriptLineFault>
    ensures { Gives (λ x. (x.0, x.1.now)) result (result_found here.now (found front.entry)) }
{
    match front {
        Some(ValueAndRest { value, rest }) => {
            if is_parted(rest) {
                Ok((Some(value), rest))
            } else {
                by_form(alloc, here)
            }
        }
        None => by_form(alloc, here),
    }
}

/// The value of a result, if one stands next, and what follows it: by this type, and where there is
/// none or it isn't of it by its form; else a `BadValue`. A `BadField` where no space and no end of
/// the line follows the value, or where the rest of the line isn't UTF-8.
#[tactic(auto, unfolding(crate::specs::Values::result_at))]
pub fn value_of_result<'a>(
    alloc: Global,
    types: &TypeTable,
    of: Option<TypeId>,
    text: &'a [u8],
) -> Result<(Option<Val>, &'a [u8]), ScriptLineFault>
    ensures { Gives (λ x. (x.0, x.1.now)) result (result_at types.now of text.now) }
{
    let here = after_spaces(text);
    if here.is_empty() {
        return Ok((None, here));
    }
    let front = typed(alloc, types, of, here)?;
    result_found(alloc, here, front)
}
