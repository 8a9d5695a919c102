//! The fields of a line, from the left.

ghost use Rattle.std.specs.Prelude.{◌≡◌, ◌≤◌, ◌<◌, length, take, drop, IfOk, bytes_eq};
ghost use Rattle.value_text.specs.Numbers.{number_of, identifier_of};
ghost use Rattle.value_reading.specs.Words.{len_to, after_spaces};
ghost use Rattle.script_lines.specs.Reading.{Gives, or_kind};
ghost use Rattle.script_lines.specs.Fields.{is_empty, is_over, up_to_space, from_space, is_next, skip, field_here, field_at, number_at, identifier_at, if_over, is_parted};

use crate::fault::ScriptKind;
use crate::line_fault::ScriptLineFault;
use asn1_types::{TextKind, is_text};
use value_reading::{after_spaces, len_to};

/// Whether no field is left.
pub fn is_over(text: &[u8]) -> bool
    ensures { result ≡ is_over text.now }
{
    after_spaces(text).is_empty()
}

/// The octets up to the next space.
fn up_to_space(text: &[u8]) -> &[u8]
    ensures { result.now ≡ up_to_space text.now }
{
    &text[..len_to(text, b' ')]
}

/// The octets from the next space on.
fn from_space(text: &[u8]) -> &[u8]
    ensures { result.now ≡ from_space text.now }
{
    &text[len_to(text, b' ')..]
}

/// Whether the next field is this word.
pub fn is_next(word: &str, text: &[u8]) -> bool
    ensures { result ≡ is_next word.now text.now }
{
    up_to_space(after_spaces(text)) == word.as_bytes()
}

/// What follows the next field.
pub fn after_field(text: &[u8]) -> &[u8]
    ensures { result.now ≡ skip text.now }
{
    from_space(after_spaces(text))
}

/// The next field and what follows it: refused as `BadField` where none is left, or one that isn't
/// UTF-8.
#[tactic(auto, unfolding(crate::specs::Fields::field_at))]
pub fn field(text: &[u8]) -> Result<(&[u8], &[u8]), ScriptLineFault>
    ensures { Gives (λ x. (x.0.now, x.1.now)) result (field_at text.now) }
{
    let here = after_spaces(text);
    if here.is_empty() {
        return Err(ScriptLineFault::Kind(ScriptKind::BadField));
    }
    let field = up_to_space(here);
    if !is_text(TextKind::Utf8, field) {
        return Err(ScriptLineFault::Kind(ScriptKind::BadField));
    }
    Ok((field, from_space(here)))
}

/// The number that a field is.
fn number_of(field: &[u8]) -> Result<u32, ScriptLineFault>
    ensures { Gives (λ x. x) result (or_kind ScriptKind.BadNumber (number_of field.now)) }
{
    match value_text::decimal_number(field) {
        Some(number) => Ok(number),
        None => Err(ScriptLineFault::Kind(ScriptKind::BadNumber)),
    }
}

/// The identifier that a field is.
fn identifier_of(field: &[u8]) -> Result<i64, ScriptLineFault>
    ensures { Gives (λ x. x) result (or_kind ScriptKind.BadNumber (identifier_of field.now)) }
{
    match value_text::invocation_identifier(field) {
        Some(id) => Ok(id),
        None => Err(ScriptLineFault::Kind(ScriptKind::BadNumber)),
    }
}

/// The number of 32 bits that the next field is, and what follows it.
#[tactic(auto, unfolding(crate::specs::Fields::number_at))]
pub fn number_field(text: &[u8]) -> Result<(u32, &[u8]), ScriptLineFault>
    ensures { Gives (λ x. (x.0, x.1.now)) result (number_at text.now) }
{
    let (field, rest) = field(text)?;
    let number = number_of(field)?;
    Ok((number, rest))
}

/// The identifier of an invocation that the next field is, and what follows it.
#[tactic(auto, unfolding(crate::specs::Fields::identifier_at))]
pub fn identifier_field(text: &[u8]) -> Result<(i64, &[u8]), ScriptLineFault>
    ensures { Gives (λ x. (x.0, x.1.now)) result (identifier_at text.now) }
{
    let (field, rest) = field(text)?;
    let id = identifier_of(field)?;
    Ok((id, rest))
}

/// What was read, where no field is left behind it.
pub fn at_line_end<T: Drop>(value: T, text: &[u8]) -> Result<T, ScriptLineFault>
    ensures { Gives (λ x. x) result (if_over value text.now) }
{
    if is_over(text) {
        Ok(value)
    } else {
        Err(ScriptLineFault::Kind(ScriptKind::BadField))
    }
}

/// Whether what follows a value is parted from it: by a space, or as nothing follows.
pub(crate) fn is_parted(text: &[u8]) -> bool
    ensures { result ≡ is_parted text.now }
{
    match text {
        [first, ..] => *first == b' ',
        [] => true,
    }
}
