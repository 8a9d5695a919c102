//! Transfer syntaxes and object identifiers in a line.

ghost use Rattle.std.specs.Prelude.{◌≡◌, ◌-◌, [], length, IfOk};
ghost use Rattle.std.specs.Option.{option_map};
ghost use Rattle.osi_base.specs.Syntax.{name_of};
ghost use Rattle.value_reading.specs.Found.{found};
ghost use Rattle.script_lines.specs.Reading.{Gives, or_kind};
ghost use Rattle.script_lines.specs.Syntaxes.{identifier_found, found_or, identifier_here, object_identifier_at, arcs_of_word, begins_braced, word_syntax, syntax_at, are_over, more_syntaxes, syntaxes_at};

use crate::fault::ScriptKind;
use crate::fields::{field, is_next, is_over, is_parted};
use crate::line_fault::ScriptLineFault;
use asn1_types::{Node, TextKind, Val, is_text};
use osi_base::{ListOf, Oid, Oids, Syntax};
use std::alloc::Global;
use value_reading::{ValueAndRest, after_spaces, read_form};

/// Before what a list of syntaxes ends, besides the end of its line.
#[derive(Clone, Copy, Debug, PartialEq, Eq)]
pub enum EndsBefore {
    /// Before nothing else.
    Nothing,
    /// Before the words `add` and `delete` of an alteration.
    AddOrDelete,
}

/// The object identifier that a value is, where it is parted from what follows it.
fn identifier_found(
    value: Val,
    rest: &[u8],
    kind: ScriptKind,
) -> Result<(Oid, &[u8]), ScriptLineFault>
    ensures { Gives (λ x. (x.0, x.1.now)) result (identifier_found kind value rest.now) }
{
    match value.node {
        Node::ObjectId(name) if is_parted(rest) => Ok((name, rest)),
        _ => Err(ScriptLineFault::Kind(kind)),
    }
}

/// The object identifier that a value found is.
fn found_or(
    front: Option<ValueAndRest<'_>>,
    kind: ScriptKind,
) -> Result<(Oid, &[u8]), ScriptLineFault>
    ensures { Gives (λ x. (x.0, x.1.now)) result (found_or kind (found front.entry)) }
{
    match front {
        Some(ValueAndRest { value, rest }) => identifier_found(value, rest, kind),
        None => Err(ScriptLineFault::Kind(kind)),
    }
}

/// The object identifier that stands next, as `{2 999 1}`, and what follows it; else a fault of
/// this kind, or `BadField` where the rest of the line isn't UTF-8.
#[tactic(auto, unfolding(crate::specs::Syntaxes::object_identifier_at))]
pub fn object_identifier(
    alloc: Global,
    text: &[u8],
    kind: ScriptKind,
) -> Result<(Oid, &[u8]), ScriptLineFault>
    ensures { Gives (λ x. (x.0, x.1.now)) result (object_identifier_at kind text.now) }
{
    let here = after_spaces(text);
    if !is_text(TextKind::Utf8, here) {
        return Err(ScriptLineFault::Kind(ScriptKind::BadField));
    }
    let front = read_form(alloc, here)?;
    found_or(front, kind)
}

/// The syntax that a word names.
fn syntax_of_word(word: &[u8]) -> Option<Syntax>
    ensures { option_map (λ s. name_of s) result ≡ arcs_of_word word.now }
{
    if word == b"ber".as_slice() {
        Some(Syntax::Ber)
    } else if word == b"der".as_slice() {
        Some(Syntax::Der)
    } else if word == b"packed".as_slice() {
        Some(Syntax::Packed)
    } else {
        None
    }
}

fn begins_braced(text: &[u8]) -> bool
    ensures { result ≡ begins_braced text.now }
{
    match text {
        [first, ..] => *first == b'{',
        [] => false,
    }
}

/// The name of the syntax that a word names.
fn word_name(alloc: Global, word: &[u8]) -> Result<Oid, ScriptLineFault>
    ensures { Gives (λ x. x) result (or_kind ScriptKind.BadName (arcs_of_word word.now)) }
{
    match syntax_of_word(word) {
        Some(syntax) => Ok(syntax.name(alloc)?),
        None => Err(ScriptLineFault::Kind(ScriptKind::BadName)),
    }
}

fn word_syntax(alloc: Global, text: &[u8]) -> Result<(Oid, &[u8]), ScriptLineFault>
    ensures { Gives (λ x. (x.0, x.1.now)) result (word_syntax text.now) }
{
    let (word, rest) = field(text)?;
    let name = word_name(alloc, word)?;
    Ok((name, rest))
}

/// The transfer syntax that stands next: a word, or an object identifier.
#[tactic(auto, unfolding(crate::specs::Syntaxes::syntax_at))]
fn syntax(alloc: Global, text: &[u8]) -> Result<(Oid, &[u8]), ScriptLineFault>
    ensures { Gives (λ x. (x.0, x.1.now)) result (syntax_at text.now) }
{
    if begins_braced(after_spaces(text)) {
        object_identifier(alloc, text, ScriptKind::BadName)
    } else {
        word_syntax(alloc, text)
    }
}

/// Whether a list of syntaxes ends here.
fn are_over(before: EndsBefore, text: &[u8]) -> bool
    ensures { result ≡ are_over before text.now }
{
    match before {
        EndsBefore::Nothing => is_over(text),
        EndsBefore::AddOrDelete => is_over(text) || is_next("add", text) || is_next("delete", text),
    }
}

/// The syntaxes up to the end of their list.
#[tactic(auto, using(crate::proofs::Turns::syntaxes_end, crate::proofs::Turns::syntaxes_more, crate::proofs::Turns::syntaxes_bad, crate::proofs::Turns::syntaxes_over))]
fn more_syntaxes(
    alloc: Global,
    before: EndsBefore,
    text: &[u8],
) -> Result<(Oids, &[u8]), ScriptLineFault>
    ensures { Gives (λ x. (x.0, x.1.now)) result
        (more_syntaxes before (length text.now) [] text.now) }
{
    let mut names = ListOf::new(alloc);
    let mut rest = text;
    for _turn in 0..text.len() {
        if are_over(before, rest) {
            return Ok((names, rest));
        }
        let (name, after) = syntax(alloc, rest)?;
        names.push(name)?;
        rest = after;
    }
    Ok((names, rest))
}

/// The transfer syntaxes that stand next, one or more, and what follows them: each is `ber`, `der`,
/// `packed` or an object identifier. An unknown word or a malformed object identifier is a
/// `BadName`; none at all is a `BadField`, and so is what isn't UTF-8.
#[tactic(auto, unfolding(crate::specs::Syntaxes::syntaxes_at))]
pub fn syntaxes(
    alloc: Global,
    before: EndsBefore,
    text: &[u8],
) -> Result<(Oids, &[u8]), ScriptLineFault>
    ensures { Gives (λ x. (x.0, x.1.now)) result (syntaxes_at before text.now) }
{
    if are_over(before, text) {
        return Err(ScriptLineFault::Kind(ScriptKind::BadField));
    }
    more_syntaxes(alloc, before, text)
}
