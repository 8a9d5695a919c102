//! What is said of the content of a value.

ghost use Rattle.std.specs.Prelude.{◌≡◌, ◌++◌, IfOk, OnOk};
ghost use Rattle.osi_base.specs.declared.presentation_word.PdvContent.TheVariants as contents;
ghost use Rattle.trace_values.specs.Heads.{head_told};
ghost use Rattle.trace_values.specs.Values.{counted, words_or, HeadOf, IsContentText, Puts};

use crate::head::put_head;
use apdu_codec::{HeadFault, Heads};
use apdu_spelling::ApduHead;
use osi_base::{NoMemory, Octets, PdvContent, Syntax};
use std::alloc::Global;
use stub_tables::Tables;
use value_text::Text;

/// A value of so many octets.
fn put_count(text: &mut Text, octets: &Octets) -> Result<(), NoMemory>
    ensures { OnOk result (text.new ≡ text.old ++ counted octets.now) }
{
    text.put("value ")?;
    text.put_number(octets.len() as u64)
}

/// The head that octets spell in BER, where they spell one.
fn head_of(alloc: Global, heads: &Heads, octets: &Octets) -> Result<Option<ApduHead>, NoMemory>
    ensures { IfOk result (HeadOf octets.now) }
{
    match heads.read(alloc, Syntax::Ber, octets.as_slice()) {
        Ok(head) => Ok(Some(head)),
        Err(HeadFault::General(_)) => Ok(None),
        Err(HeadFault::BadReject) => Ok(None),
        Err(HeadFault::NoMemory) => Err(NoMemory),
    }
}

/// What is told of a head, or how many octets it has.
fn put_head_or_count(
    tables: &Tables,
    text: &mut Text,
    head: &ApduHead,
    octets: &Octets,
) -> Result<(), NoMemory>
    ensures { OnOk result (text.new ≡ text.old ++ words_or octets.now
        (head_told tables.now head.now)) }
{
    if put_head(text, tables, head)? {
        return Ok(());
    }
    put_count(text, octets)?;
    Ok(())
}

#[tactic(auto, using(crate::proofs::ValueLaws::puts_none, crate::proofs::ValueLaws::puts_some))]
fn put_value(
    alloc: Global,
    heads: &Heads,
    tables: &Tables,
    text: &mut Text,
    octets: &Octets,
) -> Result<(), NoMemory>
    ensures { OnOk result (Puts (IsContentText tables.now (contents.SingleAsn1Type octets.now))
        text.old text.new) }
{
    match head_of(alloc, heads, octets)? {
        None => {
            put_count(text, octets)?;
            Ok(())
        }
        Some(head) => {
            put_head_or_count(tables, text, &head, octets)?;
            Ok(())
        }
    }
}

/// Puts what is said of a content behind the text.
pub(crate) fn put_content(
    alloc: Global,
    heads: &Heads,
    tables: &Tables,
    text: &mut Text,
    content: &PdvContent,
) -> Result<(), NoMemory>
    ensures { OnOk result (Puts (IsContentText tables.now content.now) text.old text.new) }
{
    match content {
        PdvContent::SingleAsn1Type(octets) => put_value(alloc, heads, tables, text, octets),
        PdvContent::OctetAligned(octets) => put_count(text, octets),
        PdvContent::Arbitrary(bits) => put_count(text, &bits.octets),
    }
}
