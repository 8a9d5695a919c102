//! The tag that a value must have.

ghost use Rattle.std.specs.Prelude.{◌≢◌, IfErr, ◌≡◌};
ghost use Rattle.ber_spelling.specs.Reading.{Gives, opened_of};
ghost use Rattle.ber_spelling.specs.Rules.{expect_at};
ghost use Rattle.asn1_types.specs.Tags.{tag_or};

use crate::fault::ReadFault;
use crate::fields::refusal;
use crate::spot::Opened;
use asn1_types::{Class, Tag, same_class};
use osi_base::Kind;

/// A given tag, or else this one.
#[inline(always)]
pub fn tag_or(tag: Option<Tag>, class: Class, number: u32) -> Tag
    ensures { result ≡ tag_or tag class number }
{
    match tag {
        None => Tag { class, number },
        Some(tag) => tag,
    }
}

/// Whether this identifier is of this tag and form; else a fault of kind `Tag` at its place.
#[inline(always)]
pub fn expect_tag(tag: Tag, constructed: bool, opened: &Opened) -> Result<(), ReadFault>
    ensures gives { Gives (λ x. x) result (expect_at tag constructed (opened_of opened.now)) }
    ensures no_memory { IfErr result (λ e. e ≢ ReadFault.NoMemory) }
{
    if same_class(opened.class, tag.class)
        && opened.number == tag.number as u64
        && opened.constructed == constructed
    {
        Ok(())
    } else {
        Err(refusal(opened.start.place, Kind::Tag))
    }
}
