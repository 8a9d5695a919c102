//! Tests of single tokens: same names, bad ranges, sizes and tags.

ghost use Rattle.std.specs.Prelude.{◌≡◌};
ghost use Rattle.std.specs.Str.{bytes_eq};
ghost use Rattle.module_faults.specs.Places.{is_bad_range, is_bad_size, is_bad_tag};

use operation_notation::{RangeText, TagText};
use osi_base::Name;

/// Whether two names have the same octets.
pub fn is_same_name(a: &Name, b: &Name) -> bool
    ensures { result ≡ bytes_eq a.now b.now }
{
    a.as_bytes() == b.as_bytes()
}

/// Whether a range is empty: its high end is below its low end.
pub(crate) fn is_bad_range(range: &RangeText) -> bool
    ensures { result ≡ is_bad_range range.now }
{
    range.high < range.low
}

/// Whether a SIZE doesn't begin with 0, or passes 4,294,967,295.
pub(crate) fn is_bad_size(size: &RangeText) -> bool
    ensures { result ≡ is_bad_size size.now }
{
    size.low != 0 || (size.high < 0 || size.high > 4_294_967_295)
}

/// Whether a tag is UNIVERSAL 0.
pub(crate) fn is_bad_tag(tag: &TagText) -> bool
    ensures { result ≡ is_bad_tag tag.now }
{
    tag.class == 0 && tag.number == 0
}
