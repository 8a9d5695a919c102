//! What sets of contexts give identifiers, and where contexts stand in them.

ghost use Rattle.std.specs.Prelude.{◌≡◌, ◌≤◌, vec_len, vec_capacity};
ghost use Rattle.std.specs.Option.{option_copied};
ghost use Rattle.osi_base.specs.SetPlaces.{pair_of, without_context, place_of};

use crate::layer_words::SetItem;
use crate::syntax::Pair;

/// The pair that the set gives an identifier (X.216 3.3.15).
pub fn pair_of(items: &[SetItem], id: u32) -> Option<&Pair>
    ensures { option_copied result ≡ pair_of items.now id }
{
    for item in items {
        if item.id == id {
            return Some(&item.pair);
        }
    }
    None
}

/// Takes the context with this identifier out of a set.
pub fn remove_context(items: &mut Vec<SetItem>, id: u32)
    ensures items { items.new.items ≡ without_context id items.old.items }
    ensures len { vec_len items.new ≤ vec_len items.old }
    ensures capacity { vec_capacity items.new ≡ vec_capacity items.old }
{
    items.retain(|item| item.id != id);
}

/// The place of the context with this identifier in a set by rising identifier, or else the place
/// where one would go.
pub fn place_of(items: &[SetItem], id: u32) -> Result<usize, usize>
    ensures { result ≡ place_of id items.now }
{
    for (place, item) in items.iter().enumerate() {
        if id < item.id {
            return Err(place);
        }
        if id == item.id {
            return Ok(place);
        }
    }
    Err(items.len())
}
