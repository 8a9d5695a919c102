//! A context put into a set, a vector of contexts by rising identifier, at its place.

ghost use Rattle.std.specs.Prelude.{◌≡◌, ◌+◌, ◌<◌, ◌≤◌, vec_len, vec_capacity};
ghost use Rattle.context_sets.specs.Sets.{put};

use osi_base::{SetItem, place_of};

/// Puts a context into a set that has room for it, in the place of one with its identifier.
pub fn put_context(items: &mut Vec<SetItem>, new: SetItem)
    requires { vec_len items.old < vec_capacity items.old }
    ensures items { items.new.items ≡ put new items.old.items }
    ensures len { vec_len items.new ≤ vec_len items.old + 1 }
    ensures capacity { vec_capacity items.new ≡ vec_capacity items.old }
{
    match place_of(items, new.id) {
        Ok(place) => items[place] = new,
        Err(place) => {
            // There is room, so this can't fail.
            let _ = items.insert(place, new);
        }
    }
}
