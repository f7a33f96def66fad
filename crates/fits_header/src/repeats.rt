//! Names that earlier cards have, by one pass over the sorted entries.
ghost use Rattle.std.specs.Prelude.{◌≡◌, ◌<◌, ℕ, List, length, slice_index_or, slice_set};
ghost use Rattle.fits_codes.specs.declared.surrounding.Surrounding.{Surrounding};
ghost use Rattle.fits_header.specs.Index.{IsIndex, IsIndexOf};
ghost use Rattle.fits_header.specs.Repeats.{marked_by};
ghost use Rattle.fits_header.specs.Surroundings.{AreRepeatsMarked};

use crate::entry::Entry;
use crate::seen::{Seen, seen_at, seen_with};
use fits_codes::Surrounding;

/// Marks at the place of each entry whether an earlier card has its name, and whether one has a
/// value too.
///
/// The entries of a name stand together, by place: what was seen of a name is all that stands
/// before.
pub(crate) fn mark_repeats(entries: &[Entry], surroundings: &mut [Surrounding])
    requires index { IsIndex entries.now }
    requires size { length surroundings.old ≡ length entries.now }
    ensures len { length surroundings.new ≡ length surroundings.old }
    ensures marked { (cards : List (List ℕ)) → IsIndexOf entries.now cards
        → AreRepeatsMarked cards surroundings.old surroundings.new }
{
    let mut seen = Seen {
        name: 0,
        has_card: false,
        has_value: false,
    };
    for index in 0..entries.len() {
        let entry = entries[index];
        let here = seen_at(seen, entry);
        mark(surroundings, entry.place - 1, here);
        seen = seen_with(here, entry);
    }
}

// Marks what was seen of a name, and leaves the link.
fn mark(surroundings: &mut [Surrounding], index: usize, seen: Seen)
    requires { index < length surroundings.old }
    ensures { (d : Surrounding) → surroundings.new ≡ slice_set surroundings.old index
        (marked_by seen (slice_index_or surroundings.old index d)) }
{
    let is_link = surroundings[index].is_link;
    surroundings[index] = Surrounding {
        name_before: seen.has_card,
        value_before: seen.has_value,
        is_link,
    };
}
