ghost use Rattle.std.specs.Prelude.{◌≡◌};
ghost use Rattle.fits_header.specs.Repeats.{seen_at, seen_with};

use crate::entry::Entry;

/// What a pass over sorted entries has seen of the last one's name.
#[derive(Clone, Copy)]
pub(crate) struct Seen {
    pub(crate) name: u64,
    /// Whether an entry has it.
    pub(crate) has_card: bool,
    /// Whether an entry has it and a value.
    pub(crate) has_value: bool,
}

// What it has seen of the name of the entry that comes.
pub(crate) fn seen_at(seen: Seen, entry: Entry) -> Seen
    ensures { result ≡ seen_at seen entry }
{
    if seen.name == entry.name {
        return seen;
    }
    Seen {
        name: entry.name,
        has_card: false,
        has_value: false,
    }
}

// The same with that entry.
pub(crate) fn seen_with(seen: Seen, entry: Entry) -> Seen
    ensures { result ≡ seen_with seen entry }
{
    Seen {
        name: seen.name,
        has_card: true,
        has_value: seen.has_value || entry.has_value,
    }
}
