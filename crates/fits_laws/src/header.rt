//! Laws of the definitions, each the contract of a function that does nothing.
ghost use Rattle.std.specs.Prelude.{◌≡◌, ◌↔◌, ◌-◌, ◌<◌, ◌≤◌, ℕ, List, All, IsTrue, false, slice_index_or};
ghost use Rattle.fits_card.specs.Card.{keyword_name};
ghost use Rattle.fits_value.specs.Says.{IsLink};
ghost use Rattle.fits_header.specs.Links.{header_links};
ghost use Rattle.fits_header.specs.Names.{AreNamesOf, IsName, header_names, is_before, name_number};

/// A name is before another exactly where its number is smaller.
pub fn numbers_keep_the_order()
    ensures { (name other : List ℕ) → IsName name → IsName other
        → IsTrue (is_before name other) ↔ (name_number name < name_number other) }
{}

/// Names of one number are one name.
pub fn numbers_tell_names_apart()
    ensures { (name other : List ℕ) → IsName name → IsName other
        → (name ≡ other) ↔ (name_number name ≡ name_number other) }
{}

/// The links of a header are the cards that go on with a long string, and no others.
pub fn links_are_those_of_chains()
    ensures { (cards : List (List ℕ)) (place : ℕ) → 1 ≤ place
        → IsTrue (slice_index_or (header_links cards) (place - 1) false) ↔ IsLink cards place }
{}

/// The names of a header ascend, each once, and are exactly those of its cards.
pub fn names_are_those_of_the_cards()
    ensures { (cards : List (List ℕ)) → All (λ card. IsName (keyword_name card)) cards
        → AreNamesOf (header_names cards) cards }
{}
