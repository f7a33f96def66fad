//! Laws of the definitions, each the contract of a function that does nothing.
ghost use Rattle.std.specs.Prelude.{◌≡◌, ◌↔◌, ◌≤◌, ◌+◌, ℕ, ℤ, Bool, IsTrue, List, length, Ok, Err};
ghost use Rattle.fits_rules.specs.Class.{is_primary};
ghost use Rattle.fits_rules.specs.Denotes.{CardDenotes, LeadDenotes, card_says_number, lead_says_number};
ghost use Rattle.fits_rules.specs.SameShape.{ComparesExactly, LaterSplicesKeepShapes};
ghost use Rattle.fits_rules.specs.Shape.{shape_of, IsBounded, Describes};
ghost use Rattle.fits_rules.specs.declared.array_shape.Shape.{Shape};

/// A broken place is that of a card, or one past the last.
#[tactic(auto, using(crate::proofs::LawLemmas::laws))]
pub fn broken_places_are_near()
    ensures { (primary : Bool) (cards : List (List ℕ)) (place : ℕ)
        → shape_of primary cards ≡ Err place → (1 ≤ place) × (place ≤ length cards + 1) }
{}

/// The numbers of a shape are in their ranges.
#[tactic(auto, using(crate::proofs::LawLemmas::laws))]
pub fn shapes_are_bounded()
    ensures { (primary : Bool) (cards : List (List ℕ)) (shape : Shape)
        → shape_of primary cards ≡ Ok shape → IsBounded shape }
{}

/// The class of a shape says whether its HDU is the primary one.
#[tactic(auto, using(crate::proofs::LawLemmas::laws))]
pub fn classes_tell_the_primary_hdu()
    ensures { (primary : Bool) (cards : List (List ℕ)) (shape : Shape)
        → shape_of primary cards ≡ Ok shape → is_primary shape.class ≡ primary }
{}

/// A comparison with a shape is true exactly where a header describes it.
pub fn shapes_compare_exactly()
    ensures { ComparesExactly }
{}

/// A header has a shape exactly where it describes it, part by part.
pub fn shapes_are_described()
    ensures { (primary : Bool) (cards : List (List ℕ)) (shape : Shape)
        → (shape_of primary cards ≡ Ok shape) ↔ Describes primary cards shape }
{}

/// A splice after the last axis keeps a shape, where it neither takes nor brings GROUPS, PCOUNT or
/// GCOUNT.
pub fn later_splices_keep_shapes()
    ensures { LaterSplicesKeepShapes }
{}

/// Which numbers a card and the lead of a name denote, as functions.
pub fn which_numbers_cards_denote()
    ensures card { (card : List ℕ) (n : ℤ)
        → IsTrue (card_says_number card n) ↔ CardDenotes card n }
    ensures lead { (cards : List (List ℕ)) (name : List ℕ) (n : ℤ)
        → IsTrue (lead_says_number cards name n) ↔ LeadDenotes cards name n }
{}
