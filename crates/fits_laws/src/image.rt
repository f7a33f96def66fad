//! Laws of the definitions, each the contract of a function that does nothing.
ghost use Rattle.std.specs.Prelude.{◌≡◌, ◌↔◌, ◌≤◌, ℕ, true, false, List, length, None, Some, Ok};
ghost use Rattle.fits_rules.specs.Image.{image_bits};
ghost use Rattle.fits_rules.specs.Shape.{shape_of};
ghost use Rattle.fits_rules.specs.declared.array_shape.Shape.{Shape};
ghost use Rattle.fits_image.specs.ImageCards.{are_axes, image_cards, image_shape};
ghost use Rattle.fits_image.specs.Kind.{kind_in};
ghost use Rattle.fits_laws.specs.Kinds.{IsKind};
ghost use Rattle.fits_image.specs.declared.kind.Kind.{Kind};

/// The cards of a new image describe the shape that is asked for, and, where it has an axis, that
/// kind.
pub fn images_are_described()
    ensures shape { (kind : Kind) (axes : List ℕ) → are_axes axes ≡ true
        → shape_of false (image_cards kind axes) ≡ Ok (image_shape kind axes) }
    ensures kind { (kind : Kind) (axes : List ℕ) → are_axes axes ≡ true → 1 ≤ length axes
        → kind_in (image_shape kind axes) (image_cards kind axes) ≡ Some kind }
{}

/// An image has one kind.
pub fn one_kind()
    ensures { (shape : Shape) (cards : List (List ℕ)) (k j : Kind) → IsKind shape cards k
        → IsKind shape cards j → k ≡ j }
{}

/// Which kind an image has, as a function.
pub fn which_kind_an_image_has()
    ensures kind { (shape : Shape) (cards : List (List ℕ)) (kind : Kind)
        → IsKind shape cards kind ↔ (kind_in shape cards ≡ Some kind) }
    ensures none { (shape : Shape) (cards : List (List ℕ))
        → (kind_in shape cards ≡ None) ↔ (image_bits shape ≡ None) }
{}
