//! Laws of the definitions, each the contract of a function that does nothing.
ghost use Rattle.std.specs.Prelude.{◌≡◌, ◌⊎◌, ℕ, List};
ghost use Rattle.fits_card.specs.Header.{Header, IsHeaderOf, HasNoHeader};

/// Bytes begin with one header at most.
pub fn one_header()
    ensures { (bytes : List ℕ) (h i : Header) (s t : List ℕ)
        → IsHeaderOf bytes h s → IsHeaderOf bytes i t → (h ≡ i) × (s ≡ t) }
{}

/// Bytes begin with a header, or with none.
pub fn a_header_or_none()
    ensures { (bytes : List ℕ)
        → ((header : Header) × (rest : List ℕ) × IsHeaderOf bytes header rest) ⊎ HasNoHeader bytes }
{}
