//! Laws of the definitions, each the contract of a function that does nothing.
ghost use Rattle.std.specs.Prelude.{◌≡◌, ◌⊎◌, ◌↔◌, ◌≤◌, ◌+◌, ℕ, Bool, true, false, IsTrue, List, length, All, Option, None, Some, Ok, codes, nat_eq};
ghost use Rattle.std.specs.List.{starts_with};
ghost use Rattle.fits_card.specs.Change.{cards_after, new_cards};
ghost use Rattle.fits_card.specs.Header.{IsInnerCard};
ghost use Rattle.fits_card.specs.declared.change.Change.{Change};
ghost use Rattle.fits_plane.specs.declared.lent_paint.LentPaint.{LentPaint};
ghost use Rattle.fits_rules.specs.Image.{image_bits};
ghost use Rattle.fits_rules.specs.Shape.{shape_of};
ghost use Rattle.fits_rules.specs.declared.array_shape.Shape.{Shape};
ghost use Rattle.fits_codes.specs.declared.code.Code.{Code};
ghost use Rattle.fits_passing.specs.declared.called.ExtensionName.{ExtensionName};
ghost use Rattle.fits_passing.specs.declared.hdu_fault.HduFault.{HduFault};
ghost use Rattle.fits_image.specs.declared.kind.Kind.{Kind};
ghost use Rattle.fits_header.specs.declared.finding.Finding.{Finding};
ghost use Rattle.fits_passing.specs.Findings.{AreFindings};
ghost use Rattle.fits_passing.specs.Hdu.{HduParts, IsHdu, IsHduOf, HasHduFault, hdu_after};
ghost use Rattle.fits_image.specs.Kind.{kind_in};
ghost use Rattle.fits_laws.specs.Kinds.{IsKind};
ghost use Rattle.fits_image.specs.ImageCards.{are_axes, image_cards, image_shape};
ghost use Rattle.fits_hdu.specs.NewImage.{new_image};
ghost use Rattle.fits_hdu.specs.Pixels.{painted};
ghost use Rattle.fits_hdu.specs.Reshape.{ReshapedIsHdu, ReshapingKeepsNames, ReshapingKeepsValues, ReshapingLeavesLeads, ScalingGivesOffset, ScalingKeepsShapes};
ghost use Rattle.fits_hdu.specs.Stamp.{stamped, DatasumIsWritten, StampingKeepsNames};
ghost use Rattle.fits_passing.specs.Sums.{hdu_sum, verdicts_of};
ghost use Rattle.fits_passing.specs.declared.verdict.Verdict.TheVariants.{Right};

/// Bytes begin with one HDU at most.
pub fn one_hdu()
    ensures { (primary : Bool) (bytes : List ℕ) (a b : HduParts) (s t : List ℕ)
        → IsHduOf primary bytes a s → IsHduOf primary bytes b t → (a ≡ b) × (s ≡ t) }
{}

/// Bytes have one fault at most.
pub fn one_hdu_fault()
    ensures { (primary : Bool) (bytes : List ℕ) (a b : HduFault) → HasHduFault primary bytes a
        → HasHduFault primary bytes b → a ≡ b }
{}

/// Where an HDU stands there is no fault.
pub fn no_fault_at_an_hdu()
    ensures { (primary : Bool) (bytes : List ℕ) (hdu : HduParts) (rest : List ℕ)
        (fault : HduFault) → IsHduOf primary bytes hdu rest → HasHduFault primary bytes fault → ⊥ }
{}

/// Bytes begin with an HDU, or have a fault.
pub fn an_hdu_or_a_fault()
    ensures { (primary : Bool) (bytes : List ℕ) → ((hdu : HduParts) × (rest : List ℕ)
        × IsHduOf primary bytes hdu rest) ⊎ ((fault : HduFault) × HasHduFault primary bytes fault) }
{}

/// A primary HDU begins with `SIMPLE` and two spaces, an extension with `XTENSION`.
pub fn how_hdus_begin()
    ensures primary { (bytes : List ℕ) (hdu : HduParts) (rest : List ℕ)
        → IsHduOf true bytes hdu rest → IsTrue (starts_with nat_eq bytes (codes "SIMPLE  ")) }
    ensures extension { (bytes : List ℕ) (hdu : HduParts) (rest : List ℕ)
        → IsHduOf false bytes hdu rest → IsTrue (starts_with nat_eq bytes (codes "XTENSION")) }
{}

/// A change of cards that keeps the shape leaves an HDU, where the cards that it puts in have 80
/// bytes and none is END.
pub fn a_change_leaves_an_hdu()
    ensures { (primary : Bool) (hdu : HduParts) (change : Change) → IsHdu primary hdu
        → All IsInnerCard (new_cards change)
        → shape_of primary (cards_after hdu.header.cards change)
        ≡ shape_of primary hdu.header.cards → IsHdu primary (hdu_after change hdu) }
{}

/// A new image is an HDU.
pub fn new_images_are_hdus()
    ensures { (kind : Kind) (axes : List ℕ) → are_axes axes ≡ true
        → IsHdu false (new_image kind axes) }
{}

/// One list of findings is that of an HDU.
pub fn one_list_of_findings()
    ensures { (hdu : HduParts) (codes codes' : List Code) (found found' : List Finding)
        (name name' : Option ExtensionName) → AreFindings codes found name hdu
        → AreFindings codes' found' name' hdu → (codes ≡ codes') × (found ≡ found')
        × (name ≡ name') }
{}

/// An HDU whose pixels were painted is one: its header is the same, and its data unit as long.
pub fn painted_hdus_are_hdus()
    ensures { (primary : Bool) (shape : Shape) (hdu : HduParts) (lo hi : List ℕ) (paint : LentPaint)
        (new : HduParts) → IsHdu primary hdu → shape_of primary hdu.header.cards ≡ Ok shape
        → painted shape lo hi paint hdu ≡ Ok new → IsHdu primary new × (new.header ≡ hdu.header)
        × (length new.data_unit ≡ length hdu.data_unit) }
{}

/// A stamp leaves an HDU, of the same shape and with the same data unit, and brings two cards at
/// most.
pub fn stamped_hdus_are_hdus()
    ensures hdu { (primary : Bool) (hdu : HduParts) → IsHdu primary hdu
        → IsHdu primary (stamped hdu) }
    ensures shape { (primary : Bool) (hdu : HduParts) (shape : Shape)
        → shape_of primary hdu.header.cards ≡ Ok shape
        → shape_of primary (stamped hdu).header.cards ≡ Ok shape }
    ensures unit { (hdu : HduParts) → (stamped hdu).data_unit ≡ hdu.data_unit }
    ensures count { (hdu : HduParts) → length (stamped hdu).header.cards
        ≤ length hdu.header.cards + 2 }
{}

/// A stamped HDU sums to all ones (FITS Standard 4.0, section 4.4.2.7 and Appendix J).
pub fn stamped_hdus_sum_to_all_ones()
    ensures { (primary : Bool) (hdu : HduParts) → IsHdu primary hdu
        → hdu_sum (stamped hdu) ≡ 4294967295 }
{}

/// In a stamped HDU, DATASUM and CHECKSUM are right (FITS Standard 4.0, section 4.4.2.7).
pub fn a_stamped_hdu_is_right()
    ensures { (primary : Bool) (hdu : HduParts) → IsHdu primary hdu
        → verdicts_of (stamped hdu) ≡ record { datasum = Right; checksum = Right } }
{}

/// Setting BSCALE to 1 and BZERO to an offset keeps the shape that cards describe, and brings about no
/// other.
pub fn scalings_keep_shapes()
    ensures { ScalingKeepsShapes }
{}

/// Then pixels have that offset, and no other (FITS Standard 4.0, section 4.4.2.5).
pub fn scalings_give_their_offset()
    ensures { ScalingGivesOffset }
{}

/// An HDU that is made another array is one, of the shape that is asked for.
pub fn reshaped_hdus_are_hdus()
    ensures { ReshapedIsHdu }
{}

/// The pixels that stay have the values that they had, blank ones too; the others store 0, and zero
/// bytes stand behind them.
pub fn a_reshaped_pixel_keeps_its_value()
    ensures { ReshapingKeepsValues }
{}

/// The leads of names that are written anew on no card stay: BLANK's, and what an extension is called.
pub fn a_reshape_leaves_other_leads()
    ensures { ReshapingLeavesLeads }
{}

/// What an HDU is called stays where it is made another array (FITS Standard 4.0, section 4.4.2.6).
pub fn a_reshaped_hdu_keeps_its_name()
    ensures { ReshapingKeepsNames }
{}

/// What an HDU is called stays where it is stamped (FITS Standard 4.0, section 4.4.2.6).
pub fn a_stamped_hdu_keeps_its_name()
    ensures { StampingKeepsNames }
{}

/// The card of a sum is the one that setting DATASUM to its digits writes (FITS Standard 4.0, section
/// 4.4.2.7).
pub fn a_datasum_card_is_written()
    ensures { DatasumIsWritten }
{}
