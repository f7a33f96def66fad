//! Laws of the definitions, each the contract of a function that does nothing.
ghost use Rattle.std.specs.Prelude.{◌≡◌, ◌≤◌, ◌↔◌, ◌⊎◌, ℕ, List, length, All, AllPairs, Contains, Ok, Option, None, Some};
ghost use Rattle.fits_card.specs.Change.{cards_after, new_cards};
ghost use Rattle.fits_card.specs.Header.{IsInnerCard};
ghost use Rattle.fits_card.specs.declared.change.Change.{Change};
ghost use Rattle.fits_value.specs.declared.value.Value.{Value};
ghost use Rattle.fits_passing.specs.Hdu.{HduParts, hdu_after};
ghost use Rattle.fits_hdu.specs.Keyword.{keyword_value};
ghost use Rattle.fits_image.specs.declared.kind.Kind.{Kind};
ghost use Rattle.fits_making.specs.CardEdit.{set_of, HasCardSizes};
ghost use Rattle.fits_laws.specs.Edits.{LeavesNoMore};
ghost use Rattle.fits_session.specs.Edit.{hdu_of, with_hdu, HasSizes};
ghost use Rattle.fits_passing.specs.File.{FileParts, file_bytes, IsFile, IsFileOf};
ghost use Rattle.fits_laws.specs.Files.{HeadersTellFaults, HeadersTellFiles};
ghost use Rattle.fits_laws.specs.Fresh.{Answered, EditsInTurn, marked_after_all, fresh, Fresh, ReadsAs};
ghost use Rattle.fits_session.specs.Marked.{marked_after, marked_refusal, Marked};
ghost use Rattle.fits_laws.specs.Edits.{AreRight, UnmarkedArePlain};
ghost use Rattle.fits_passing.specs.Opening.{HasOpenFault};
ghost use Rattle.fits_laws.specs.Files.{IsFileOrNot};
ghost use Rattle.fits_session.specs.Query.{kind_in};
ghost use Rattle.fits_laws.specs.Files.{IsKindIn};
ghost use Rattle.fits_session.specs.Refusal.{refusal_of, size_refusal};
ghost use Rattle.fits_passing.specs.Report.{report_of, IsListedBefore};
ghost use Rattle.fits_laws.specs.Problems.{IsTrailing, IsWrong};
ghost use Rattle.fits_laws.specs.Sums.{IsVouched, KeptIsTheMark, OtherSumsStay, RightSumsStay};
ghost use Rattle.fits_session.specs.Session.{file_of, marked_of, SessionState};
ghost use Rattle.fits_edit.specs.declared.card_edit.CardEdit.{CardEdit};
ghost use Rattle.fits_edit.specs.declared.edit.Edit.{Edit};
ghost use Rattle.fits_edit.specs.declared.hdu_edit.HduEdit.{HduEdit};
ghost use Rattle.fits_passing.specs.declared.open_fault.OpenFault.{OpenFault};
ghost use Rattle.fits_passing.specs.declared.problem.Problem.{Problem};
ghost use Rattle.fits_making.specs.declared.refusal.Refusal.TheVariants.{Memory, TooLarge};

use crate::image::which_kind_an_image_has;

/// Bytes are one file at most.
pub fn one_file()
    ensures { (bytes : List ℕ) (f g : FileParts) → IsFileOf bytes f → IsFileOf bytes g → f ≡ g }
{}

/// Bytes have one fault at most.
pub fn one_open_fault()
    ensures { (bytes : List ℕ) (e f : OpenFault) → HasOpenFault bytes e → HasOpenFault bytes f
        → e ≡ f }
{}

/// The headers that are read of bytes are those of a file, or the bytes have the fault that was
/// found.
pub fn headers_tell_files_and_faults()
    ensures files { HeadersTellFiles }
    ensures faults { HeadersTellFaults }
{}

/// Bytes that are a file have no fault.
pub fn no_fault_where_open()
    ensures { (bytes : List ℕ) (file : FileParts) (fault : OpenFault) → IsFileOf bytes file
        → HasOpenFault bytes fault → ⊥ }
{}

/// Bytes are a file, or have a fault.
pub fn a_file_or_a_fault()
    ensures { (bytes : List ℕ) → IsFileOrNot bytes }
{}

/// An accepted edit leaves a file: the edited HDUs and the tail.
pub fn an_edited_file_is_a_file()
    ensures { (it : Marked) (edit : Edit) → HasSizes edit → IsFile it.file
        → marked_refusal it edit ≡ None → IsFile (marked_after it edit).file }
{}

/// An accepted edit leaves DATASUM and CHECKSUM right in each HDU that is kept stamped (FITS Standard
/// 4.0, section 4.4.2.7).
pub fn kept_hdus_stay_right()
    ensures { (it : Marked) (edit : Edit) → HasSizes edit → IsFile it.file → AreRight it
        → marked_refusal it edit ≡ None → AreRight (marked_after it edit) }
{}

/// What holds of right sums, and of those of HDUs that are kept stamped, holds of them after accepted
/// edits, wherever they stand then, until they are released. The cards of sums of an HDU that isn't
/// kept stay, byte for byte, until an edit stamps it or takes such a card out, puts one in or moves one. In a
/// file of which each HDU is kept whose sums vouch for it, the first is so of their sums, and the other
/// of all others.
pub fn right_sums_stay_right_and_others_as_they_are()
    ensures right { RightSumsStay }
    ensures others { OtherSumsStay }
    ensures vouched { (file : FileParts) → IsVouched file }

    // Where both sums are right in each HDU that is kept, a mark is what is said of it.
    ensures said { KeptIsTheMark }
{}

/// Edits of a session, one after another, with queries and savings anywhere between: its file, and
/// which of its HDUs are kept stamped, are those before them with the edits made that were
/// accepted, in their order, and its present bytes, read afresh, are that file and answer as it
/// does. In each HDU that is kept both sums are right.
pub fn accepted_edits_in_order()
    ensures file { (old new : SessionState) (steps : List Answered) → EditsInTurn steps old new
        → marked_of new ≡ marked_after_all (marked_of old) steps }
    ensures fresh { (old new : SessionState) (steps : List Answered)
        → All (λ step. HasSizes step.0) steps → IsFile (file_of old) → EditsInTurn steps old new
        → ReadsAs (file_bytes (file_of new)) (fresh (file_of new)) }
    ensures kept { (old new : SessionState) (steps : List Answered)
        → All (λ step. HasSizes step.0) steps → IsFile (file_of old) → AreRight (marked_of old)
        → EditsInTurn steps old new → AreRight (marked_of new) }
{
    an_edited_file_is_a_file();
    kept_hdus_stay_right();
}

/// Bytes read afresh answer in one way.
pub fn one_fresh_reading()
    ensures { (bytes : List ℕ) (a b : Fresh) → ReadsAs bytes a → ReadsAs bytes b → a ≡ b }
{
    one_file();
}

/// Which kind an HDU of a file has, in the standard's terms.
pub fn which_kind_an_hdu_has()
    ensures { (file : FileParts) (h : ℕ) (kind : Kind) → (kind_in file h ≡ Ok kind)
        ↔ IsKindIn file h kind }
{
    which_kind_an_image_has();
}

/// A keyword that was set says its value and comment.
pub fn a_set_keyword_says_its_value()
    ensures { (cards : List (List ℕ)) (name : List ℕ) (value : Value) (comment : Option (List ℕ))
        (change : Change) → length name ≡ 8 → set_of cards name value comment ≡ Ok change
        → keyword_value (cards_after cards change) name ≡ Ok (value, comment) }
{}

/// A change that leaves no more cards than there were passes no limit that the file keeps.
pub fn fewer_cards_pass_no_limit()
    ensures { (bytes : List ℕ) (file : FileParts) (h : ℕ) (hdu : HduParts) (change : Change)
        → IsFileOf bytes file → hdu_of file h ≡ Some hdu → All IsInnerCard (new_cards change)
        → length (cards_after hdu.header.cards change) ≤ length hdu.header.cards
        → size_refusal (with_hdu file h (hdu_after change)) ≡ None }
{}

/// An edit that leaves no more cards than there were, of an HDU that isn't kept stamped, is never
/// refused for the size of the file.
pub fn as_many_cards_are_never_too_large()
    ensures { (bytes : List ℕ) (file : FileParts) (h : ℕ) (edit : CardEdit)
        → IsFileOf bytes file → HasCardSizes edit → LeavesNoMore edit
        → refusal_of file (Edit.Hdu h (HduEdit.Cards edit)) ≡ Some TooLarge → ⊥ }
{}

/// The report has a problem exactly where the code is among those of the place, in the HDU as a
/// whole or in a card, or says that bytes follow the last HDU.
pub fn the_report_is_all_problems()
    ensures { (file : FileParts) (problem : Problem) → Contains (report_of file) problem
        ↔ (IsWrong file problem ⊎ IsTrailing file problem) }
{}

/// The report is in order: by HDU, by place, by the code's number. No problem stands twice.
pub fn the_report_is_in_order()
    ensures { (file : FileParts) → AllPairs IsListedBefore (report_of file) }
{}

/// No test refuses an edit for memory.
pub fn no_refusal_is_memory()
    ensures { (it : Marked) (edit : Edit) → marked_refusal it edit ≡ Some Memory → ⊥ }
{}

/// Where no HDU is kept stamped, each edit is refused, and leaves the file, as it does without marks.
pub fn unmarked_edits_are_plain()
    ensures { UnmarkedArePlain }
{}
