//! Laws of bounded work, each the contract of a function that does nothing: how much the edits and
//! queries of a session do at most, by what they touch, beside the exact counts of `specs/Work`.
ghost use Rattle.std.specs.Prelude.{◌≡◌, ◌<◌, ◌≤◌, ◌+◌, ◌-◌, ◌*◌, ◌^◌, ℕ, ℤ, Bool, true, false, List, get_or, length, map, max, Option, Err, Ok, Result, Some};
ghost use Rattle.std.specs.List.{remove};
ghost use Rattle.fits_pixels.specs.Layout.{block_count};
ghost use Rattle.fits_plane.specs.Work.{rectangle_blocks};
ghost use Rattle.fits_rules.specs.Lead.{lead_place};
ghost use Rattle.fits_rules.specs.Shape.{shape_of};
ghost use Rattle.fits_rules.specs.declared.array_shape.Shape.{Shape};
ghost use Rattle.fits_value.specs.Says.{chain_length};
ghost use Rattle.fits_passing.specs.Hdu.{HduParts};
ghost use Rattle.fits_passing.specs.Layout.{layout_of};
ghost use Rattle.fits_hdu.specs.State.{HduState};
ghost use Rattle.fits_image.specs.Kind.{array_kind};
ghost use Rattle.fits_image.specs.declared.kind.Kind.{Kind};
ghost use Rattle.fits_hdu.specs.Reshape.{kept_count};
ghost use Rattle.fits_hdu.specs.Work.{keyword_reads, plane_work, FollowsBlank, IsOpened, IsRenewed, PixelWork};
ghost use Rattle.fits_laws.specs.Bounds.{mandatory_count, most_reads, moved_count, reshaped_count, stamped_count};
ghost use Rattle.fits_laws.specs.Bounds.{unworked, NoneFalls, OthersStay, SameCounts, ScansUpTo, WorksUpTo};
ghost use Rattle.fits_making.specs.CardEdit.{change_of};
ghost use Rattle.fits_session.specs.Edit.{hdu_edited};
ghost use Rattle.fits_making.specs.Making.{unread, HduWork};
ghost use Rattle.fits_session.specs.Session.{without_entries, works_of, Asks, AsksPixels, EditsTo, PutsIn, ReadsOnceAtMost};
ghost use Rattle.fits_session.specs.Session.{SessionState};
ghost use Rattle.fits_session.specs.Work.{reads_in_all};
ghost use Rattle.fits_edit.specs.declared.card_edit.CardEdit.{CardEdit};
ghost use Rattle.fits_edit.specs.declared.edit.Edit.{Edit};
ghost use Rattle.fits_edit.specs.declared.hdu_edit.HduEdit.{HduEdit};
ghost use Rattle.fits_edit.specs.declared.paint.Paint.{Paint};
ghost use Rattle.fits_making.specs.declared.refusal.Refusal.{Refusal};

/// An edit of cards, or a stamp, reads cards of its HDU alone, at most four for each mandatory one,
/// four for each that it takes out or puts in, and 64; it scans no block, or each of its data unit
/// once where the number that BLANK names changes.
pub fn edits_of_cards_read_few()
    ensures cards { (primary : Bool) (hdu : HduParts) (shape : Shape) (edit : CardEdit)
        → shape_of primary hdu.header.cards ≡ Ok shape
        → reads_in_all false primary (HduEdit.Cards edit) hdu
        ≤ most_reads (mandatory_count shape) (moved_count (change_of hdu.header.cards edit)) }
    ensures cards_closer { (primary : Bool) (hdu : HduParts) (shape : Shape) (edit : CardEdit)
        → shape_of primary hdu.header.cards ≡ Ok shape
        → reads_in_all false primary (HduEdit.Cards edit) hdu
        ≤ mandatory_count shape + moved_count (change_of hdu.header.cards edit) + 16 }
    ensures stamp { (primary : Bool) (hdu : HduParts) (shape : Shape)
        → shape_of primary hdu.header.cards ≡ Ok shape
        → reads_in_all false primary HduEdit.Stamp hdu
        ≤ 3 * most_reads (mandatory_count shape) (stamped_count hdu.header.cards) }
    ensures stamp_closer { (primary : Bool) (hdu : HduParts)
        → reads_in_all false primary HduEdit.Stamp hdu ≤ 2 * stamped_count hdu.header.cards + 32 }

    // The stamp that follows an edit of an HDU that is kept adds its own reads, and no other work.
    ensures kept { (primary : Bool) (edit : HduEdit) (hdu : HduParts)
        → reads_in_all true primary edit hdu ≤ reads_in_all false primary edit hdu
        + (stamped_count (hdu_edited primary edit hdu).header.cards + 29) }
    ensures scans { (primary : Bool) (hdu : HduParts) (edit : CardEdit) (old new : PixelWork)
        (d : ℕ) → block_count hdu.data_unit ≤ 2 ^ d
        → HduWork primary (HduEdit.Cards edit) hdu old new
        → WorksUpTo (block_count hdu.data_unit) (2 * 2 ^ d) old new }
    ensures stamp_scans { (primary : Bool) (hdu : HduParts) (old new : PixelWork) (d : ℕ)
        → block_count hdu.data_unit ≤ 2 ^ d → HduWork primary HduEdit.Stamp hdu old new
        → WorksUpTo (block_count hdu.data_unit) (2 * 2 ^ d) old new }
    ensures still { (number : Option ℤ) (blocks : ℕ) (old new : PixelWork)
        → FollowsBlank number number blocks old new → new ≡ old }
    ensures others { (h : ℕ) (edit : HduEdit) (old new : SessionState)
        (result : Result (Unit {0}) Refusal) → EditsTo (Edit.Hdu h edit) old new result
        → OthersStay h old.hdus new.hdus }
    ensures grows { (h : ℕ) (edit : HduEdit) (old new : SessionState)
        (result : Result (Unit {0}) Refusal) → EditsTo (Edit.Hdu h edit) old new result
        → NoneFalls old.hdus new.hdus }
{}

/// An edit of pixels reads no card and no pixel, and scans at most the blocks that hold a byte of
/// its rectangle; one that is refused does no work, nor does any other that is no reshape.
pub fn edits_of_pixels_scan_few()
    ensures cards { (primary : Bool) (hdu : HduParts) (lo hi : List ℕ) (paint : Paint)
        → reads_in_all false primary (HduEdit.Pixels lo hi paint) hdu ≡ 0 }
    ensures scans { (primary : Bool) (hdu : HduParts) (shape : Shape) (lo hi : List ℕ)
        (paint : Paint) (old new : PixelWork) (d : ℕ)
        → shape_of primary hdu.header.cards ≡ Ok shape → block_count hdu.data_unit ≤ 2 ^ d
        → HduWork primary (HduEdit.Pixels lo hi paint) hdu old new
        → ScansUpTo
        (rectangle_blocks (layout_of shape hdu.header.cards) hdu.data_unit shape.axes lo hi) d
        old new }

    // Of a data unit of two blocks it scans two and joins four nodes at most.
    ensures two_blocks { (primary : Bool) (hdu : HduParts) (shape : Shape) (lo hi : List ℕ)
        (paint : Paint) (old new : PixelWork) → shape_of primary hdu.header.cards ≡ Ok shape
        → block_count hdu.data_unit ≡ 2 → HduWork primary (HduEdit.Pixels lo hi paint) hdu old new
        → WorksUpTo 2 4 old new }
    ensures refused { (edit : Edit) (old new : SessionState) (why : Refusal)
        → EditsTo {X = Unit {0}} edit old new (Err why)
        → ((h : ℕ) (kind : Kind) (axes : List ℕ) → edit ≡ Edit.Hdu h (HduEdit.Reshape kind axes) → ⊥)
        → works_of new.hdus ≡ works_of old.hdus }
{}

/// A reshape reads cards of its HDU alone, three times as many at most as an edit of cards that
/// takes out and puts in as many; it reads each pixel that stays once at most, and scans each block
/// of the new data unit once at most, with a join for each node above them. One that is refused
/// scans none.
pub fn reshapes_work_little()
    ensures cards { (primary : Bool) (hdu : HduParts) (shape : Shape) (kind : Kind) (axes : List ℕ)
        → shape_of primary hdu.header.cards ≡ Ok shape
        → reads_in_all false primary (HduEdit.Reshape kind axes) hdu
        ≤ 3 * most_reads (max (mandatory_count shape) (3 + length axes))
        (reshaped_count (array_kind shape hdu.header.cards) kind axes shape hdu.header.cards) }
    ensures cards_closer { (primary : Bool) (hdu : HduParts) (shape : Shape) (kind : Kind)
        (axes : List ℕ) → shape_of primary hdu.header.cards ≡ Ok shape
        → reads_in_all false primary (HduEdit.Reshape kind axes) hdu ≤ length axes + 2 * reshaped_count
        (array_kind shape hdu.header.cards) kind axes shape hdu.header.cards + 32 }
    ensures pixels { (primary : Bool) (hdu : HduParts) (shape : Shape) (kind : Kind)
        (axes : List ℕ) (old new : PixelWork) → shape_of primary hdu.header.cards ≡ Ok shape
        → HduWork primary (HduEdit.Reshape kind axes) hdu old new
        → IsRenewed (kept_count shape.axes axes)
        (block_count (hdu_edited primary (HduEdit.Reshape kind axes) hdu).data_unit) old new }
    ensures refused { (h : ℕ) (kind : Kind) (axes : List ℕ) (old new : SessionState) (why : Refusal)
        → EditsTo {X = Unit {0}} (Edit.Hdu h (HduEdit.Reshape kind axes)) old new (Err why)
        → map unread (works_of new.hdus) ≡ map unread (works_of old.hdus) }
{}

/// Where an HDU is put in or goes, every other one keeps its counts, and a new one begins with one
/// scan of each block of its data unit at most, and no pixel read.
pub fn edits_of_the_list_keep_counts()
    ensures before { (h : ℕ) (before after : List HduState) (i : ℕ) (none : HduState)
        → PutsIn h before after → h ≤ length before + 1 → i + 1 < h
        → get_or after i none ≡ get_or before i none }
    ensures behind { (h : ℕ) (before after : List HduState) (i : ℕ) (none : HduState)
        → PutsIn h before after → 1 ≤ h → h ≤ length before + 1 → h ≤ i + 1
        → get_or after (i + 1) none ≡ get_or before i none }
    ensures new { (h : ℕ) (before after : List HduState) (d : ℕ) (p : PutsIn h before after)
        → block_count p.one.plane.bytes ≤ 2 ^ d
        → WorksUpTo (block_count p.one.plane.bytes) (2 * 2 ^ d) unworked (plane_work p.one.plane) }
    ensures gone_before { (h : ℕ) (before after : List HduState) (i : ℕ)
        → without_entries after ≡ remove (without_entries before) (h - 1) → i + 1 < h
        → SameCounts i i before after }
    ensures gone_behind { (h : ℕ) (before after : List HduState) (i : ℕ)
        → without_entries after ≡ remove (without_entries before) (h - 1) → h ≤ i + 1
        → SameCounts (i + 1) i before after }
{}

/// An HDU that is opened begins with one scan of each block of its data unit, and no pixel read; a
/// query or a saving lets no count fall, and those of the HDUs that a query doesn't name stay.
pub fn openings_and_queries_work_little()
    ensures opened { (more : ℕ) (hdu : HduState) (d : ℕ) → IsOpened more hdu
        → block_count hdu.plane.bytes ≤ 2 ^ d
        → WorksUpTo (block_count hdu.plane.bytes) (2 * 2 ^ d) unworked (plane_work hdu.plane) }
    ensures value { (cards : List (List ℕ)) (name : List ℕ) (place : ℕ)
        → lead_place cards name ≡ Some place
        → keyword_reads cards name ≤ 2 * chain_length cards place + 2 }
    ensures asks { (h most : ℕ) (old new : SessionState) → Asks h most old new
        → NoneFalls old.hdus new.hdus × OthersStay h old.hdus new.hdus }
    ensures asks_pixels { (h count : ℕ) (old new : SessionState) → AsksPixels h count old new
        → NoneFalls old.hdus new.hdus × OthersStay h old.hdus new.hdus }
    ensures saves { (before after : List HduState) → ReadsOnceAtMost before after
        → NoneFalls before after }
{}
