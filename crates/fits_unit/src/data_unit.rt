ghost use Rattle.std.specs.Prelude.{◌≡◌, ◌≤◌, ◌<◌, ◌+◌, ◌*◌, ◌^◌, true, false, ℕ, List, Some, length, min, IfErr, IfOk, IsOk, IsTrue, OnErr, OnOk};
ghost use Rattle.fits_stream.specs.Agree.{IsOf, ReadsOn};
ghost use Rattle.fits_sum.specs.Words.{word_total};
ghost use Rattle.fits_pixels.specs.Layout.{block_count};
ghost use Rattle.fits_plane.specs.Rectangle.{product, IsRectangle};
ghost use Rattle.fits_pieces.specs.Piece.{pieces_in};
ghost use Rattle.fits_unit.specs.Again.{Follows, LoadCounts, ReadsRest};
ghost use Rattle.fits_pieces.specs.Pieces.{away_blocks};
ghost use Rattle.fits_stream.specs.Stream.{Prints};
ghost use Rattle.fits_unit.specs.Again.{CopiesUnit, CopyCounts, CopyFails, CopyWrites, HasTotal, Looks, PrintsAs};
ghost use Rattle.fits_unit.specs.DataUnit.{absence_of, absent_plane, away_at, away_plane, is_passed, lies_at, part_at, passed_blank, unit_at, Lies, LiesIn};
ghost use Rattle.fits_unit.specs.Part.{away_pieces, CanBePart};

use crate::absent::Absent;
use crate::again::{CopyFault, LoadFault, copy_again, pass_again, read_again};
use crate::away_at::AwayAt;
use crate::away_unit::AwayUnit;
use crate::part_load::part_of_file;
use crate::part_unit::PartUnit;
use fits_pieces::{PIECE_LEN, PieceWork};
use fits_pixels::{Layout, ValueSummary};
use fits_plane::{Painting, Plane, PlaneRoom, rectangle_len};
use fits_stream::{ReadLog, Sink, Stored};
use std::alloc::{AllocError, Global};
use std::marker::Model;

/// A unit of so many bytes or fewer is loaded whole.
const WHOLE_LEN: usize = 64 * PIECE_LEN;

/// A data unit: in memory, or known by what was found as its bytes passed by, with some pieces in
/// memory or none, or unread so far.
///
/// Contracts see its bytes all the same, how they are read, the work on them so far, and where it
/// lies, if not all of it is in memory. Of one that is unread they see zeros.
#[derive(Drop)]
pub struct DataUnit {
    // Of a unit of which not all is in memory it has no bytes.
    plane: Plane,
    absent: Option<Absent>,
}

impl Model for DataUnit {
    ghost use Rattle.fits_unit.specs.DataUnit.{absence_of, plane_of, UnitState};

    ghost Value = { UnitState };

    ghost view = { λ it. record {
      plane = plane_of it.plane it.absent;
      absent = absence_of it.absent;
    } };
}

impl DataUnit {
    ghost use Rattle.std.specs.Prelude.{◌≡◌, ◌≤◌, ◌<◌, ◌*◌, ◌+◌, ◌%◌, ◌-ℤ◌, ◌^◌, ◌↔◌, ℕ, List, true, None, Some, drop, length, nat_eq, unsigned_abs, All, IsTrue, IfOk, IfErr, IfSome, IsOk, IsSomeAnd, OnOk, OnErr};
    ghost use Rattle.std.specs.List.{list_all};
    ghost use Rattle.std.specs.Option.{option_map};
    ghost use Rattle.fits_stream.specs.Agree.{IsOf, ReadsOn};
    ghost use Rattle.fits_stream.specs.Stream.{Prints, PrintsFront};
    ghost use Rattle.fits_sum.specs.Words.{word_total};
    ghost use Rattle.fits_pixels.specs.Statistics.{value_statistics};
    ghost use Rattle.fits_pixels.specs.Pixels.{pixels, IsWidth};
    ghost use Rattle.fits_pixels.specs.Layout.{IsLayout, block_count, block_pixels};
    ghost use Rattle.fits_plane.specs.Converting.{can_store_run, kept_numbers, run_made};
    ghost use Rattle.fits_plane.specs.Painting.{Paints, Suits};
    ghost use Rattle.fits_plane.specs.Rectangle.{IsRectangle, product, rectangle_size, rectangle_values};
    ghost use Rattle.fits_unit.specs.Again.{copied_blocks, CopiesUnit, CopyCounts, CopyFails, CopyWrites, Follows, HasTotal, LoadCounts, Looks, PrintsAs, ReadsRest};
    ghost use Rattle.fits_unit.specs.DataUnit.{away_at, away_plane, opened_blocks, place_of, unit_at, HasRectangle, IsAway, IsCounted, IsKnown, LiesIn};
    ghost use Rattle.fits_unit.specs.Part.{BeginsPart, CanBePart, LoadsMore, LoadsSome};

    /// A data unit in memory.
    pub fn held(plane: Plane) -> DataUnit
        ensures { result ≡ record { plane = plane; absent = None } }
    {
        DataUnit {
            plane,
            absent: None,
        }
    }

    /// A data unit that passed by, or that is unread, and lies at this place of a file.
    pub fn away(alloc: Global, unit: AwayUnit, place: u64) -> Result<DataUnit, AllocError>
        ensures plane { IfOk result (λ it. it.plane ≡ away_plane unit) }
        ensures absent { IfOk result (λ it. it.absent ≡ Some (away_at place unit)) }
        ensures scans { IfOk result (λ it. it.plane.scans
            ≡ opened_blocks it.plane.bytes it.absent) }
    {
        let _scanned = unit.layout();
        Ok(DataUnit {
            plane: Plane::away(alloc)?,
            absent: Some(Absent::Away(AwayAt { unit, place })),
        })
    }

    /// Whether all of it is in memory.
    pub fn is_held(&self) -> bool
        ensures { IsTrue result ↔ self.now.absent ≡ None }
    {
        self.absent.is_none()
    }

    /// Whether its bytes are known: it is in memory, or they passed by.
    pub fn is_known(&self) -> bool
        ensures { IsTrue result ↔ IsKnown self.now.absent }
    {
        match &self.absent {
            None => true,
            Some(it) => it.is_known(),
        }
    }

    /// Whether its statistics are known: it is in memory, or its bytes passed by, and BLANK is what it
    /// was then.
    pub fn is_counted(&self) -> bool
        ensures { IsTrue result ↔ IsCounted self.now.plane self.now.absent }
    {
        match &self.absent {
            None => true,
            Some(it) => it.is_counted(),
        }
    }

    /// Where it lies in its file, if it isn't in memory.
    pub fn place(&self) -> Option<u64>
        ensures { result ≡ place_of self.now.absent }
    {
        match &self.absent {
            None => None,
            Some(it) => Some(it.place()),
        }
    }

    /// Its bytes in memory.
    pub fn plane(&self) -> &Plane
        requires { self.now.absent ≡ None }
        ensures { result.now ≡ self.now.plane }
    {
        &self.plane
    }

    pub fn layout(&self) -> Layout
        ensures value { result ≡ self.now.plane.layout }
        ensures fits { IsLayout result self.now.plane.bytes }
    {
        match &self.absent {
            None => self.plane.layout(),
            Some(it) => it.layout(),
        }
    }

    /// How many bytes it has, with the fill.
    pub fn byte_len(&self) -> usize
        ensures { result ≡ length self.now.plane.bytes }
    {
        match &self.absent {
            None => self.plane.byte_len(),
            Some(it) => it.byte_len(),
        }
    }

    /// The statistics of its values, each a stored number and the offset.
    pub fn value_stats(&self, offset: i128) -> ValueSummary
        requires counted { IsCounted self.now.plane self.now.absent }
        requires offset { unsigned_abs offset ≤ 2 ^ 63 }
        ensures { result ≡ value_statistics offset self.now.plane.layout.blank
            (pixels self.now.plane.layout.width self.now.plane.bytes 0
            self.now.plane.layout.pixels) }
    {
        match &self.absent {
            None => self.plane.value_stats(offset),
            Some(it) => it.value_stats(offset),
        }
    }

    /// The total of its words, with the fill.
    pub fn total(&self) -> u64
        requires { IsKnown self.now.absent }
        ensures { result ≡ word_total self.now.plane.bytes }
    {
        match &self.absent {
            None => self.plane.total(),
            Some(it) => it.total(),
        }
    }

    /// Whether each byte of the fill is the one that it should be.
    pub fn fill_ok(&self) -> bool
        requires { IsKnown self.now.absent }
        ensures { result ≡ list_all (nat_eq self.now.plane.layout.fill)
            (drop self.now.plane.layout.used self.now.plane.bytes) }
    {
        match &self.absent {
            None => self.plane.fill_ok(),
            Some(it) => it.fill_ok(),
        }
    }

    /// Makes this the stored number of undefined pixels. It takes no memory. Where not all of it is in
    /// memory its bytes aren't looked at again.
    pub fn set_blank(&mut self, blank: Option<i64>)
        ensures bytes { self.new.plane.bytes ≡ self.old.plane.bytes }
        ensures layout { self.new.plane.layout
            ≡ record self.old.plane.layout { blank = blank } }
        ensures absent { self.new.absent ≡ self.old.absent }
        ensures reads { self.new.plane.reads ≡ self.old.plane.reads }
        ensures scans { self.old.absent ≡ None → self.new.plane.scans
            ≡ self.old.plane.scans + block_count self.old.plane.bytes }
        ensures known { IfSome self.old.absent (λ _. self.new.plane
            ≡ record self.old.plane { layout = self.new.plane.layout }) }
        ensures more_joins { self.old.plane.joins ≤ self.new.plane.joins }
        ensures joins { (d : ℕ) → block_count self.old.plane.bytes ≤ 2 ^ d
            → self.new.plane.joins ≤ self.old.plane.joins + 2 ^ d }
    {
        match &mut self.absent {
            None => self.plane.set_blank(blank),
            Some(it) => it.set_blank(blank),
        }
    }

    /// Gives the pixels of a rectangle, which are in memory, the values of a paint, each less the
    /// offset. It takes no memory.
    pub fn paint_rect(&mut self, painting: &Painting)
        requires held { HasRectangle painting.now.axes.now painting.now.lo.now
            painting.now.hi.now self.old.plane self.old.absent }
        requires suits { Suits self.old.plane.layout painting.now }
        ensures painted { Paints painting.now self.old.plane self.new.plane }
        ensures absent { self.new.absent ≡ self.old.absent }
    {
        match &mut self.absent {
            None => self.plane.paint_rect(painting),
            Some(Absent::Away(_)) => unreachable!(),
            Some(Absent::InPart(part)) => part.paint_rect(painting),
        }
    }

    /// The values of a rectangle, whose pixels are in memory, in file order, each its stored number and
    /// the offset.
    pub fn rect(
        &mut self,
        alloc: Global,
        axes: &[u64],
        lo: &[u64],
        hi: &[u64],
        offset: i128,
    ) -> Result<Vec<i128>, AllocError>
        requires held { HasRectangle axes.now lo.now hi.now self.old.plane self.old.absent }
        requires rectangle { IsRectangle axes.now lo.now hi.now }
        requires all { product axes.now ≡ self.old.plane.layout.pixels }
        requires offset { unsigned_abs offset ≤ 2 ^ 64 }
        ensures value { IfOk result (λ v. v.items ≡ rectangle_values
            self.old.plane.layout.width self.old.plane.bytes axes.now lo.now hi.now offset) }

        // Each of its pixels is read once. The memory is had before any is.
        ensures work { OnOk result (self.new ≡ record self.old {
          plane = record self.old.plane {
            reads = self.old.plane.reads + rectangle_size lo.now hi.now;
          };
        }) }
        ensures err { OnErr result (self.new ≡ self.old) }
    {
        match &mut self.absent {
            None => self.plane.rect(alloc, axes, lo, hi, offset),
            Some(Absent::Away(_)) => unreachable!(),
            Some(Absent::InPart(part)) => part.rect(alloc, axes, lo, hi, offset),
        }
    }

    /// Whether pixels of so many bytes can store the numbers of the first `count` pixels, each with
    /// the shift, as `Plane::converts`.
    pub fn converts(&mut self, width: usize, count: usize, shift: i128) -> bool
        requires held { self.old.absent ≡ None }
        requires width { IsWidth width }
        requires within { count ≤ self.old.plane.layout.pixels }
        requires shift { unsigned_abs shift ≤ 2 ^ 64 }
        ensures value { result ≡ can_store_run width
            (kept_numbers self.old.plane.layout.width self.old.plane.bytes count shift) }
        ensures same { self.new ≡ record self.old {
          plane = record self.old.plane { reads = self.new.plane.reads };
        } }
        ensures more_reads { self.old.plane.reads ≤ self.new.plane.reads }
        ensures reads { self.new.plane.reads ≤ self.old.plane.reads + count }
        ensures rest { self.new.plane.reads ≤ self.old.plane.reads
            + count % block_pixels self.old.plane.layout.width }
    {
        self.plane.converts(width, count, shift)
    }

    /// `len` bytes that store the numbers of the first `count` pixels anew, as `Plane::converted`.
    pub fn converted(
        &mut self,
        alloc: Global,
        width: usize,
        count: usize,
        shift: i128,
        len: usize,
    ) -> Result<Option<Vec<u8>>, AllocError>
        requires held { self.old.absent ≡ None }
        requires width { IsWidth width }
        requires within { count ≤ self.old.plane.layout.pixels }
        requires room { count * width ≤ len }
        requires shift { unsigned_abs shift ≤ 2 ^ 64 }
        ensures value { IfOk result (λ made. option_map (λ v. v.items) made ≡ run_made width
            (kept_numbers self.old.plane.layout.width self.old.plane.bytes count shift) len) }
        ensures same { self.new ≡ record self.old {
          plane = record self.old.plane { reads = self.new.plane.reads };
        } }
        ensures more_reads { self.old.plane.reads ≤ self.new.plane.reads }
        ensures reads { self.new.plane.reads ≤ self.old.plane.reads + count }
        ensures err { OnErr result (self.new ≡ self.old) }
    {
        self.plane.converted(alloc, width, count, shift, len)
    }

    /// Makes this the data unit of bytes that are handed over, as `Plane::renew`.
    pub fn renew(&mut self, room: PlaneRoom, bytes: Vec<u8>, layout: Layout)
        requires held { self.old.absent ≡ None }
        requires layout { IsLayout layout bytes.items }
        requires room { room ≡ block_count bytes.items }
        ensures bytes { self.new.plane.bytes ≡ bytes.items }
        ensures layout { self.new.plane.layout ≡ layout }
        ensures held { self.new.absent ≡ None }
        ensures reads { self.new.plane.reads ≡ self.old.plane.reads }
        ensures scans { self.new.plane.scans
            ≡ self.old.plane.scans + block_count bytes.items }
        ensures more_joins { self.old.plane.joins ≤ self.new.plane.joins }
        ensures joins { (d : ℕ) → block_count bytes.items ≤ 2 ^ d
            → self.new.plane.joins ≤ self.old.plane.joins + 2 ^ d }
    {
        self.plane.renew(room, bytes, layout);
    }

    /// Has it known, where it isn't: its bytes pass by, through a room of one block at least, and each
    /// of its blocks is scanned once. None of them stays.
    pub fn know<F: Stored>(
        &mut self,
        file: &F,
        log: &mut ReadLog,
        room: &mut [u8],
    ) -> Result<(), LoadFault>
        requires { 2880 ≤ length room.old }
        ensures known { OnOk result (IsKnown self.new.absent) }
        ensures fresh { (IsKnown self.old.absent → ⊥)
            → OnOk result (IsCounted self.new.plane self.new.absent) }
        ensures same { (told : List ℕ) → IsOf told log.new → LiesIn told self.old.plane self.old.absent
            → OnOk result (self.new.plane.bytes ≡ unit_at told self.old.plane.bytes self.old.absent) }
        ensures lies { (told : List ℕ) → IsOf told log.new → LiesIn told self.old.plane self.old.absent
            → LiesIn told self.new.plane self.new.absent }
        ensures place { IfSome self.old.absent (λ it. IfSome self.new.absent (λ at. at.place ≡ it.place)) }
        ensures away { self.new.absent ≡ None → self.old.absent ≡ None }
        ensures layout { self.new.plane.layout ≡ self.old.plane.layout }
        ensures size { length self.new.plane.bytes ≡ length self.old.plane.bytes }
        ensures idle { IsKnown self.old.absent → self.new ≡ self.old }
        ensures at_once { IsKnown self.old.absent → IsOk result }
        ensures reads { self.new.plane.reads ≡ self.old.plane.reads }
        ensures joins { self.new.plane.joins ≡ self.old.plane.joins }
        ensures more_scans { self.old.plane.scans ≤ self.new.plane.scans }
        ensures scans { self.new.plane.scans
            ≤ self.old.plane.scans + block_count self.old.plane.bytes }
        ensures quiet { OnOk result (log.new.failures ≡ log.old.failures) }
        ensures err { OnErr result (self.new ≡ self.old) }
        ensures counted { IfErr result (LoadCounts log.old.failures log.new.failures) }
        ensures steady { (told : List ℕ) → IsOf told log.new
            → LiesIn told self.old.plane self.old.absent
            → IfErr result (λ why. why ≡ LoadFault.Changed → ⊥) }
        ensures follows { Follows log.old log.new }
        ensures looked { log.new.looked ≡ log.old.looked }
        ensures room { length room.new ≡ length room.old }
    {
        match &mut self.absent {
            Some(Absent::Away(it)) => know_away(file, log, it, room),
            _ => Ok(()),
        }
    }

    /// Has all of it in memory: what isn't there is read through a room. Each of its blocks is scanned
    /// once (again, where it is known), and its counts go on. What is read is compared with what is known
    /// of it, by its length and its total.
    pub fn load<F: Stored>(
        &mut self,
        alloc: Global,
        file: &F,
        log: &mut ReadLog,
        room: &mut [u8],
    ) -> Result<(), LoadFault>
        requires { 0 < length room.old }
        ensures held { OnOk result (self.new.absent ≡ None) }
        ensures layout { OnOk result (self.new.plane.layout ≡ self.old.plane.layout) }
        ensures loaded { OnOk result (IfSome self.old.absent (λ it. ReadsRest it.place it.held
            self.old.plane.bytes log.old log.new self.new.plane.bytes)) }
        ensures same { (told : List ℕ) → IsOf told log.new → LiesIn told self.old.plane self.old.absent
            → OnOk result (self.new.plane.bytes ≡ unit_at told self.old.plane.bytes self.old.absent) }
        ensures size { OnOk result
            (length self.new.plane.bytes ≡ length self.old.plane.bytes) }
        ensures total { OnOk result (IsKnown self.old.absent
            → word_total self.new.plane.bytes ≡ word_total self.old.plane.bytes) }
        ensures idle { self.old.absent ≡ None → self.new ≡ self.old }
        ensures at_once { self.old.absent ≡ None → IsOk result }
        ensures reads { self.new.plane.reads ≡ self.old.plane.reads }
        ensures scanned { OnOk result (IfSome self.old.absent (λ _. self.new.plane.scans
            ≡ self.old.plane.scans + block_count self.old.plane.bytes)) }
        ensures more_scans { self.old.plane.scans ≤ self.new.plane.scans }
        ensures scans { self.new.plane.scans
            ≤ self.old.plane.scans + block_count self.old.plane.bytes }
        ensures more_joins { self.old.plane.joins ≤ self.new.plane.joins }
        ensures joins { (d : ℕ) → block_count self.old.plane.bytes ≤ 2 ^ d
            → self.new.plane.joins ≤ self.old.plane.joins + 2 ^ d }
        ensures quiet { OnOk result (log.new.failures ≡ log.old.failures) }
        ensures err { OnErr result (self.new ≡ self.old) }
        ensures counted { IfErr result (LoadCounts log.old.failures log.new.failures) }
        ensures steady { (told : List ℕ) → IsOf told log.new
            → LiesIn told self.old.plane self.old.absent
            → IfErr result (λ why. why ≡ LoadFault.Changed → ⊥) }
        ensures follows { Follows log.old log.new }
        ensures looked { log.new.looked ≡ log.old.looked }
        ensures room { length room.new ≡ length room.old }
    {
        let Some(it) = self.absent.take() else {
            return Ok(());
        };
        match plane_again(alloc, file, log, &it, room) {
            Ok(mut plane) => {
                let PieceWork {
                    scans,
                    reads,
                    joins,
                } = it.into_work();
                plane.go_on(scans, reads, joins);
                self.plane = plane;
                Ok(())
            }
            Err(why) => {
                self.absent = Some(it);
                Err(why)
            }
        }
    }

    /// Has the pixels of a rectangle in memory, where they aren't. A small unit, or one most of whose
    /// pixels are wanted, is loaded whole; of another, all of whose bytes pass by first, the pieces that
    /// hold them are, and each block of those is scanned once more. What is read is compared with what is
    /// known of it.
    ///
    /// Where a call fails, what came to be known before, and the pieces that were read, stay.
    pub fn load_rect<F: Stored>(
        &mut self,
        alloc: Global,
        file: &F,
        log: &mut ReadLog,
        room: &mut [u8],
        axes: &[u64],
        lo: &[u64],
        hi: &[u64],
    ) -> Result<(), LoadFault>
        requires wide { 46080 ≤ length room.old }
        requires rectangle { IsRectangle axes.now lo.now hi.now }
        requires all { product axes.now ≡ self.old.plane.layout.pixels }
        ensures held { OnOk result
            (HasRectangle axes.now lo.now hi.now self.new.plane self.new.absent) }
        ensures same { (told : List ℕ) → IsOf told log.new → LiesIn told self.old.plane self.old.absent
            → unit_at told self.new.plane.bytes self.new.absent
            ≡ unit_at told self.old.plane.bytes self.old.absent }
        ensures lies { (told : List ℕ) → IsOf told log.new → LiesIn told self.old.plane self.old.absent
            → LiesIn told self.new.plane self.new.absent }
        ensures layout { self.new.plane.layout ≡ self.old.plane.layout }
        ensures size { length self.new.plane.bytes ≡ length self.old.plane.bytes }
        ensures known { IsKnown self.old.absent → IsKnown self.new.absent }
        ensures whole { self.old.absent ≡ None → self.new.absent ≡ None }
        ensures total { IsKnown self.old.absent
            → word_total self.new.plane.bytes ≡ word_total self.old.plane.bytes }
        ensures idle { HasRectangle axes.now lo.now hi.now self.old.plane self.old.absent
            → self.new ≡ self.old }
        ensures at_once { HasRectangle axes.now lo.now hi.now self.old.plane self.old.absent
            → IsOk result }
        ensures reads { self.new.plane.reads ≡ self.old.plane.reads }
        ensures more_scans { self.old.plane.scans ≤ self.new.plane.scans }
        ensures scans { self.new.plane.scans
            ≤ self.old.plane.scans + 2 * block_count self.old.plane.bytes }
        ensures more_joins { self.old.plane.joins ≤ self.new.plane.joins }
        ensures joins { (d : ℕ) → block_count self.old.plane.bytes ≤ 2 ^ d
            → self.new.plane.joins ≤ self.old.plane.joins + 2 * 2 ^ d }
        ensures quiet { OnOk result (log.new.failures ≡ log.old.failures) }
        ensures counted { IfErr result (LoadCounts log.old.failures log.new.failures) }
        ensures steady { (told : List ℕ) → IsOf told log.new
            → LiesIn told self.old.plane self.old.absent
            → IfErr result (λ why. why ≡ LoadFault.Changed → ⊥) }
        ensures follows { Follows log.old log.new }
        ensures looked { log.new.looked ≡ log.old.looked }
        ensures room { length room.new ≡ length room.old }
    {
        if self.is_away() {
            return self.load_away(alloc, file, log, room, axes, lo, hi);
        }
        self.load_in_part(alloc, file, log, room, axes, lo, hi)
    }

    // So it has, where none of it is in memory.
    fn load_away<F: Stored>(
        &mut self,
        alloc: Global,
        file: &F,
        log: &mut ReadLog,
        room: &mut [u8],
        axes: &[u64],
        lo: &[u64],
        hi: &[u64],
    ) -> Result<(), LoadFault>
        requires wide { 46080 ≤ length room.old }
        requires rectangle { IsRectangle axes.now lo.now hi.now }
        requires all { product axes.now ≡ self.old.plane.layout.pixels }
        requires away { IsAway self.old.absent }
        ensures held { OnOk result
            (HasRectangle axes.now lo.now hi.now self.new.plane self.new.absent) }
        ensures same { (told : List ℕ) → IsOf told log.new → LiesIn told self.old.plane self.old.absent
            → unit_at told self.new.plane.bytes self.new.absent
            ≡ unit_at told self.old.plane.bytes self.old.absent }
        ensures lies { (told : List ℕ) → IsOf told log.new → LiesIn told self.old.plane self.old.absent
            → LiesIn told self.new.plane self.new.absent }
        ensures loads { LoadsSome self.old self.new }
        ensures quiet { OnOk result (log.new.failures ≡ log.old.failures) }
        ensures counted { IfErr result (LoadCounts log.old.failures log.new.failures) }
        ensures steady { (told : List ℕ) → IsOf told log.new
            → LiesIn told self.old.plane self.old.absent
            → IfErr result (λ why. why ≡ LoadFault.Changed → ⊥) }
        ensures follows { Follows log.old log.new }
        ensures looked { log.new.looked ≡ log.old.looked }
        ensures room { length room.new ≡ length room.old }
    {
        let _fits = self.layout();
        if !self.goes_in_part(axes, lo, hi) {
            self.load(alloc, file, log, room)?;
            return Ok(());
        }
        self.begin_part(alloc, file, log, room)?;
        self.load_in_part(alloc, file, log, room, axes, lo, hi)
    }

    // So it has, where some of it is: the pieces that aren't there are loaded.
    fn load_in_part<F: Stored>(
        &mut self,
        alloc: Global,
        file: &F,
        log: &mut ReadLog,
        room: &mut [u8],
        axes: &[u64],
        lo: &[u64],
        hi: &[u64],
    ) -> Result<(), LoadFault>
        requires wide { 0 < length room.old }
        requires rectangle { IsRectangle axes.now lo.now hi.now }
        requires all { product axes.now ≡ self.old.plane.layout.pixels }
        requires some { IsAway self.old.absent → ⊥ }
        ensures held { OnOk result
            (HasRectangle axes.now lo.now hi.now self.new.plane self.new.absent) }
        ensures same { (told : List ℕ) → IsOf told log.new → LiesIn told self.old.plane self.old.absent
            → unit_at told self.new.plane.bytes self.new.absent
            ≡ unit_at told self.old.plane.bytes self.old.absent }
        ensures lies { (told : List ℕ) → IsOf told log.new → LiesIn told self.old.plane self.old.absent
            → LiesIn told self.new.plane self.new.absent }
        ensures loads { LoadsMore self.old.plane self.old.absent self.new.plane self.new.absent }
        ensures bounds { LoadsSome self.old self.new }
        ensures idle { HasRectangle axes.now lo.now hi.now self.old.plane self.old.absent
            → self.new ≡ self.old }
        ensures at_once { HasRectangle axes.now lo.now hi.now self.old.plane self.old.absent
            → IsOk result }
        ensures quiet { OnOk result (log.new.failures ≡ log.old.failures) }
        ensures counted { IfErr result (LoadCounts log.old.failures log.new.failures) }
        ensures steady { (told : List ℕ) → IsOf told log.new
            → LiesIn told self.old.plane self.old.absent
            → IfErr result (λ why. why ≡ LoadFault.Changed → ⊥) }
        ensures follows { Follows log.old log.new }
        ensures looked { log.new.looked ≡ log.old.looked }
        ensures room { length room.new ≡ length room.old }
    {
        match &mut self.absent {
            None => Ok(()),
            Some(Absent::Away(_)) => unreachable!(),
            Some(Absent::InPart(part)) => {
                let _fits = part.layout();
                part.load_rect(alloc, file, log, room, axes, lo, hi)
            }
        }
    }

    // Whether none of it is in memory.
    fn is_away(&self) -> bool
        ensures { IsTrue result ↔ IsAway self.now.absent }
    {
        match &self.absent {
            None => false,
            Some(Absent::Away(_)) => true,
            Some(Absent::InPart(part)) => {
                // Its layout says that it has pieces.
                let _layout = part.layout();
                false
            }
        }
    }

    // Whether pieces of it are loaded for a rectangle, and not the whole.
    fn goes_in_part(&self, axes: &[u64], lo: &[u64], hi: &[u64]) -> bool
        requires rectangle { IsRectangle axes.now lo.now hi.now }
        requires all { product axes.now ≡ self.now.plane.layout.pixels }
        ensures { result ≡ true → IsSomeAnd self.now.absent (CanBePart self.now.plane) }
    {
        let layout = self.layout();
        let len = self.byte_len();
        let Some(Absent::Away(it)) = &self.absent else {
            return false;
        };
        len > WHOLE_LEN
            && len as u64 <= u64::MAX - it.place
            && PIECE_LEN * (len.div_ceil(PIECE_LEN) - 1) <= layout.used
            && rectangle_len(axes, lo, hi) < (layout.pixels / 2) as u64
    }

    // Has it known, and its last piece in memory: all of its bytes pass by.
    fn begin_part<F: Stored>(
        &mut self,
        alloc: Global,
        file: &F,
        log: &mut ReadLog,
        room: &mut [u8],
    ) -> Result<(), LoadFault>
        requires wide { 46080 ≤ length room.old }
        requires can { IsSomeAnd self.old.absent (CanBePart self.old.plane) }
        ensures begins { OnOk result (BeginsPart self.old self.new) }
        ensures same { (told : List ℕ) → IsOf told log.new → LiesIn told self.old.plane self.old.absent
            → OnOk result (self.new.plane.bytes
            ≡ unit_at told self.old.plane.bytes self.old.absent) }
        ensures lies { (told : List ℕ) → IsOf told log.new → LiesIn told self.old.plane self.old.absent
            → LiesIn told self.new.plane self.new.absent }
        ensures quiet { OnOk result (log.new.failures ≡ log.old.failures) }
        ensures err { OnErr result (self.new ≡ self.old) }
        ensures counted { IfErr result (LoadCounts log.old.failures log.new.failures) }
        ensures steady { (told : List ℕ) → IsOf told log.new
            → LiesIn told self.old.plane self.old.absent
            → IfErr result (λ why. why ≡ LoadFault.Changed → ⊥) }
        ensures follows { Follows log.old log.new }
        ensures looked { log.new.looked ≡ log.old.looked }
        ensures room { length room.new ≡ length room.old }
    {
        let Some(absent) = self.absent.take() else {
            return Ok(());
        };
        match absent {
            Absent::Away(it) => match part_of_away(alloc, file, log, &it, room) {
                Ok(mut part) => {
                    // Its layout says that it has pieces.
                    let _layout = part.layout();
                    part.go_on(it.unit.into_scans());
                    self.absent = Some(Absent::InPart(part));
                    Ok(())
                }
                Err(why) => {
                    self.absent = Some(Absent::Away(it));
                    Err(why)
                }
            },
            Absent::InPart(part) => {
                self.absent = Some(Absent::InPart(part));
                Ok(())
            }
        }
    }

    /// Writes its bytes: those in memory, and the others as the file has them at its place, through a
    /// room of one block at least. What is copied is compared with what is known of it, by its length
    /// and its total.
    pub fn emit_from<F: Stored, W: Sink>(
        &self,
        file: &F,
        log: &mut ReadLog,
        room: &mut [u8],
        sink: &mut W,
    ) -> Result<(), CopyFault>
        requires { 2880 ≤ length room.old }
        ensures ok { (told : List ℕ) → IsOf told log.new
            → LiesIn told self.now.plane self.now.absent
            → OnOk result (Prints (unit_at told self.now.plane.bytes self.now.absent)
            (W.state sink.old) (W.state sink.new)) }
        ensures like { OnOk result (PrintsAs (HasTotal self.now.plane.bytes self.now.absent)
            (length self.now.plane.bytes) (W.state sink.old) (W.state sink.new)) }
        ensures copied { OnOk result (CopiesUnit self.now.plane self.now.absent log.old log.new
            (W.state sink.old) (W.state sink.new)) }
        ensures err { (told : List ℕ) → IsOf told log.new
            → LiesIn told self.now.plane self.now.absent
            → IfErr result (CopyFails (unit_at told self.now.plane.bytes self.now.absent)
            (W.state sink.old) (W.state sink.new)) }
        ensures writes { IfErr result (CopyWrites (W.state sink.old) (W.state sink.new)) }
        ensures follows { Follows log.old log.new }
        ensures size { length room.new ≡ length room.old }
        ensures quiet { OnOk result (log.new.failures ≡ log.old.failures) }
        ensures counted { IfErr result (CopyCounts log.old.failures log.new.failures) }
        ensures looks { Looks (copied_blocks self.now.plane.bytes self.now.absent) log.old log.new }
    {
        match &self.absent {
            None => match self.plane.emit(sink) {
                Ok(()) => Ok(()),
                Err(_) => Err(CopyFault::Write),
            },
            Some(Absent::Away(it)) => copy_away(file, log, it, room, sink),
            Some(Absent::InPart(part)) => part.emit_from(file, log, room, sink),
        }
    }
}

// Whether a unit is known, and has another total than this.
fn has_another_total(unit: &AwayUnit, total: u64) -> bool
    ensures known { IsTrue result → is_passed unit.now ≡ true }
    ensures other { IsTrue result → total ≡ word_total (away_plane unit.now).bytes → ⊥ }
    ensures same { result ≡ false → is_passed unit.now ≡ true
        → total ≡ word_total (away_plane unit.now).bytes }
{
    match unit {
        AwayUnit::Passed(it) => it.total() != total,
        AwayUnit::Unread(_) => false,
    }
}

// A unit that isn't in memory, in part: all of its bytes pass by, and its last piece stays.
fn part_of_away<F: Stored>(
    alloc: Global,
    file: &F,
    log: &mut ReadLog,
    it: &AwayAt,
    room: &mut [u8],
) -> Result<PartUnit, LoadFault>
    requires wide { 46080 ≤ length room.old }
    requires can { CanBePart (away_plane it.now.unit) (away_at it.now.place it.now.unit) }
    ensures size { IfOk result (λ part. length part.plane.bytes ≡ length (away_plane it.now.unit).bytes) }
    ensures place { IfOk result (λ part. part.place ≡ it.now.place) }
    ensures layout { IfOk result (λ part. part.plane.layout ≡ (away_plane it.now.unit).layout) }
    ensures total { IfOk result (λ part. is_passed it.now.unit ≡ true
        → word_total part.plane.bytes ≡ word_total (away_plane it.now.unit).bytes) }
    ensures same { (told : List ℕ) → IsOf told log.new
        → Lies told (away_plane it.now.unit).bytes (away_at it.now.place it.now.unit)
        → IfOk result (λ part. part.plane.bytes ≡ unit_at told (away_plane it.now.unit).bytes
        (Some (away_at it.now.place it.now.unit))) }
    ensures lies { (told : List ℕ) → IsOf told log.new
        → Lies told (away_plane it.now.unit).bytes (away_at it.now.place it.now.unit)
        → IfOk result (λ part. Lies told part.plane.bytes (part_at part)) }
    ensures reads { IfOk result (λ part. part.plane.reads ≡ 0) }
    ensures scans { IfOk result (λ part. part.plane.scans
        + away_blocks part.held (length (away_plane it.now.unit).bytes)
        ≡ 2 * block_count (away_plane it.now.unit).bytes) }
    ensures joins { IfOk result (λ part. (d : ℕ) → block_count (away_plane it.now.unit).bytes ≤ 2 ^ d
        → part.plane.joins + away_pieces part.held * 2 ^ min d 4
        ≤ 2 ^ d + pieces_in (length (away_plane it.now.unit).bytes) * 2 ^ min d 4) }
    ensures quiet { OnOk result (log.new.failures ≡ log.old.failures) }
    ensures counted { IfErr result (LoadCounts log.old.failures log.new.failures) }
    ensures steady { (told : List ℕ) → IsOf told log.new
        → Lies told (away_plane it.now.unit).bytes (away_at it.now.place it.now.unit)
        → IfErr result (λ why. why ≡ LoadFault.Changed → ⊥) }
    ensures follows { Follows log.old log.new }
    ensures looked { log.new.looked ≡ log.old.looked }
    ensures room { length room.new ≡ length room.old }
{
    let layout = it.unit.layout();
    let part = part_of_file(alloc, file, log, it.place, it.unit.byte_len(), layout, room)?;
    if has_another_total(&it.unit, part.total()) {
        return Err(LoadFault::Changed);
    }
    Ok(part)
}

// Copies a unit that isn't in memory, and compares it with what is known of it.
fn copy_away<F: Stored, W: Sink>(
    file: &F,
    log: &mut ReadLog,
    it: &AwayAt,
    room: &mut [u8],
    sink: &mut W,
) -> Result<(), CopyFault>
    requires { 2880 ≤ length room.old }
    ensures ok { (told : List ℕ) → IsOf told log.new
        → Lies told (away_plane it.now.unit).bytes (away_at it.now.place it.now.unit)
        → OnOk result (Prints (unit_at told (away_plane it.now.unit).bytes
        (Some (away_at it.now.place it.now.unit))) (W.state sink.old) (W.state sink.new)) }
    ensures like { OnOk result (PrintsAs (HasTotal (away_plane it.now.unit).bytes
        (Some (away_at it.now.place it.now.unit))) (length (away_plane it.now.unit).bytes)
        (W.state sink.old) (W.state sink.new)) }
    ensures copied { OnOk result (CopiesUnit (away_plane it.now.unit)
        (Some (away_at it.now.place it.now.unit)) log.old log.new (W.state sink.old) (W.state sink.new)) }
    ensures err { (told : List ℕ) → IsOf told log.new
        → Lies told (away_plane it.now.unit).bytes (away_at it.now.place it.now.unit)
        → IfErr result (CopyFails (unit_at told (away_plane it.now.unit).bytes
        (Some (away_at it.now.place it.now.unit))) (W.state sink.old) (W.state sink.new)) }
    ensures writes { IfErr result (CopyWrites (W.state sink.old) (W.state sink.new)) }
    ensures follows { Follows log.old log.new }
    ensures size { length room.new ≡ length room.old }
    ensures quiet { OnOk result (log.new.failures ≡ log.old.failures) }
    ensures counted { IfErr result (CopyCounts log.old.failures log.new.failures) }
    ensures looks { Looks (block_count (away_plane it.now.unit).bytes) log.old log.new }
{
    let _layout = it.unit.layout();
    let total = copy_again(file, log, it.place, it.unit.byte_len(), room, sink)?;
    let other = has_another_total(&it.unit, total);
    if other {
        return Err(CopyFault::Changed);
    }
    Ok(())
}

// Has a unit known that isn't in memory, where it isn't known: its bytes pass by.
fn know_away<F: Stored>(
    file: &F,
    log: &mut ReadLog,
    it: &mut AwayAt,
    room: &mut [u8],
) -> Result<(), LoadFault>
    requires { 2880 ≤ length room.old }
    ensures known { OnOk result (is_passed it.new.unit ≡ true) }
    ensures place { it.new.place ≡ it.old.place }
    ensures fresh { is_passed it.old.unit ≡ false
        → OnOk result ((away_plane it.new.unit).layout.blank ≡ passed_blank it.new.unit) }
    ensures same { (told : List ℕ) → IsOf told log.new
        → Lies told (away_plane it.old.unit).bytes (away_at it.old.place it.old.unit)
        → OnOk result ((away_plane it.new.unit).bytes
        ≡ unit_at told (away_plane it.old.unit).bytes (Some (away_at it.old.place it.old.unit))) }
    ensures lies { (told : List ℕ) → IsOf told log.new
        → Lies told (away_plane it.old.unit).bytes (away_at it.old.place it.old.unit)
        → Lies told (away_plane it.new.unit).bytes (away_at it.new.place it.new.unit) }
    ensures layout { (away_plane it.new.unit).layout ≡ (away_plane it.old.unit).layout }
    ensures size { length (away_plane it.new.unit).bytes ≡ length (away_plane it.old.unit).bytes }
    ensures idle { is_passed it.old.unit ≡ true → it.new.unit ≡ it.old.unit }
    ensures at_once { is_passed it.old.unit ≡ true → IsOk result }
    ensures reads { (away_plane it.new.unit).reads ≡ (away_plane it.old.unit).reads }
    ensures joins { (away_plane it.new.unit).joins ≡ (away_plane it.old.unit).joins }
    ensures more_scans { (away_plane it.old.unit).scans ≤ (away_plane it.new.unit).scans }
    ensures scans { (away_plane it.new.unit).scans
        ≤ (away_plane it.old.unit).scans + block_count (away_plane it.old.unit).bytes }
    ensures quiet { OnOk result (log.new.failures ≡ log.old.failures) }
    ensures err { OnErr result (it.new.unit ≡ it.old.unit) }
    ensures counted { IfErr result (LoadCounts log.old.failures log.new.failures) }
    ensures steady { (told : List ℕ) → IsOf told log.new
        → Lies told (away_plane it.old.unit).bytes (away_at it.old.place it.old.unit)
        → IfErr result (λ why. why ≡ LoadFault.Changed → ⊥) }
    ensures follows { Follows log.old log.new }
    ensures looked { log.new.looked ≡ log.old.looked }
    ensures room { length room.new ≡ length room.old }
{
    let AwayUnit::Unread(unread) = &it.unit else {
        return Ok(());
    };
    let layout = unread.layout();
    let passed = pass_again(file, log, it.place, unread.byte_len(), layout, room)?;
    it.unit = AwayUnit::Passed(passed);
    Ok(())
}

// The plane of a data unit of which not all is in memory, with what its file has now, which is to have
// the length, and the total, where that is known.
fn plane_again<F: Stored>(
    alloc: Global,
    file: &F,
    log: &mut ReadLog,
    it: &Absent,
    room: &mut [u8],
) -> Result<Plane, LoadFault>
    requires { 0 < length room.old }
    ensures are { IfOk result (λ p. ReadsRest (lies_at it.now).place (lies_at it.now).held
        (absent_plane it.now).bytes log.old log.new p.bytes) }
    ensures same { (told : List ℕ) → IsOf told log.new
        → Lies told (absent_plane it.now).bytes (lies_at it.now)
        → IfOk result (λ p. p.bytes ≡ unit_at told (absent_plane it.now).bytes
        (Some (lies_at it.now))) }
    ensures size { IfOk result (λ p. length p.bytes ≡ length (absent_plane it.now).bytes) }
    ensures total { IfOk result (λ p. (lies_at it.now).known ≡ true
        → word_total p.bytes ≡ word_total (absent_plane it.now).bytes) }
    ensures layout { IfOk result (λ p. p.layout ≡ (absent_plane it.now).layout) }
    ensures scans { IfOk result (λ p. p.scans ≡ block_count p.bytes) }
    ensures reads { IfOk result (λ p. p.reads ≡ 0) }
    ensures joins { IfOk result
        (λ p. (d : ℕ) → block_count p.bytes ≤ 2 ^ d → p.joins ≤ 2 ^ d) }
    ensures quiet { OnOk result (log.new.failures ≡ log.old.failures) }
    ensures counted { IfErr result (LoadCounts log.old.failures log.new.failures) }
    ensures steady { (told : List ℕ) → IsOf told log.new
        → Lies told (absent_plane it.now).bytes (lies_at it.now)
        → IfErr result (λ why. why ≡ LoadFault.Changed → ⊥) }
    ensures follows { Follows log.old log.new }
    ensures looked { log.new.looked ≡ log.old.looked }
    ensures room { length room.new ≡ length room.old }
{
    match it {
        Absent::Away(it) => plane_away(alloc, file, log, it, room),
        Absent::InPart(it) => plane_in_part(alloc, file, log, it, room),
    }
}

// That of one that isn't in memory.
fn plane_away<F: Stored>(
    alloc: Global,
    file: &F,
    log: &mut ReadLog,
    it: &AwayAt,
    room: &mut [u8],
) -> Result<Plane, LoadFault>
    requires { 0 < length room.old }
    ensures are { IfOk result (λ p. ReadsOn it.now.place log.old log.new p.bytes) }
    ensures same { (told : List ℕ) → IsOf told log.new
        → Lies told (away_plane it.now.unit).bytes (away_at it.now.place it.now.unit)
        → IfOk result (λ p. p.bytes ≡ unit_at told (away_plane it.now.unit).bytes
        (Some (away_at it.now.place it.now.unit))) }
    ensures size { IfOk result (λ p. length p.bytes ≡ length (away_plane it.now.unit).bytes) }
    ensures total { IfOk result (λ p. is_passed it.now.unit ≡ true
        → word_total p.bytes ≡ word_total (away_plane it.now.unit).bytes) }
    ensures layout { IfOk result (λ p. p.layout ≡ (away_plane it.now.unit).layout) }
    ensures scans { IfOk result (λ p. p.scans ≡ block_count p.bytes) }
    ensures reads { IfOk result (λ p. p.reads ≡ 0) }
    ensures joins { IfOk result
        (λ p. (d : ℕ) → block_count p.bytes ≤ 2 ^ d → p.joins ≤ 2 ^ d) }
    ensures quiet { OnOk result (log.new.failures ≡ log.old.failures) }
    ensures counted { IfErr result (LoadCounts log.old.failures log.new.failures) }
    ensures steady { (told : List ℕ) → IsOf told log.new
        → Lies told (away_plane it.now.unit).bytes (away_at it.now.place it.now.unit)
        → IfErr result (λ why. why ≡ LoadFault.Changed → ⊥) }
    ensures follows { Follows log.old log.new }
    ensures looked { log.new.looked ≡ log.old.looked }
    ensures room { length room.new ≡ length room.old }
{
    let layout = it.unit.layout();
    let bytes = read_again(alloc, file, log, it.place, it.unit.byte_len(), room)?;
    let Ok(plane) = Plane::of(alloc, bytes, layout) else {
        return Err(LoadFault::Memory);
    };
    let other = has_another_total(&it.unit, plane.total());
    if other {
        return Err(LoadFault::Changed);
    }
    Ok(plane)
}

// That of one of which some pieces are.
fn plane_in_part<F: Stored>(
    alloc: Global,
    file: &F,
    log: &mut ReadLog,
    it: &PartUnit,
    room: &mut [u8],
) -> Result<Plane, LoadFault>
    requires { 0 < length room.old }
    ensures are { IfOk result (λ p. ReadsRest it.now.place it.now.held
        it.now.plane.bytes log.old log.new p.bytes) }
    ensures same { (told : List ℕ) → IsOf told log.new
        → Lies told it.now.plane.bytes (part_at it.now)
        → IfOk result (λ p. p.bytes ≡ unit_at told it.now.plane.bytes
        (Some (part_at it.now))) }
    ensures size { IfOk result (λ p. length p.bytes ≡ length it.now.plane.bytes) }
    ensures total { IfOk result (λ p. word_total p.bytes ≡ word_total it.now.plane.bytes) }
    ensures layout { IfOk result (λ p. p.layout ≡ it.now.plane.layout) }
    ensures scans { IfOk result (λ p. p.scans ≡ block_count p.bytes) }
    ensures reads { IfOk result (λ p. p.reads ≡ 0) }
    ensures joins { IfOk result
        (λ p. (d : ℕ) → block_count p.bytes ≤ 2 ^ d → p.joins ≤ 2 ^ d) }
    ensures quiet { OnOk result (log.new.failures ≡ log.old.failures) }
    ensures counted { IfErr result (LoadCounts log.old.failures log.new.failures) }
    ensures steady { (told : List ℕ) → IsOf told log.new
        → Lies told it.now.plane.bytes (part_at it.now)
        → IfErr result (λ why. why ≡ LoadFault.Changed → ⊥) }
    ensures follows { Follows log.old log.new }
    ensures looked { log.new.looked ≡ log.old.looked }
    ensures room { length room.new ≡ length room.old }
{
    let layout = it.layout();
    let bytes = it.read(alloc, file, log, room)?;
    let Ok(plane) = Plane::of(alloc, bytes, layout) else {
        return Err(LoadFault::Memory);
    };
    if plane.total() != it.total() {
        return Err(LoadFault::Changed);
    }
    Ok(plane)
}

mod fields;
mod pieces;
