ghost use Rattle.std.specs.Prelude.{◌≡◌, ◌≤◌, false, length, replicate, IfOk};
ghost use Rattle.fits_pieces.specs.Blocks.{stale_count, AreMarked};

use crate::piece_work::PieceWork;
use fits_card::BLOCK_LEN;
use fits_pixels::{Layout, Leaf, pixels_per_block};
use fits_plane::{DataBytes, Painting, Tree, leaves_of};
use fits_stream::Sink;
use std::alloc::{AllocError, Global};
use std::io;
use std::marker::Model;

/// Whole blocks of a data unit, with the leaf of each that wasn't painted since it was scanned.
///
/// Contracts see their bytes, how those are read, the work on them so far, and which blocks are yet to
/// be scanned.
#[derive(Drop)]
pub(crate) struct Blocks {
    store: DataBytes,
    layout: Layout,
    tree: Tree<Leaf>,
    stale: Vec<bool>,
}

impl Model for Blocks {
    ghost use Rattle.fits_pieces.specs.Blocks.{HaveLeaves, PieceState};

    ghost Value = { PieceState };

    ghost view = { λ it. record {
      bytes = it.store.bytes;
      layout = it.layout;
      scans = it.store.scans;
      reads = it.store.reads;
      joins = it.tree.joins;
      stale = it.stale.items;
    } };

    ghost invariant = { λ it. HaveLeaves
        it.layout it.store.bytes it.tree.leaves it.stale.items };
}

impl Blocks {
    ghost use Rattle.std.specs.Prelude.{◌≡◌, ◌≤◌, ◌<◌, ◌*◌, ◌+◌, ◌-◌, ◌/◌, ◌^◌, ◌↔◌, ℕ, false, length, replicate, slice_index, IsTrue, IfOk, OnErr, OnOk};
    ghost use Rattle.fits_stream.specs.Stream.{Prints, PrintsFront};
    ghost use Rattle.fits_pixels.specs.Layout.{IsLayout, block_count};
    ghost use Rattle.fits_pixels.specs.Pixels.{pixel};
    ghost use Rattle.fits_pieces.specs.Blocks.{stale_count, IsFresh};
    ghost use Rattle.fits_pieces.specs.Painting.{PaintsRun, TakesRun};
    ghost use Rattle.fits_pieces.specs.Piece.{bytes_leaf};

    /// Blocks of these bytes. Each is scanned once.
    pub(crate) fn of(alloc: Global, bytes: Vec<u8>, layout: Layout) -> Result<Blocks, AllocError>
        requires layout { IsLayout layout bytes.items }
        ensures bytes { IfOk result (λ it. it.bytes ≡ bytes.items) }
        ensures layout { IfOk result (λ it. it.layout ≡ layout) }
        ensures scans { IfOk result (λ it. it.scans ≡ block_count bytes.items) }
        ensures reads { IfOk result (λ it. it.reads ≡ 0) }
        ensures joins { IfOk result
            (λ it. (d : ℕ) → block_count bytes.items ≤ 2 ^ d → it.joins ≤ 2 ^ d) }
        ensures stale { IfOk result
            (λ it. it.stale ≡ replicate (block_count bytes.items) false) }
    {
        let blocks = bytes.len() / BLOCK_LEN;
        let mut store = DataBytes::new(bytes);
        let leaves = leaves_of(alloc, &mut store, layout, blocks)?;
        let tree = Tree::open(alloc, leaves)?;
        let stale = marks_unset(alloc, blocks)?;
        Ok(Blocks {
            store,
            layout,
            tree,
            stale,
        })
    }

    /// What is kept of them, where each was scanned since it was painted.
    pub(crate) fn leaf(&self) -> Leaf
        requires { IsFresh self.now.stale }
        ensures { result ≡ bytes_leaf self.now.layout self.now.bytes }
    {
        self.store.are_bytes();
        self.tree.root()
    }

    /// That each byte is below 256.
    pub(crate) fn are_bytes(&self)
        ensures { (k : ℕ) → slice_index self.now.bytes k < 256 }
    {
        self.store.are_bytes();
    }

    /// Stored pixel i. The read is counted.
    pub(crate) fn pixel(&mut self, i: usize) -> i64
        requires within { i < self.old.layout.pixels }
        ensures value { result ≡ pixel self.old.layout.width self.old.bytes i }
        ensures work { self.new ≡ record self.old { reads = self.old.reads + 1 } }
    {
        self.store.pixel(self.layout.width, i)
    }

    /// Paints a run of pixels, the first of which has this rank. Its blocks are yet to be scanned then.
    pub(crate) fn paint_run(&mut self, start: usize, count: usize, painting: &Painting, rank: usize)
        requires some { 0 < count }
        requires takes { TakesRun painting.now start count rank self.old }
        ensures { PaintsRun painting.now start count rank self.old self.new }
    {
        let per = pixels_per_block(self.layout.width);
        self.store
            .paint_run(self.layout.width, start, count, painting, rank);
        mark(&mut self.stale, start / per, (start + count - 1) / per + 1);
        self.store.are_bytes();
    }

    /// Whether a block was painted since it was scanned.
    pub(crate) fn is_stale(&self) -> bool
        ensures { IsTrue result ↔ (0 < stale_count self.now.stale) }
    {
        marked(self.stale.as_slice()) > 0
    }

    /// Scans each block that was painted since it was scanned, and joins each node above one of them
    /// once.
    pub(crate) fn refresh(&mut self)
        ensures fresh { IsFresh self.new.stale }
        ensures long { length self.new.stale ≡ length self.old.stale }
        ensures same { self.new ≡ record self.old {
          scans = self.old.scans + stale_count self.old.stale;
          joins = self.new.joins;
          stale = self.new.stale;
        } }
        ensures more { self.old.joins ≤ self.new.joins }
        ensures few { (d : ℕ) → block_count self.old.bytes ≤ 2 ^ d
            → self.new.joins ≤ self.old.joins + stale_count self.old.stale * d }
        ensures most { (d : ℕ) → block_count self.old.bytes ≤ 2 ^ d
            → self.new.joins + 1 ≤ self.old.joins + 2 ^ d }
    {
        self.store
            .scan_marked(self.layout, self.stale.as_slice(), &mut self.tree);
        self.stale.fill(false);
    }

    /// What was done on them. They are let go.
    pub(crate) fn into_work(self) -> PieceWork
        ensures scans { result.scans.total ≡ self.scans }
        ensures reads { result.reads.total ≡ self.reads }
        ensures joins { result.joins.total ≡ self.joins }
    {
        let counts = self.store.into_counts();
        PieceWork {
            scans: counts.scans,
            reads: counts.reads,
            joins: self.tree.into_joins(),
        }
    }

    /// Their bytes.
    pub(crate) fn bytes(&self) -> &[u8]
        ensures { result.now ≡ self.now.bytes }
    {
        self.store.as_slice()
    }

    /// Writes their bytes, or a prefix of them where a call failed.
    pub(crate) fn emit<W: Sink>(&self, sink: &mut W) -> io::Result<()>
        ensures ok { OnOk result (Prints self.now.bytes (W.state sink.old) (W.state sink.new)) }
        ensures err { OnErr result (PrintsFront self.now.bytes
            (W.state sink.old) (W.state sink.new)) }
    {
        self.store.emit(sink)
    }
}

/// So many marks, none of which is set.
pub(crate) fn marks_unset(alloc: Global, count: usize) -> Result<Vec<bool>, AllocError>
    ensures { IfOk result (λ v. v.items ≡ replicate count false) }
{
    let mut marks = Vec::new(alloc);
    marks.resize(count, false)?;
    Ok(marks)
}

/// How many marks are set.
fn marked(marks: &[bool]) -> usize
    ensures { result ≡ stale_count marks.now }
{
    marks.iter().filter(|marked| **marked).count()
}

/// Sets the marks of a range.
fn mark(marks: &mut Vec<bool>, from: usize, to: usize)
    requires { to ≤ length marks.old.items }
    ensures { AreMarked from to marks.old.items marks.new.items }
{
    for k in from..to {
        marks[k] = true;
    }
}
