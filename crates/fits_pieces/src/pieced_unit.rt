ghost use Rattle.std.specs.Prelude.{◌≡◌, ◌<◌, ◌≤◌, drop, length, nat_eq, slice_set, IfOk, IfErr, IsErrAnd, IsSomeAnd};
ghost use Rattle.std.specs.List.{list_all};
ghost use Rattle.fits_pixels.specs.Layout.{IsLayout};
ghost use Rattle.fits_pieces.specs.Blocks.{IsTaken};
ghost use Rattle.fits_pieces.specs.Piece.{bytes_leaf};

use crate::blocks::Blocks;
use crate::layouts::{PIECE_LEN, are_same, layout_of_piece, size_of_piece};
use crate::missing::find_missing;
use crate::painting::paint_pieces;
use crate::piece::Piece;
use crate::piece_fault::PieceFault;
use crate::piece_work::{PieceWork, work_of_pieces};
use crate::reading::read_rows;
use fits_pixels::{Layout, Leaf, PixelSummary, ValueSummary, read_bytes};
use fits_plane::{Painting, Tree, rectangle_len};
use fits_stream::{Count, GoneBytes, Sink};
use fits_sum::all_are;
use std::alloc::{AllocError, Global};
use std::io;
use std::marker::Model;

/// A data unit of which some pieces are in memory, and the others in its file alone.
///
/// Contracts see it as if all of it were in memory, and which of its pieces are.
#[derive(Drop)]
pub struct PiecedUnit {
    layout: Layout,
    len: usize,
    // What is kept of each piece.
    tree: Tree<Leaf>,
    pieces: Vec<Piece>,
    // Which pieces a painting changed: one for each, whatever they are before.
    marks: Vec<bool>,
    scans: Count,
    gone: GoneBytes,
}

impl Model for PiecedUnit {
    ghost use Rattle.std.specs.Prelude.{◌≡◌, length};
    ghost use Rattle.fits_pieces.specs.Pieces.{unit_of, ArePieces, PiecedState};

    ghost Value = { PiecedState };

    ghost view = { λ it. unit_of
        it.layout it.gone.bytes it.pieces.items it.scans.total it.tree.joins };

    ghost invariant = { λ it. record {
      are : ArePieces it.layout it.gone.bytes it.len it.pieces.items it.tree.leaves;
      marks : length it.marks.items ≡ length it.pieces.items;
    } };
}

impl PiecedUnit {
    ghost use Rattle.std.specs.Prelude.{◌≡◌, ◌≤◌, ◌<◌, ◌+◌, ◌-◌, ◌*◌, ◌^◌, drop, false, true, length, nat_eq, slice_index_or, unsigned_abs, IfErr, IfOk, IsErrOf, IsOk, OnErr, OnOk};
    ghost use Rattle.std.specs.List.{list_all};
    ghost use Rattle.fits_pixels.specs.Layout.{IsLayout};
    ghost use Rattle.fits_pixels.specs.Pixels.{pixels};
    ghost use Rattle.fits_pixels.specs.Statistics.{value_statistics};
    ghost use Rattle.fits_plane.specs.Painting.{Paints, Suits};
    ghost use Rattle.fits_plane.specs.Rectangle.{product, rectangle_size, rectangle_values, IsRectangle};
    ghost use Rattle.fits_stream.specs.Stream.{Prints, PrintsFront};
    ghost use Rattle.fits_sum.specs.Words.{word_total};
    ghost use Rattle.fits_pieces.specs.Piece.{piece_of, piece_size, pieces_in};
    ghost use Rattle.fits_pieces.specs.Pieces.{missing_pieces, unit_of, unit_statistics, ArePieces, HoldsRectangle, LoadsPiece};

    /// A data unit of such pieces.
    pub(crate) fn of(
        layout: Layout,
        len: usize,
        tree: Tree<Leaf>,
        pieces: Vec<Piece>,
        marks: Vec<bool>,
        scans: Count,
        gone: GoneBytes,
    ) -> PiecedUnit
        requires are { ArePieces layout gone.bytes len pieces.items tree.leaves }
        requires marks { length marks.items ≡ length pieces.items }
        ensures { result ≡ unit_of layout gone.bytes pieces.items scans.total tree.joins }
    {
        PiecedUnit {
            layout,
            len,
            tree,
            pieces,
            marks,
            scans,
            gone,
        }
    }

    pub fn layout(&self) -> Layout
        ensures value { result ≡ self.now.plane.layout }
        ensures fits { IsLayout result self.now.plane.bytes }
    {
        self.layout
    }

    /// How many bytes it has, with the fill.
    pub fn byte_len(&self) -> usize
        ensures value { result ≡ length self.now.plane.bytes }
        ensures passed { length self.now.passed ≡ length self.now.plane.bytes }
    {
        self.len
    }

    /// How many pieces it has.
    pub fn piece_count(&self) -> usize
        ensures held { result ≡ length self.now.held }
        ensures count { result ≡ pieces_in (length self.now.plane.bytes) }
    {
        self.pieces.len()
    }

    /// How many bytes a piece has.
    pub fn piece_len(&self, index: usize) -> usize
        requires { index < length self.now.held }
        ensures { result ≡ piece_size (length self.now.plane.bytes) index }
    {
        size_of_piece(self.len, index)
    }

    /// Whether a piece is in memory. One that isn't is as it passed by.
    pub fn is_held(&self, index: usize) -> bool
        requires { index < length self.now.held }
        ensures value { result ≡ slice_index_or self.now.held index false }
        ensures away { result ≡ false → piece_of self.now.plane.bytes index
            ≡ piece_of self.now.passed index }
    {
        self.pieces[index].is_held()
    }

    /// The total of the words of a piece, in memory or not.
    pub fn piece_total(&self, index: usize) -> u64
        requires { index < length self.now.held }
        ensures { result ≡ word_total (piece_of self.now.plane.bytes index) }
    {
        self.tree.leaf(index).second.total
    }

    /// Writes a piece that is in memory, or a prefix of it where a call failed.
    pub fn emit_piece<W: Sink>(&self, index: usize, sink: &mut W) -> io::Result<()>
        requires held { slice_index_or self.now.held index false ≡ true }
        ensures ok { OnOk result (Prints (piece_of self.now.plane.bytes index)
            (W.state sink.old) (W.state sink.new)) }
        ensures err { OnErr result (PrintsFront (piece_of self.now.plane.bytes index)
            (W.state sink.old) (W.state sink.new)) }
    {
        self.pieces[index].emit(sink)
    }

    /// The bytes of a piece that is in memory, to be copied or compared elsewhere. That isn't counted.
    pub fn piece_bytes(&self, index: usize) -> &[u8]
        requires held { slice_index_or self.now.held index false ≡ true }
        ensures { result.now ≡ piece_of self.now.plane.bytes index }
    {
        self.pieces[index].bytes()
    }

    /// Whether each byte of the fill is the one that it should be. All of it is in the last piece, which
    /// is in memory.
    pub fn fill_ok(&self) -> bool
        requires last { slice_index_or self.now.held
            (pieces_in (length self.now.plane.bytes) - 1) false ≡ true }
        requires within { 46080 * (pieces_in (length self.now.plane.bytes) - 1)
            ≤ self.now.plane.layout.used }
        ensures { result ≡ list_all (nat_eq self.now.plane.layout.fill)
            (drop self.now.plane.layout.used self.now.plane.bytes) }
    {
        let last = self.pieces.len() - 1;
        let from = self.layout.used - PIECE_LEN * last;
        ends_in(self.pieces[last].bytes(), from, self.layout.fill)
    }

    /// The statistics of its stored numbers.
    pub fn stats(&self) -> PixelSummary
        ensures { result ≡ unit_statistics self.now.plane }
    {
        self.tree.root().first
    }

    /// The statistics of its values, each a stored number and the offset.
    pub fn value_stats(&self, offset: i128) -> ValueSummary
        requires { unsigned_abs offset ≤ 2 ^ 63 }
        ensures { result ≡ value_statistics offset self.now.plane.layout.blank (pixels
            self.now.plane.layout.width self.now.plane.bytes 0 self.now.plane.layout.pixels) }
    {
        self.tree.root().first.with_offset(offset)
    }

    /// The total of its words, with the fill.
    pub fn total(&self) -> u64
        ensures { result ≡ word_total self.now.plane.bytes }
    {
        self.tree.root().second.total
    }

    /// Goes on with scans of its blocks that were counted before.
    pub fn go_on(&mut self, scans: Count)
        ensures { self.new ≡ record self.old {
          plane = record self.old.plane {
            scans = self.old.plane.scans + scans.total;
          };
        } }
    {
        self.scans.join(scans);
    }

    /// How often its blocks were scanned, its pixels read and nodes above its blocks joined. Its pieces
    /// are let go.
    pub fn into_work(self) -> PieceWork
        ensures scans { result.scans.total ≡ self.plane.scans }
        ensures reads { result.reads.total ≡ self.plane.reads }
        ensures joins { result.joins.total ≡ self.plane.joins }
    {
        let mut work = work_of_pieces(self.pieces);
        work.scans.join(self.scans);
        work.joins.join(self.tree.into_joins());
        work
    }

    /// Takes a piece into memory: these bytes, which are to be as many as passed by there, with the
    /// same statistics and the same total.
    pub fn load(&mut self, alloc: Global, index: usize, bytes: Vec<u8>) -> Result<(), PieceFault>
        requires within { index < length self.old.held }
        requires away { slice_index_or self.old.held index false ≡ false }
        ensures ok { OnOk result (LoadsPiece index bytes.items self.old self.new) }

        // Bytes that are the same are refused for want of memory alone.
        ensures err { OnErr result (self.new ≡ self.old) }
        ensures other_size { (length bytes.items
            ≡ piece_size (length self.old.plane.bytes) index → ⊥)
            → IsErrOf result PieceFault.Changed }
        ensures right { bytes.items ≡ piece_of self.old.plane.bytes index
            → IfErr result (λ why. why ≡ PieceFault.Memory) }
    {
        read_bytes(bytes.as_slice());
        let len = size_of_piece(self.len, index);
        let layout = layout_of_piece(self.layout, index);
        let known = self.tree.leaf(index);
        let piece = match take_piece(alloc, bytes, len, layout, known) {
            Ok(piece) => piece,
            Err(fault) => return Err(fault),
        };
        put(&mut self.pieces, index, piece);
        Ok(())
    }

    /// The pieces that have a pixel of a rectangle and aren't in memory, in order.
    ///
    /// Once each of them was loaded, the rectangle can be read and painted.
    pub fn missing(
        &self,
        alloc: Global,
        axes: &[u64],
        lo: &[u64],
        hi: &[u64],
    ) -> Result<Vec<usize>, AllocError>
        requires rectangle { IsRectangle axes.now lo.now hi.now }
        requires all { product axes.now ≡ self.now.plane.layout.pixels }
        ensures value { IfOk result (λ v. v.items ≡ missing_pieces
            axes.now lo.now hi.now self.now.plane.layout self.now.held) }

        // Where none is missing no memory is asked for.
        ensures at_once { HoldsRectangle axes.now lo.now hi.now
            self.now.plane.layout self.now.held → IsOk result }
    {
        find_missing(alloc, &self.pieces, &self.gone, self.layout, axes, lo, hi)
    }

    /// The values of a rectangle in file order, each its stored number and the offset. Its pieces are in
    /// memory.
    pub fn rect(
        &mut self,
        alloc: Global,
        axes: &[u64],
        lo: &[u64],
        hi: &[u64],
        offset: i128,
    ) -> Result<Vec<i128>, AllocError>
        requires rectangle { IsRectangle axes.now lo.now hi.now }
        requires all { product axes.now ≡ self.old.plane.layout.pixels }
        requires held { HoldsRectangle axes.now lo.now hi.now
            self.old.plane.layout self.old.held }
        requires offset { unsigned_abs offset ≤ 2 ^ 64 }
        ensures value { IfOk result (λ v. v.items
            ≡ rectangle_values self.old.plane.layout.width self.old.plane.bytes
            axes.now lo.now hi.now offset) }

        // Each of its pixels is read once. The memory is had before any is.
        ensures work { OnOk result (self.new ≡ record self.old {
          plane = record self.old.plane {
            reads = self.old.plane.reads + rectangle_size lo.now hi.now;
          };
        }) }
        ensures err { OnErr result (self.new ≡ self.old) }
    {
        let layout = self.layout;
        let size = rectangle_len(axes, lo, hi) as usize;
        let mut values = Vec::with_capacity(alloc, size)?;
        read_rows(
            &mut self.pieces,
            &self.gone,
            layout,
            &mut values,
            axes,
            lo,
            hi,
            offset,
        );
        Ok(values)
    }

    /// Gives the pixels of a rectangle the values of a paint, each less the offset. Its pieces are in
    /// memory. It takes no memory.
    pub fn paint_rect(&mut self, painting: &Painting)
        requires suits { Suits self.old.plane.layout painting.now }
        requires held { HoldsRectangle painting.now.axes.now painting.now.lo.now
            painting.now.hi.now self.old.plane.layout self.old.held }
        ensures painted { Paints painting.now self.old.plane self.new.plane }
        ensures passed { self.new.passed ≡ self.old.passed }
        ensures held { self.new.held ≡ self.old.held }
    {
        paint_pieces(
            &mut self.pieces,
            &mut self.marks,
            &mut self.tree,
            &self.gone,
            self.layout,
            painting,
        );
    }
}

/// Whether each byte from a place on is this one.
fn ends_in(bytes: &[u8], from: usize, byte: u8) -> bool
    requires { from ≤ length bytes.now }
    ensures { result ≡ list_all (nat_eq byte) (drop from bytes.now) }
{
    all_are(&bytes[from..], byte)
}

/// A piece of bytes, which are to have this length, and of which this is to be kept.
fn take_piece(
    alloc: Global,
    bytes: Vec<u8>,
    len: usize,
    layout: Layout,
    known: Leaf,
) -> Result<Piece, PieceFault>
    requires { length bytes.items ≡ len → IsLayout layout bytes.items }
    ensures taken { IfOk result (λ p. IsSomeAnd p (IsTaken layout bytes.items)) }
    ensures size { IfOk result (λ p. length bytes.items ≡ len) }
    ensures leaf { IfOk result (λ p. known ≡ bytes_leaf layout bytes.items) }
    ensures other_size { (length bytes.items ≡ len → ⊥)
        → IsErrAnd result (λ why. why ≡ PieceFault.Changed) }
    ensures right { length bytes.items ≡ len → known ≡ bytes_leaf layout bytes.items
        → IfErr result (λ why. why ≡ PieceFault.Memory) }
{
    if bytes.len() != len {
        return Err(PieceFault::Changed);
    }
    let Ok(blocks) = Blocks::of(alloc, bytes, layout) else {
        return Err(PieceFault::Memory);
    };
    if !are_same(blocks.leaf(), known) {
        return Err(PieceFault::Changed);
    }
    match Piece::held(alloc, blocks) {
        Ok(piece) => Ok(piece),
        Err(_) => Err(PieceFault::Memory),
    }
}

/// Puts a piece in its place.
fn put(pieces: &mut Vec<Piece>, index: usize, piece: Piece)
    requires { index < length pieces.old.items }
    ensures { pieces.new.items ≡ slice_set pieces.old.items index piece }
{
    pieces[index] = piece;
}
