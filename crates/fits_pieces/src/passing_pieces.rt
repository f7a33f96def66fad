ghost use Rattle.std.specs.Prelude.{◌≡◌, ◌≤◌, ◌<◌, ◌+◌, None, [], ◌∷◌, ◌++◌, length, min, replicate, IfOk, vec_len, vec_capacity};
ghost use Rattle.fits_pixels.specs.Layout.{IsLayout, block_count};
ghost use Rattle.fits_pieces.specs.Piece.{bytes_leaf};

use crate::blocks::marks_unset;
use crate::layouts::{PIECE_LEN, layout_of_piece};
use crate::piece::Piece;
use crate::pieced_unit::PiecedUnit;
use fits_card::BLOCK_LEN;
use fits_pixels::{Layout, Leaf, Summary, read_bytes, scan_block};
use fits_plane::Tree;
use fits_stream::{Count, GoneBytes};
use std::alloc::{AllocError, Global};
use std::marker::Model;

/// A data unit whose bytes pass by, piece after piece, each of which is let go.
///
/// Contracts see how all of its bytes are read, how many they are, and those that passed by so far.
#[derive(Drop)]
pub struct PassingPieces {
    layout: Layout,
    len: usize,
    leaves: Vec<Leaf>,
    scans: Count,
    gone: GoneBytes,
}

impl Model for PassingPieces {
    ghost use Rattle.std.specs.Prelude.{vec_capacity};
    ghost use Rattle.fits_pieces.specs.Passing.{HavePassed, PassingState};

    ghost Value = { PassingState };

    ghost view = { λ it. record { layout = it.layout; len = it.len; bytes = it.gone.bytes } };

    ghost invariant = { λ it. HavePassed it.layout it.len it.gone.bytes
        it.leaves.items (vec_capacity it.leaves) it.scans.total };
}

impl PassingPieces {
    ghost use Rattle.std.specs.Prelude.{◌≡◌, ◌≤◌, ◌<◌, ◌-◌, ◌^◌, ◌++◌, [], ℕ, false, length, min, replicate, IfOk};
    ghost use Rattle.fits_pixels.specs.Layout.{IsLayout, block_count};
    ghost use Rattle.fits_pieces.specs.Piece.{pieces_in};

    /// A data unit of so many bytes that are read so, of which nothing passed by yet.
    pub fn new(alloc: Global, layout: Layout, len: usize) -> Result<PassingPieces, AllocError>
        requires { IsLayout layout (replicate len 0) }
        ensures { IfOk result
            (λ it. it ≡ record { layout = layout; len = len; bytes = [] }) }
    {
        let pieces = len.div_ceil(PIECE_LEN);
        Ok(PassingPieces {
            layout,
            len,
            leaves: Vec::with_capacity(alloc, pieces)?,
            scans: Count::new(),
            gone: GoneBytes::none(),
        })
    }

    /// The next piece passes by, of sixteen blocks or what is left. Each of its blocks is scanned once.
    pub fn add(&mut self, piece: &[u8])
        requires more { length self.old.bytes < self.old.len }
        requires size { length piece.now ≡ min 46080 (self.old.len - length self.old.bytes) }
        ensures { self.new ≡ record self.old { bytes = self.old.bytes ++ piece.now } }
    {
        read_bytes(piece);
        let layout = layout_of_piece(self.layout, self.leaves.len());
        let leaf = scan_piece(piece, layout, &mut self.scans);
        keep(&mut self.leaves, leaf);
        self.gone.add(piece);
    }

    /// The unit, all of which passed by. No piece of it is in memory.
    pub fn end(self, alloc: Global) -> Result<PiecedUnit, AllocError>
        requires { length self.bytes ≡ self.len }
        ensures bytes { IfOk result (λ it. it.plane.bytes ≡ self.bytes) }
        ensures passed { IfOk result (λ it. it.passed ≡ self.bytes) }
        ensures layout { IfOk result (λ it. it.plane.layout ≡ self.layout) }
        ensures scans { IfOk result (λ it. it.plane.scans ≡ block_count self.bytes) }
        ensures reads { IfOk result (λ it. it.plane.reads ≡ 0) }
        ensures joins { IfOk result
            (λ it. (d : ℕ) → block_count self.bytes ≤ 2 ^ d → it.plane.joins ≤ 2 ^ d) }
        ensures held { IfOk result (λ it. it.held ≡ replicate (pieces_in self.len) false) }
    {
        let pieces = pieces_away(alloc, self.leaves.len())?;
        let marks = marks_unset(alloc, self.leaves.len())?;
        let tree = Tree::open(alloc, self.leaves)?;
        Ok(PiecedUnit::of(
            self.layout,
            self.len,
            tree,
            pieces,
            marks,
            self.scans,
            self.gone,
        ))
    }
}

/// What is kept of bytes that are read so. Each of their blocks is scanned once.
fn scan_piece(piece: &[u8], layout: Layout, scans: &mut Count) -> Leaf
    requires { IsLayout layout piece.now }
    ensures leaf { result ≡ bytes_leaf layout piece.now }
    ensures work { scans.new.total ≡ scans.old.total + block_count piece.now }
{
    read_bytes(piece);
    scans.add(piece.len() / BLOCK_LEN);
    let mut leaf = Leaf::unit();
    for k in 0..piece.len() / BLOCK_LEN {
        leaf = leaf.join(scan_block(piece, layout, k));
    }
    leaf
}

/// Puts what is kept of a piece behind the others, in room that is reserved.
fn keep(leaves: &mut Vec<Leaf>, leaf: Leaf)
    requires { vec_len leaves.old < vec_capacity leaves.old }
    ensures items { leaves.new.items ≡ leaves.old.items ++ leaf ∷ [] }
    ensures room { vec_capacity leaves.old ≤ vec_capacity leaves.new }
{
    let _ = leaves.push(leaf);
}

/// So many pieces, none of which is in memory.
fn pieces_away(alloc: Global, count: usize) -> Result<Vec<Piece>, AllocError>
    ensures { IfOk result (λ v. v.items ≡ replicate count None) }
{
    let mut pieces = Vec::with_capacity(alloc, count)?;
    for j in 0..count {
        pieces.push(Piece::away())?;
    }
    Ok(pieces)
}
