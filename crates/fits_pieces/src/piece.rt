ghost use Rattle.fits_pieces.specs.Painting.{Rescans};

use crate::blocks::Blocks;
use crate::piece_work::PieceWork;
use crate::reading;
use fits_pixels::{Leaf, Summary};
use fits_plane::Painting;
use fits_stream::Sink;
use std::alloc::{AllocError, Global};
use std::io;
use std::marker::Model;

/// Up to sixteen blocks of a data unit: in memory, or in its file alone.
#[derive(Drop)]
pub(crate) struct Piece {
    // In a place of its own, so that one that isn't in memory takes few bytes.
    blocks: Option<Box<Blocks>>,
}

impl Model for Piece {
    ghost use Rattle.std.specs.Prelude.{Option};
    ghost use Rattle.std.specs.Option.{option_map};
    ghost use Rattle.fits_pieces.specs.Blocks.{PieceState};

    ghost Value = { Option PieceState };

    ghost view = { λ it. option_map (λ b. b.value) it.blocks };
}

impl Piece {
    ghost use Rattle.std.specs.Prelude.{◌≡◌, ◌≤◌, ◌<◌, ◌+◌, ◌^◌, ◌++◌, None, Some, is_some, map, true, unsigned_abs, vec_len, vec_capacity, IfOk, IfSome, IsSomeAnd, OnErr, OnOk};
    ghost use Rattle.fits_stream.specs.Stream.{Prints, PrintsFront};
    ghost use Rattle.std.specs.List.{range_with_len};
    ghost use Rattle.fits_pieces.specs.Blocks.{IsFresh, PieceState};
    ghost use Rattle.fits_pieces.specs.Painting.{PaintsRun, RescansPiece, TakesRun};
    ghost use Rattle.fits_pieces.specs.Piece.{bytes_leaf};
    ghost use Rattle.fits_pieces.specs.Pieces.{joins_of, reads_of, scans_of};
    ghost use Rattle.fits_plane.specs.Rectangle.{value_at};

    /// One that isn't in memory.
    pub(crate) fn away() -> Piece
        ensures { result ≡ None }
    {
        Piece { blocks: None }
    }

    /// One that is.
    pub(crate) fn held(alloc: Global, blocks: Blocks) -> Result<Piece, AllocError>
        ensures { IfOk result (λ it. it ≡ Some blocks) }
    {
        Ok(Piece {
            blocks: Some(Box::new(alloc, blocks)?),
        })
    }

    pub(crate) fn is_held(&self) -> bool
        ensures { result ≡ is_some self.now }
    {
        self.blocks.is_some()
    }

    /// Reads a run of its pixels, where it is in memory, into room that is reserved, each with the
    /// offset.
    pub(crate) fn read_run(
        &mut self,
        values: &mut Vec<i128>,
        start: usize,
        count: usize,
        offset: i128,
    )
        requires held { IsSomeAnd self.old (λ it. start + count ≤ it.layout.pixels) }
        requires small { start + count < 2 ^ 62 }
        requires offset { unsigned_abs offset ≤ 2 ^ 64 }
        requires room { vec_len values.old + count ≤ vec_capacity values.old }
        ensures items { (it : PieceState) → self.old ≡ Some it
            → values.new.items ≡ values.old.items
            ++ map (value_at it.layout.width it.bytes offset) (range_with_len start count) }
        ensures len { vec_len values.new ≡ vec_len values.old + count }
        ensures room { vec_capacity values.old ≤ vec_capacity values.new }
        ensures work { (it : PieceState) → self.old ≡ Some it
            → self.new ≡ Some (record it { reads = it.reads + count }) }
    {
        match &mut self.blocks {
            Some(blocks) => reading::read_run(blocks, values, start, count, offset),
            None => unreachable!(),
        }
    }

    /// Paints a run of its pixels, where it is in memory. The first has this rank.
    pub(crate) fn paint_run(&mut self, start: usize, count: usize, painting: &Painting, rank: usize)
        requires some { 0 < count }
        requires takes { IsSomeAnd self.old (TakesRun painting.now start count rank) }
        ensures { (it : PieceState) → self.old ≡ Some it
            → IsSomeAnd self.new (PaintsRun painting.now start count rank it) }
    {
        match &mut self.blocks {
            Some(blocks) => blocks.paint_run(start, count, painting, rank),
            None => unreachable!(),
        }
    }

    /// Scans its blocks that are yet to be scanned, where it is in memory, and says whether there were
    /// any.
    pub(crate) fn refresh(&mut self) -> bool
        ensures { RescansPiece self.old self.new result }
    {
        match &mut self.blocks {
            Some(blocks) => refresh_blocks(blocks),
            None => false,
        }
    }

    /// What is kept of it, where it is in memory.
    pub(crate) fn leaf(&self) -> Leaf
        requires { IfSome self.now (λ it. IsFresh it.stale) }
        ensures { (it : PieceState) → self.now ≡ Some it
            → result ≡ bytes_leaf it.layout it.bytes }
    {
        match &self.blocks {
            Some(blocks) => blocks.leaf(),
            None => Leaf::unit(),
        }
    }

    /// What was done on it since it is in memory. It is let go.
    pub(crate) fn into_work(self) -> PieceWork
        ensures scans { result.scans.total ≡ scans_of self }
        ensures reads { result.reads.total ≡ reads_of self }
        ensures joins { result.joins.total ≡ joins_of self }
    {
        match self.blocks {
            Some(blocks) => Box::into_inner(blocks).into_work(),
            None => PieceWork::none(),
        }
    }

    /// Its bytes, where it is in memory.
    pub(crate) fn bytes(&self) -> &[u8]
        requires held { is_some self.now ≡ true }
        ensures { (it : PieceState) → self.now ≡ Some it → result.now ≡ it.bytes }
    {
        match &self.blocks {
            Some(blocks) => blocks.bytes(),
            None => unreachable!(),
        }
    }

    /// Writes its bytes, where it is in memory, or a prefix of them where a call failed.
    pub(crate) fn emit<W: Sink>(&self, sink: &mut W) -> io::Result<()>
        requires held { is_some self.now ≡ true }
        ensures ok { (it : PieceState) → self.now ≡ Some it
            → OnOk result (Prints it.bytes (W.state sink.old) (W.state sink.new)) }
        ensures err { (it : PieceState) → self.now ≡ Some it
            → OnErr result (PrintsFront it.bytes (W.state sink.old) (W.state sink.new)) }
    {
        match &self.blocks {
            Some(blocks) => blocks.emit(sink),
            None => unreachable!(),
        }
    }
}

// Scans blocks that are yet to be scanned, and says whether there were any.
fn refresh_blocks(blocks: &mut Blocks) -> bool
    ensures { Rescans blocks.old blocks.new result }
{
    if !blocks.is_stale() {
        return false;
    }
    blocks.refresh();
    true
}
