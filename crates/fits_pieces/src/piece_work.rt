ghost use Rattle.std.specs.Prelude.{◌≡◌};
ghost use Rattle.std.specs.List.{sum_by};
ghost use Rattle.fits_pieces.specs.Pieces.{joins_of, reads_of, scans_of};

use crate::piece::Piece;
use fits_stream::Count;

/// How many blocks of a data unit were scanned, of its pixels read and of the nodes above its blocks
/// joined.
#[derive(Drop)]
pub struct PieceWork {
    pub scans: Count,
    pub reads: Count,
    pub joins: Count,
}

impl PieceWork {
    ghost use Rattle.std.specs.Prelude.{◌≡◌, ◌+◌};

    /// None of these yet.
    pub(crate) fn none() -> PieceWork
        ensures scans { result.scans.total ≡ 0 }
        ensures reads { result.reads.total ≡ 0 }
        ensures joins { result.joins.total ≡ 0 }
    {
        PieceWork {
            scans: Count::new(),
            reads: Count::new(),
            joins: Count::new(),
        }
    }

    /// As often more as elsewhere.
    pub(crate) fn join(&mut self, other: PieceWork)
        ensures scans { self.new.scans.total ≡ self.old.scans.total + other.scans.total }
        ensures reads { self.new.reads.total ≡ self.old.reads.total + other.reads.total }
        ensures joins { self.new.joins.total ≡ self.old.joins.total + other.joins.total }
    {
        self.scans.join(other.scans);
        self.reads.join(other.reads);
        self.joins.join(other.joins);
    }
}

/// What was done on pieces since they are in memory. They are let go.
pub(crate) fn work_of_pieces(pieces: Vec<Piece>) -> PieceWork
    ensures scans { result.scans.total ≡ sum_by scans_of pieces.items }
    ensures reads { result.reads.total ≡ sum_by reads_of pieces.items }
    ensures joins { result.joins.total ≡ sum_by joins_of pieces.items }
{
    let mut work = PieceWork::none();
    for piece in pieces {
        work.join(piece.into_work());
    }
    work
}
