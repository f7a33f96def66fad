//! What is kept of pieces that were painted, made anew.
ghost use Rattle.std.specs.Prelude.{◌≡◌, ◌≤◌, ◌<◌, ◌*◌, ◌+◌, ◌^◌, ℕ, None, Some, count_by, false, length, slice_index_or, true};
ghost use Rattle.fits_plane.specs.Leaves.{leaf_unit};
ghost use Rattle.fits_pieces.specs.Blocks.{PieceState};
ghost use Rattle.fits_pieces.specs.Painting.{RescansPieces};
ghost use Rattle.fits_pieces.specs.Piece.{bytes_leaf};
ghost use Rattle.fits_pieces.specs.Pieces.{AreFresh};

use crate::piece::Piece;
use fits_pixels::Leaf;
use fits_plane::Tree;

/// Scans the blocks that are yet to be scanned, and marks the pieces that had any.
pub(crate) fn rescan_pieces(pieces: &mut Vec<Piece>, marks: &mut Vec<bool>)
    requires { length marks.old.items ≡ length pieces.old.items }
    ensures { RescansPieces pieces.old.items pieces.new.items marks.new.items }
{
    for j in 0..pieces.len() {
        marks[j] = pieces[j].refresh();
    }
}

/// Makes the leaves of the pieces that are marked anew.
pub(crate) fn renew_leaves(tree: &mut Tree<Leaf>, pieces: &Vec<Piece>, marks: &[bool])
    requires long { length marks.now ≡ length tree.old.leaves }
    requires many { length pieces.now.items ≡ length tree.old.leaves }
    requires fresh { AreFresh pieces.now.items }
    ensures long { length tree.new.leaves ≡ length tree.old.leaves }
    ensures made { (j : ℕ) (it : PieceState) → slice_index_or marks.now j false ≡ true
        → slice_index_or pieces.now.items j None ≡ Some it
        → slice_index_or tree.new.leaves j leaf_unit ≡ bytes_leaf it.layout it.bytes }
    ensures kept { (j : ℕ) → slice_index_or marks.now j false ≡ false
        → slice_index_or tree.new.leaves j leaf_unit
        ≡ slice_index_or tree.old.leaves j leaf_unit }
    ensures more { tree.old.joins ≤ tree.new.joins }
    ensures few { (d : ℕ) → length tree.old.leaves ≤ 2 ^ d
        → tree.new.joins ≤ tree.old.joins + count_by (λ b. b) marks.now * d }
    ensures most { (d : ℕ) → length tree.old.leaves ≤ 2 ^ d
        → tree.new.joins + 1 ≤ tree.old.joins + 2 ^ d }
{
    tree.refresh_marked(marks, |j| pieces[j].leaf());
}
