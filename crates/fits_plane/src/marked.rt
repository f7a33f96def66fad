//! Leaves of a tree that are marked, made anew: the nodes above them are joined once.
ghost use Rattle.std.specs.Prelude.{◌≡◌, ◌≢◌, ◌≤◌, ◌<◌, ◌*◌, ◌+◌, ◌-◌, ◌^◌, ◌⊎◌, ℕ, Bool, true, false, count_by, drop, length, slice_index_or, if◌then◌else◌};
ghost use Rattle.fits_plane.specs.Tree.{most_above, nodes_left, IsLeastPower, IsTree, IsTreeBut};

use crate::nodes::{climb, write_leaf};
use crate::tree::Tree;
use fits_pixels::Summary;
use fits_stream::Count;

/// Makes leaf k what `leaf` answers, if it is marked, after another leaf was written. The place of the
/// last one is returned: the nodes above it are yet to be joined.
fn write_marked<S: Summary, F: Fn(usize) -> S + Drop>(
    nodes: &mut [S],
    width: usize,
    last: usize,
    k: usize,
    marked: bool,
    leaf: &F,
    joins: &mut Count,
) -> usize
    requires callable { F.pre leaf.now k }
    requires fits { (x : S) → F.post leaf.now k x → S.fits x }
    requires tree { IsTreeBut S.empty S.joined S.fits width last nodes.old }
    requires leaf { (last ≡ 1) ⊎ (width ≤ last) }
    requires within { k < width }
    ensures place { result ≡ (if marked then width + k else last) }
    ensures tree { IsTreeBut S.empty S.joined S.fits width result nodes.new }
    ensures made { marked ≡ true
        → F.post leaf.now k (slice_index_or (drop width nodes.new) k S.empty) }
    ensures kept { (i : ℕ) → (marked ≡ false) ⊎ (i ≢ k)
        → slice_index_or (drop width nodes.new) i S.empty
        ≡ slice_index_or (drop width nodes.old) i S.empty }
    ensures more { joins.old.total ≤ joins.new.total }
    ensures few { (d : ℕ) → width ≤ 2 ^ d → joins.new.total + most_above d result
        ≤ joins.old.total + most_above d last + (if marked then d else 0) }
    ensures left { (h : ℕ) → width ≡ 2 ^ h → last ≤ width + k → joins.new.total
        + nodes_left h (last - width) ≤ joins.old.total + nodes_left h (result - width) }
{
    if !marked {
        return last;
    }
    write_leaf(nodes, width, last, k, leaf(k), joins)
}

/// Makes each leaf that is marked what `leaf` answers. The place of the last one is returned: the
/// nodes above it are yet to be joined.
fn write_each_marked<S: Summary, F: Fn(usize) -> S + Drop>(
    nodes: &mut [S],
    width: usize,
    marks: &[bool],
    leaf: &F,
    joins: &mut Count,
) -> usize
    requires callable { (i : ℕ) → i < length marks.now → F.pre leaf.now i }
    requires fits { (i : ℕ) (x : S) → i < length marks.now → F.post leaf.now i x → S.fits x }
    requires tree { IsTree S.empty S.joined S.fits width nodes.old }
    requires some { 1 ≤ width }
    requires within { length marks.now ≤ width }
    ensures tree { IsTreeBut S.empty S.joined S.fits width result nodes.new }
    ensures made { (k : ℕ) → slice_index_or marks.now k false ≡ true
        → F.post leaf.now k (slice_index_or (drop width nodes.new) k S.empty) }
    ensures kept { (k : ℕ) → slice_index_or marks.now k false ≡ false
        → slice_index_or (drop width nodes.new) k S.empty
        ≡ slice_index_or (drop width nodes.old) k S.empty }
    ensures more { joins.old.total ≤ joins.new.total }
    ensures few { (d : ℕ) → width ≤ 2 ^ d → joins.new.total + most_above d result
        ≤ joins.old.total + count_by (λ b. b) marks.now * d }
    ensures left { (h : ℕ) → width ≡ 2 ^ h
        → joins.new.total ≤ joins.old.total + nodes_left h (result - width) }
{
    // No leaf is written yet, and above the root nothing is to be joined.
    let mut last = 1usize;
    for k in 0..marks.len() {
        last = write_marked(nodes, width, last, k, marks[k], leaf, joins);
    }
    last
}

impl<S: Summary> Tree<S> {
    /// Makes each leaf that is marked what `leaf` answers at its place, and joins each node above one
    /// of them once.
    pub fn refresh_marked<F: Fn(usize) -> S + Drop>(&mut self, marks: &[bool], leaf: F)
        requires long { length marks.now ≡ length self.old.leaves }
        requires callable { (i : ℕ) → i < length self.old.leaves → F.pre leaf i }
        requires fits { (i : ℕ) (x : S) → i < length self.old.leaves
            → F.post leaf i x → S.fits x }
        ensures long { length self.new.leaves ≡ length self.old.leaves }
        ensures made { (k : ℕ) → slice_index_or marks.now k false ≡ true
            → F.post leaf k (slice_index_or self.new.leaves k S.empty) }
        ensures kept { (k : ℕ) → slice_index_or marks.now k false ≡ false
            → slice_index_or self.new.leaves k S.empty
            ≡ slice_index_or self.old.leaves k S.empty }
        ensures more { self.old.joins ≤ self.new.joins }
        ensures few { (d : ℕ) → length self.old.leaves ≤ 2 ^ d
            → self.new.joins ≤ self.old.joins + count_by (λ b. b) marks.now * d }
        ensures most { (d : ℕ) → length self.old.leaves ≤ 2 ^ d
            → self.new.joins + 1 ≤ self.old.joins + 2 ^ d }
    {
        let nodes = self.nodes.as_mut_slice();
        let last = write_each_marked(nodes, self.width, marks, &leaf, &mut self.joins);
        climb(nodes, self.width, last, 1, &mut self.joins);
    }
}
