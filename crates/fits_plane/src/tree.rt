ghost use Rattle.std.specs.Prelude.{◌≡◌, ◌≤◌, ◌<◌, ◌*◌, ◌+◌, ◌^◌, ℕ, length, replicate, slice_set, slice_index_or, IfOk, OnOk, OnErr};
ghost use Rattle.fits_pixels.specs.Summary.{all_joined};

use crate::nodes::{plant_again, plant_tree, power_from, set_leaf, units_of};
use fits_pixels::Summary;
use fits_stream::Count;
use std::alloc::{AllocError, Global};
use std::marker::Model;

/// A tree of summaries, seen as its leaves and the number of joins so far.
#[derive(Drop)]
pub struct Tree<S: Summary> {
    pub(crate) nodes: Vec<S>,
    // The least power of two that is not below `used`; from this place on the leaves stand.
    pub(crate) width: usize,
    pub(crate) used: usize,
    pub(crate) joins: Count,
}

impl<S: Summary> Model for Tree<S> {
    ghost use Rattle.std.specs.Prelude.{◌≡◌, ◌≤◌, ◌<◌, ◌+◌, ℕ, drop, take, slice_index_or};
    ghost use Rattle.fits_plane.specs.Tree.{TreeState, IsTree, IsLeastPower};

    ghost Value = { TreeState S };

    ghost view = { λ t. record {
      leaves = take t.used (drop t.width t.nodes.items);
      joins = t.joins.total;
    } };

    ghost invariant = { λ t. record {
      tree : IsTree S.empty S.joined S.fits t.width t.nodes.items;
      power : IsLeastPower t.used t.width;
      units : (k : ℕ) → t.used ≤ k → k < t.width
          → slice_index_or t.nodes.items (t.width + k) S.empty ≡ S.empty;
    } };
}

impl<S: Summary> Tree<S> {
    /// A tree of leaves, with a join for each node above them.
    pub fn open(alloc: Global, leaves: Vec<S>) -> Result<Tree<S>, AllocError>
        requires few { length leaves.items ≤ 2 ^ 62 }
        requires fit { (k : ℕ) → k < length leaves.items
            → S.fits (slice_index_or leaves.items k S.empty) }
        ensures leaves { IfOk result (λ t. t.leaves ≡ leaves.items) }
        ensures work { IfOk result (λ t. (d : ℕ) → length leaves.items ≤ 2 ^ d → t.joins ≤ 2 ^ d) }
    {
        let used = leaves.len();
        let width = power_from(used);
        let mut nodes = units_of(alloc, 2 * width)?;
        let mut joins = Count::new();
        plant_tree(nodes.as_mut_slice(), width, leaves.as_slice(), &mut joins);
        Ok(Tree {
            nodes,
            width,
            used,
            joins,
        })
    }

    /// A tree of so many units, which takes no join.
    pub fn units(alloc: Global, count: usize) -> Result<Tree<S>, AllocError>
        requires few { count ≤ 2 ^ 62 }
        ensures leaves { IfOk result (λ t. t.leaves ≡ replicate count S.empty) }
        ensures work { IfOk result (λ t. t.joins ≡ 0) }
    {
        let width = power_from(count);
        let nodes = units_of(alloc, 2 * width)?;
        Ok(Tree {
            nodes,
            width,
            used: count,
            joins: Count::new(),
        })
    }

    /// Takes the leaves of another, of which no node was joined. Its own joins are counted on.
    pub fn renew(&mut self, other: Tree<S>)
        requires { other.joins ≡ 0 }
        ensures leaves { self.new.leaves ≡ other.leaves }
        ensures work { self.new.joins ≡ self.old.joins }
    {
        let Tree {
            nodes,
            width,
            used,
            ..
        } = other;
        self.nodes = nodes;
        self.width = width;
        self.used = used;
    }

    /// How many nodes were joined. The leaves are let go.
    pub fn into_joins(self) -> Count
        ensures { result.total ≡ self.joins }
    {
        self.joins
    }

    /// Counts on from the joins of another.
    pub(crate) fn go_on(&mut self, joins: Count)
        ensures { self.new ≡ record self.old { joins = joins.total + self.old.joins } }
    {
        self.joins.join(joins);
    }

    /// The summaries of all leaves, joined in order.
    pub fn root(&self) -> S
        ensures { result ≡ all_joined S.empty S.joined self.now.leaves }
    {
        self.nodes[1]
    }

    /// The summary of one leaf.
    pub fn leaf(&self, index: usize) -> S
        requires { index < length self.now.leaves }
        ensures { result ≡ slice_index_or self.now.leaves index S.empty }
    {
        self.nodes[self.width + index]
    }

    /// Writes one leaf, and joins each node above it anew.
    pub fn set(&mut self, index: usize, value: S)
        requires within { index < length self.old.leaves }
        requires fits { S.fits value }
        ensures leaves { self.new.leaves ≡ slice_set self.old.leaves index value }
        ensures more { self.old.joins ≤ self.new.joins }
        ensures work { (d : ℕ) → length self.old.leaves ≤ 2 ^ d
            → self.new.joins ≤ self.old.joins + d }
    {
        set_leaf(
            self.nodes.as_mut_slice(),
            self.width,
            index,
            value,
            &mut self.joins,
        );
    }

    /// Makes leaf i what `leaf` answers at i, and joins each node once.
    ///
    /// Each leaf is asked for once.
    pub fn refresh<F: Fn(usize) -> S + Drop>(&mut self, leaf: F)
        requires callable { (i : ℕ) → i < length self.old.leaves → F.pre leaf i }
        requires fits { (i : ℕ) (x : S) → i < length self.old.leaves
            → F.post leaf i x → S.fits x }
        ensures long { length self.new.leaves ≡ length self.old.leaves }
        ensures each { (i : ℕ) → i < length self.old.leaves
            → F.post leaf i (slice_index_or self.new.leaves i S.empty) }
        ensures more { self.old.joins ≤ self.new.joins }
        ensures work { (d : ℕ) → length self.old.leaves ≤ 2 ^ d
            → self.new.joins ≤ self.old.joins + 2 ^ d }
    {
        plant_again(
            self.nodes.as_mut_slice(),
            self.width,
            self.used,
            &leaf,
            &mut self.joins,
        );
    }
}
