//! The nodes of a tree, in a list: leaves are written, and the nodes above them joined.
ghost use Rattle.std.specs.Prelude.{◌≡◌, ◌≤◌, ◌<◌, ◌*◌, ◌+◌, ◌-◌, ◌^◌, ◌⊎◌, ℕ, drop, take, length, slice_set, slice_index_or, IfOk, IfSome, replicate};
ghost use Rattle.fits_plane.specs.Tree.{IsTree, IsTreeBut, IsLeastPower, most_above, nodes_left};

use fits_pixels::Summary;
use fits_stream::Count;
use std::alloc::{AllocError, Global};

/// The least power of two that is not below a number.
pub(crate) fn power_from(used: usize) -> usize
    requires { used ≤ 2 ^ 62 }
    ensures power { IsLeastPower used result }
    ensures small { result ≤ 2 ^ 62 }
{
    let mut width = 1usize;
    while width < used {
        width *= 2;
    }
    width
}

/// So many units.
pub(crate) fn units_of<S: Summary>(alloc: Global, count: usize) -> Result<Vec<S>, AllocError>
    ensures { IfOk result (λ v. v.items ≡ replicate count S.empty) }
{
    let mut nodes = Vec::with_capacity(alloc, count)?;
    for i in 0..count {
        nodes.push(S::unit())?;
    }
    Ok(nodes)
}

/// Makes a node the join of its two children.
fn join_at<S: Summary>(nodes: &mut [S], place: usize, joins: &mut Count)
    requires { 2 * place + 1 < length nodes.old }
    ensures after { nodes.new ≡ slice_set nodes.old place
        (S.joined (slice_index_or nodes.old (2 * place) S.empty)
        (slice_index_or nodes.old (2 * place + 1) S.empty)) }
    ensures counted { joins.new.total ≡ joins.old.total + 1 }
{
    joins.tick();
    nodes[place] = nodes[2 * place].join(nodes[2 * place + 1]);
}

/// Joins the nodes above one place anew, up to where its path meets that of another.
pub(crate) fn climb<S: Summary>(
    nodes: &mut [S],
    width: usize,
    from: usize,
    to: usize,
    joins: &mut Count,
)
    requires tree { IsTreeBut S.empty S.joined S.fits width from nodes.old }
    requires some { 1 ≤ to }
    requires within { to < 2 * width }
    ensures tree { IsTreeBut S.empty S.joined S.fits width to nodes.new }
    ensures leaves { drop width nodes.new ≡ drop width nodes.old }
    ensures more { joins.old.total ≤ joins.new.total }
    ensures few { (d : ℕ) → width ≤ 2 ^ d → joins.new.total ≤ joins.old.total + most_above d from }
    ensures left { (h : ℕ) → width ≡ 2 ^ h → width ≤ from → from ≤ to → joins.new.total
        + nodes_left h (from - width) ≤ joins.old.total + nodes_left h (to - width) }
{
    let mut place = from;
    let mut other = to;
    while place > 1 {
        place /= 2;
        other /= 2;
        if place == other {
            return;
        }
        join_at(nodes, place, joins);
    }
}

/// Writes a leaf after another, whose path is joined anew up to where the two meet. Its place is
/// returned: the nodes above it are yet to be joined.
pub(crate) fn write_leaf<S: Summary>(
    nodes: &mut [S],
    width: usize,
    last: usize,
    index: usize,
    value: S,
    joins: &mut Count,
) -> usize
    requires tree { IsTreeBut S.empty S.joined S.fits width last nodes.old }
    requires leaf { (last ≡ 1) ⊎ (width ≤ last) }
    requires within { index < width }
    requires fits { S.fits value }
    ensures place { result ≡ width + index }
    ensures tree { IsTreeBut S.empty S.joined S.fits width result nodes.new }
    ensures leaves { drop width nodes.new ≡ slice_set (drop width nodes.old) index value }
    ensures more { joins.old.total ≤ joins.new.total }
    ensures few { (d : ℕ) → width ≤ 2 ^ d → joins.new.total ≤ joins.old.total + most_above d last }
    ensures left { (h : ℕ) → width ≡ 2 ^ h → last ≤ result → joins.new.total
        + nodes_left h (last - width) ≤ joins.old.total + nodes_left h index }
{
    let at = width + index;
    climb(nodes, width, last, at, joins);
    nodes[at] = value;
    at
}

/// Writes a leaf, and joins each node above it anew.
pub(crate) fn set_leaf<S: Summary>(
    nodes: &mut [S],
    width: usize,
    index: usize,
    value: S,
    joins: &mut Count,
)
    requires tree { IsTree S.empty S.joined S.fits width nodes.old }
    requires within { index < width }
    requires fits { S.fits value }
    ensures tree { IsTree S.empty S.joined S.fits width nodes.new }
    ensures leaves { drop width nodes.new ≡ slice_set (drop width nodes.old) index value }
    ensures more { joins.old.total ≤ joins.new.total }
    ensures few { (d : ℕ) → width ≤ 2 ^ d → joins.new.total ≤ joins.old.total + d }
{
    let at = write_leaf(nodes, width, 1, index, value, joins);
    climb(nodes, width, at, 1, joins);
}

/// Joins each node of a tree anew, from the leaves up.
pub(crate) fn join_all<S: Summary>(nodes: &mut [S], width: usize, joins: &mut Count)
    requires long { length nodes.old ≡ 2 * width }
    requires some { 1 ≤ width }
    requires fit { (k : ℕ) → width ≤ k → k < 2 * width
        → S.fits (slice_index_or nodes.old k S.empty) }
    requires top { S.fits (slice_index_or nodes.old 0 S.empty) }
    ensures tree { IsTree S.empty S.joined S.fits width nodes.new }
    ensures leaves { drop width nodes.new ≡ drop width nodes.old }
    ensures work { joins.new.total + 1 ≡ joins.old.total + width }
{
    let mut place = width;
    while place > 1 {
        place -= 1;
        join_at(nodes, place, joins);
    }
}

/// A tree of leaves, made in a list of units.
pub(crate) fn plant_tree<S: Summary>(nodes: &mut [S], width: usize, leaves: &[S], joins: &mut Count)
    requires blank { nodes.old ≡ replicate (width * 2) S.empty }
    requires some { 1 ≤ width }
    requires within { length leaves.now ≤ width }
    requires fit { (k : ℕ) → k < length leaves.now
        → S.fits (slice_index_or leaves.now k S.empty) }
    ensures tree { IsTree S.empty S.joined S.fits width nodes.new }
    ensures leaves { take (length leaves.now) (drop width nodes.new) ≡ leaves.now }
    ensures units { (k : ℕ) → length leaves.now ≤ k
        → slice_index_or nodes.new (width + k) S.empty ≡ S.empty }
    ensures work { joins.new.total + 1 ≡ joins.old.total + width }
{
    nodes[width..width + leaves.len()].copy_from_slice(leaves);
    join_all(nodes, width, joins);
}

/// Makes the first leaves what `leaf` answers at their places.
fn ask_leaves<S: Summary, F: Fn(usize) -> S + Drop>(
    nodes: &mut [S],
    width: usize,
    used: usize,
    leaf: &F,
)
    requires callable { (i : ℕ) → i < used → F.pre leaf.now i }
    requires long { length nodes.old ≡ 2 * width }
    requires within { used ≤ width }
    ensures long { length nodes.new ≡ length nodes.old }
    ensures asked { (k : ℕ) → k < used
        → F.post leaf.now k (slice_index_or nodes.new (width + k) S.empty) }
    ensures past { (k : ℕ) → width + used ≤ k
        → slice_index_or nodes.new k S.empty ≡ slice_index_or nodes.old k S.empty }
    ensures front { (k : ℕ) → k < width
        → slice_index_or nodes.new k S.empty ≡ slice_index_or nodes.old k S.empty }
{
    for i in 0..used {
        nodes[width + i] = leaf(i);
    }
}

/// Makes the first leaves of a tree what `leaf` answers at their places, and joins each node once.
pub(crate) fn plant_again<S: Summary, F: Fn(usize) -> S + Drop>(
    nodes: &mut [S],
    width: usize,
    used: usize,
    leaf: &F,
    joins: &mut Count,
)
    requires callable { (i : ℕ) → i < used → F.pre leaf.now i }
    requires fits { (i : ℕ) (x : S) → i < used → F.post leaf.now i x → S.fits x }
    requires tree { IsTree S.empty S.joined S.fits width nodes.old }
    requires some { 1 ≤ width }
    requires within { used ≤ width }
    ensures tree { IsTree S.empty S.joined S.fits width nodes.new }
    ensures asked { (k : ℕ) → k < used
        → F.post leaf.now k (slice_index_or nodes.new (width + k) S.empty) }
    ensures units { (k : ℕ) → used ≤ k
        → slice_index_or nodes.new (width + k) S.empty
        ≡ slice_index_or nodes.old (width + k) S.empty }
    ensures work { joins.new.total + 1 ≡ joins.old.total + width }
{
    ask_leaves(nodes, width, used, leaf);
    join_all(nodes, width, joins);
}
