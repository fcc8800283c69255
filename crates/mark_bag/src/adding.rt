//! Adding an item to the groups of an index.

ghost use Rattle.std.specs.Prelude.{◌≡◌, ◌<◌, ◌≤◌, [], ◌∷◌, ◌++◌, length, IfOk, OnOk, OnErr};
ghost use Rattle.mark_bag.specs.Nodes.{HaveSameParts, HaveOneMore, AreBegun};
ghost use Rattle.mark_bag.specs.Index.{AreLeaves, AreGroups, IsGroup, IsInGroups, AreItems, HaveAll, AreOwn, AreCommons};

use crate::NoMemory;
use crate::marks::Mark;
use crate::node::{Group, Leaf, Node, nearest};
use crate::parting::part_at;
use std::alloc::Global;

/// A leaf with so many items is parted.
const MOST_ITEMS: usize = 16;

/// A group with so many leaves is parted.
const MOST_LEAVES: usize = 48;

/// The marks of the items.
fn own_marks<M: Mark>(alloc: Global, marks: &[M], items: &[u32]) -> Result<Vec<M>, NoMemory>
    requires { AreItems marks.now items.now }
    ensures { IfOk result (λ own. AreOwn marks.now items.now own.items) }
{
    let mut own = Vec::with_capacity(alloc, items.len())?;
    for item in items {
        own.push(marks[*item as usize])?;
    }
    Ok(own)
}

/// The common marks of the leaves.
fn commons<M: Mark>(alloc: Global, leaves: &[Leaf<M>]) -> Result<Vec<M>, NoMemory>
    ensures { IfOk result (λ own. AreCommons leaves.now own.items) }
{
    let mut own = Vec::with_capacity(alloc, leaves.len())?;
    for leaf in leaves {
        own.push(leaf.common)?;
    }
    Ok(own)
}

/// Adds a node without parts where there is no node.
fn begin<M: Mark, T: Drop>(
    alloc: Global,
    nodes: &mut Vec<Node<M, T>>,
    mark: &M,
    most: usize,
) -> Result<(), NoMemory>
    ensures begun { AreBegun nodes.old.items nodes.new.items }
    ensures some { OnOk result (0 < length nodes.new.items) }
{
    if !nodes.is_empty() {
        return Ok(());
    }
    let node = Node::with_room(alloc, mark, 0, most)?;
    nodes.push(node)?;
    Ok(())
}

/// Parts the leaf at the place.
fn part_leaf<M: Mark>(
    alloc: Global,
    leaves: &mut Vec<Leaf<M>>,
    at: usize,
    marks: &[M],
) -> Result<(), NoMemory>
    requires place { at < length leaves.old.items }
    requires leaves { AreLeaves M.within marks.now leaves.old.items }
    ensures leaves { AreLeaves M.within marks.now leaves.new.items }
    ensures same { HaveSameParts leaves.old.items leaves.new.items }
    ensures long { length leaves.old.items ≤ length leaves.new.items }
{
    let own = own_marks(alloc, marks, &leaves[at].parts)?;
    part_at(alloc, leaves, at, &own, MOST_ITEMS)
}

/// Parts the group at the place.
fn part_group<M: Mark>(
    alloc: Global,
    groups: &mut Vec<Group<M>>,
    at: usize,
    marks: &[M],
) -> Result<(), NoMemory>
    requires place { at < length groups.old.items }
    requires groups { AreGroups M.within marks.now groups.old.items }
    ensures groups { AreGroups M.within marks.now groups.new.items }
    ensures same { HaveSameParts groups.old.items groups.new.items }
    ensures long { length groups.old.items ≤ length groups.new.items }
{
    let own = commons(alloc, &groups[at].parts)?;
    part_at(alloc, groups, at, &own, MOST_LEAVES)
}

/// The place of the leaf that an item with the mark goes into. A full one is parted.
fn leaf_for<M: Mark>(
    alloc: Global,
    leaves: &mut Vec<Leaf<M>>,
    marks: &[M],
    mark: &M,
) -> Result<usize, NoMemory>
    requires { AreLeaves M.within marks.now leaves.old.items }
    ensures place { IfOk result (λ at. at < length leaves.new.items) }
    ensures leaves { AreLeaves M.within marks.now leaves.new.items }
    ensures same { HaveSameParts leaves.old.items leaves.new.items }
{
    begin(alloc, leaves, mark, MOST_ITEMS)?;
    let at = nearest(leaves, mark);
    if !leaves[at].is_full() {
        return Ok(at);
    }
    part_leaf(alloc, leaves, at, marks)?;
    Ok(nearest(leaves, mark))
}

/// The place of the group that an item with the mark goes into. A full one is parted.
fn group_for<M: Mark>(
    alloc: Global,
    groups: &mut Vec<Group<M>>,
    marks: &[M],
    mark: &M,
) -> Result<usize, NoMemory>
    requires { AreGroups M.within marks.now groups.old.items }
    ensures place { IfOk result (λ at. at < length groups.new.items) }
    ensures groups { AreGroups M.within marks.now groups.new.items }
    ensures same { HaveSameParts groups.old.items groups.new.items }
{
    begin(alloc, groups, mark, MOST_LEAVES)?;
    let at = nearest(groups, mark);
    if !groups[at].is_full() {
        return Ok(at);
    }
    part_group(alloc, groups, at, marks)?;
    Ok(nearest(groups, mark))
}

/// Adds the next item, which has the mark, to a leaf.
fn add_to_leaves<M: Mark>(
    alloc: Global,
    leaves: &mut Vec<Leaf<M>>,
    marks: &[M],
    item: u32,
    mark: &M,
) -> Result<(), NoMemory>
    requires next { item ≡ length marks.now }
    requires leaves { AreLeaves M.within marks.now leaves.old.items }
    ensures added { OnOk result (AreLeaves M.within (marks.now ++ mark.now ∷ []) leaves.new.items) }
    ensures more { OnOk result (HaveOneMore leaves.old.items item leaves.new.items) }
    ensures kept { OnErr result (AreLeaves M.within marks.now leaves.new.items) }
    ensures same { OnErr result (HaveSameParts leaves.old.items leaves.new.items) }
{
    let at = leaf_for(alloc, leaves, marks, mark)?;
    let leaf = &mut leaves[at];
    leaf.parts.reserve(1)?;
    leaf.put(item, mark);
    Ok(())
}

/// Adds the next item, which has the mark, to the group.
fn add_to_group<M: Mark>(
    alloc: Global,
    group: &mut Group<M>,
    marks: &[M],
    item: u32,
    mark: &M,
) -> Result<(), NoMemory>
    requires next { item ≡ length marks.now }
    requires group { IsGroup M.within marks.now group.old }
    ensures added { OnOk result (IsGroup M.within (marks.now ++ mark.now ∷ []) group.new) }
    ensures more { OnOk result (HaveOneMore group.old.parts.items item group.new.parts.items) }
    ensures kept { OnErr result (IsGroup M.within marks.now group.new) }
    ensures same { OnErr result (HaveSameParts group.old.parts.items group.new.parts.items) }
{
    group.common = group.common.common(mark);
    add_to_leaves(alloc, &mut group.parts, marks, item, mark)
}

/// Adds the next item, which has the mark, to a group.
pub fn add_to_groups<M: Mark>(
    alloc: Global,
    groups: &mut Vec<Group<M>>,
    marks: &[M],
    item: u32,
    mark: &M,
) -> Result<(), NoMemory>
    requires next { item ≡ length marks.now }
    requires groups { AreGroups M.within marks.now groups.old.items }
    ensures added { OnOk result (AreGroups M.within (marks.now ++ mark.now ∷ []) groups.new.items) }
    ensures all { HaveAll groups.old.items groups.new.items }
    ensures there { OnOk result (IsInGroups groups.new.items item) }
    ensures kept { OnErr result (AreGroups M.within marks.now groups.new.items) }
{
    let at = group_for(alloc, groups, marks, mark)?;
    add_to_group(alloc, &mut groups[at], marks, item, mark)
}
