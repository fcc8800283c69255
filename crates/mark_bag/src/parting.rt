//! Parting a full node in two.

ghost use Rattle.std.specs.Prelude.{◌≡◌, ◌<◌, ◌≤◌, length, IfOk, OnErr};
ghost use Rattle.mark_bag.specs.Nodes.{HaveOwn, IsParting, IsRegroupedAt};

use crate::NoMemory;
use crate::features::{Feature, most_even};
use crate::marks::Mark;
use crate::node::Node;
use std::alloc::Global;

/// Takes the parts with the feature out of the node, into one of their own. Each of both is full once it
/// has so many. The marks are those of the node's parts.
fn part_by<M: Mark, T: Drop>(
    alloc: Global,
    node: &mut Node<M, T>,
    marks: &[M],
    feature: &Feature,
    most: usize,
) -> Result<Node<M, T>, NoMemory>
    requires { length marks.now ≡ length node.old.parts.items }
    ensures kept { OnErr result (node.new ≡ node.old) }
    ensures parted { IfOk result (λ other. IsParting M.within node.old.parts.items marks.now node.new other) }
{
    let count = node.parts.len();
    let mut one = Node::with_room(alloc, &node.common, count, most)?;
    let mut other = Node::with_room(alloc, &node.common, count, most)?;
    while let Some(part) = node.parts.pop() {
        let mark = marks[node.parts.len()];
        if feature.is_in(&mark) {
            other.put(part, &mark);
        } else {
            one.put(part, &mark);
        }
    }
    *node = one;
    Ok(other)
}

/// Parts the node at the place, or lets it have more parts where no feature parts it. Each of two is full
/// once it has so many parts. The marks are those of the node's parts.
pub fn part_at<M: Mark, T: Drop>(
    alloc: Global,
    nodes: &mut Vec<Node<M, T>>,
    at: usize,
    marks: &[M],
    most: usize,
) -> Result<(), NoMemory>
    requires place { at < length nodes.old.items }
    requires marks { HaveOwn nodes.old.items at marks.now }
    ensures regrouped { IsRegroupedAt M.within nodes.old.items at marks.now nodes.new.items }
    ensures long { length nodes.old.items ≤ length nodes.new.items }
{
    let Some(feature) = most_even(marks) else {
        nodes[at].widen();
        return Ok(());
    };
    nodes.reserve(1)?;
    let other = part_by(alloc, &mut nodes[at], marks, &feature, most)?;
    nodes.push_reserved(other);
    Ok(())
}
