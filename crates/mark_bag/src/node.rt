//! Nodes of an index: parts and a mark that lies within the mark of each.

ghost use Rattle.std.specs.Prelude.{◌≡◌, ◌<◌, ◌≤◌, [], ◌∷◌, ◌++◌, length, IfOk, vec_len, vec_capacity};

use crate::NoMemory;
use crate::marks::Mark;
use std::alloc::Global;

/// Parts, and a mark that lies within the mark of each.
#[derive(Drop)]
pub struct Node<M, T> {
    pub common: M,
    pub parts: Vec<T>,
    /// With so many parts the node is full.
    pub most: usize,
}

/// Items by number.
pub type Leaf<M> = Node<M, u32>;

pub type Group<M> = Node<M, Leaf<M>>;

impl<M: Mark, T> Node<M, T> {
    /// A node without parts, and with room for so many.
    pub fn with_room(alloc: Global, mark: &M, room: usize, most: usize) -> Result<Self, NoMemory>
        ensures common { IfOk result (λ node. node.common ≡ mark.now) }
        ensures parts { IfOk result (λ node. node.parts.items ≡ []) }
        ensures room { IfOk result (λ node. room ≤ vec_capacity node.parts) }
    {
        let parts = Vec::with_capacity(alloc, room)?;
        Ok(Node {
            common: *mark,
            parts,
            most,
        })
    }

    pub fn is_full(&self) -> bool {
        self.parts.len() >= self.most
    }

    /// Lets a node that can't be parted have twice as many parts as it has.
    pub fn widen(&mut self)
        ensures common { self.new.common ≡ self.old.common }
        ensures parts { self.new.parts ≡ self.old.parts }
    {
        self.most = self.parts.len().saturating_mul(2);
    }

    /// Adds a part that has the mark.
    pub fn put(&mut self, part: T, mark: &M)
        requires { vec_len self.old.parts < vec_capacity self.old.parts }
        ensures parts { self.new.parts.items ≡ self.old.parts.items ++ part ∷ [] }
        ensures room { vec_capacity self.new.parts ≡ vec_capacity self.old.parts }
        ensures mark { M.within self.new.common mark.now }
        ensures kept { 0 < length self.old.parts.items → M.within self.new.common self.old.common }
    {
        self.common = if self.parts.is_empty() {
            *mark
        } else {
            self.common.common(mark)
        };
        self.parts.push_reserved(part);
    }
}

/// How well a node suits a mark.
#[derive(Drop)]
struct Rank {
    within: bool,
    weight: u32,
}

impl Rank {
    fn of<M: Mark>(common: &M, mark: &M) -> Rank {
        Rank {
            within: common.is_within(mark),
            weight: common.weight(),
        }
    }

    /// The heaviest common mark within the item's is best; else the lightest.
    fn beats(&self, other: &Rank) -> bool {
        match (self.within, other.within) {
            (true, true) => self.weight > other.weight,
            (false, false) => self.weight < other.weight,
            (within, _) => within,
        }
    }
}

/// The place of the node that suits the mark best.
pub fn nearest<M: Mark, T>(nodes: &[Node<M, T>], mark: &M) -> usize
    requires { 0 < length nodes.now }
    ensures { result < length nodes.now }
{
    let mut nearest = 0;
    let mut best = Rank::of(&nodes[0].common, mark);
    for (place, node) in nodes.iter().enumerate() {
        if best.within && node.common.weight() <= best.weight {
            continue;
        }
        let rank = Rank::of(&node.common, mark);
        if rank.beats(&best) {
            nearest = place;
            best = rank;
        }
    }
    nearest
}
