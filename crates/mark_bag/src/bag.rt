//! The index.

ghost use Rattle.std.specs.Prelude.{ℕ, ◌≡◌, ◌<◌, ◌≤◌, [], ◌∷◌, ◌++◌, length, slice_get, Some, IfSome, IfNone, OnOk, OnErr};
ghost use Rattle.std.specs.Prelude.{vec_len, vec_capacity};
ghost use Rattle.mark_bag.specs.Index.{IsIndex};

use crate::NoMemory;
use crate::adding::add_to_groups;
use crate::finding::find_in_groups;
use crate::marks::{Accepts, Mark, Query};
use crate::node::Group;
use std::alloc::{AllocError, Global};
use std::marker::Model;

/// The most items of an index. Their numbers stay below `u32::MAX`.
const MOST: usize = 0xffff_fffe;

/// An index of items by their marks, which contracts see as the list of the marks in the order in which
/// they were put in. An item is the place of its mark in this list.
#[derive(Drop)]
pub struct Bag<M: Mark> {
    alloc: Global,
    marks: Vec<M>,
    groups: Vec<Group<M>>,
}

impl<M: Mark> Model for Bag<M> {
    ghost use Rattle.std.specs.Prelude.{List};

    ghost Value = { List M };

    ghost use Rattle.mark_bag.specs.Index.{IsIndex};

    ghost view = { λ bag. bag.marks.items };

    ghost invariant = { λ bag. IsIndex M.within bag.marks.items bag.groups.items };
}

/// Makes room for one more mark, with an eighth to spare.
fn make_room<M: Mark>(marks: &mut Vec<M>) -> Result<(), NoMemory>
    ensures same { marks.new.items ≡ marks.old.items }
    ensures room { OnOk result (vec_len marks.new < vec_capacity marks.new) }
{
    if marks.len() < marks.capacity() {
        return Ok(());
    }
    marks.reserve_exact(marks.len() / 8 + 8)
}

/// Adds an item with the mark.
fn add<M: Mark>(
    alloc: Global,
    marks: &mut Vec<M>,
    groups: &mut Vec<Group<M>>,
    mark: M,
) -> Result<(), NoMemory>
    requires { IsIndex M.within marks.old.items groups.old.items }
    ensures index { IsIndex M.within marks.new.items groups.new.items }
    ensures added { OnOk result (marks.new.items ≡ marks.old.items ++ mark ∷ []) }
    ensures kept { OnErr result (marks.new.items ≡ marks.old.items) }
{
    if marks.len() >= MOST {
        return Err(AllocError);
    }
    make_room(marks)?;
    let item = marks.len() as u32;
    add_to_groups(alloc, groups, marks, item, &mark)?;
    marks.push_reserved(mark);
    Ok(())
}

impl<M: Mark> Bag<M> {
    /// The index of no items.
    pub fn new(alloc: Global) -> Bag<M>
        ensures { result ≡ [] }
    {
        Bag {
            alloc,
            marks: Vec::new(alloc),
            groups: Vec::new(alloc),
        }
    }

    /// How many items there are.
    pub fn len(&self) -> u32
        ensures count { result ≡ length self.now }
        ensures few { length self.now ≤ 4294967294 }
    {
        self.marks.len() as u32
    }

    /// Puts in an item with the mark: its number is the count of those before. The error is want of memory,
    /// or that there are 4,294,967,294 items, and then all is as before.
    pub fn insert(&mut self, mark: M) -> Result<(), NoMemory>
        ensures added { OnOk result (self.new ≡ self.old ++ mark ∷ []) }
        ensures kept { OnErr result (self.new ≡ self.old) }
    {
        add(self.alloc, &mut self.marks, &mut self.groups, mark)
    }

    /// An item that the test accepts, whichever; none exactly where it accepts no item. Only items whose
    /// mark fits the query are tested, so the test may accept no other.
    pub fn find<Q: Query<M>, T: Accepts>(&self, query: &Q, test: &T) -> Option<u32>
        requires { (item : ℕ) (mark : M) → slice_get self.now item ≡ Some mark → T.accepts test.now item → Q.fits query.now mark }
        ensures found { IfSome result (λ item. (item < length self.now) × T.accepts test.now item) }
        ensures none { IfNone result ((item : ℕ) → item < length self.now → ¬ T.accepts test.now item) }
    {
        find_in_groups(&self.groups, &self.marks, query, test)
    }
}
