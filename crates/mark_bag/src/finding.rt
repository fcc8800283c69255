//! Finding an item in the groups of an index.

ghost use Rattle.std.specs.Prelude.{ℕ, ◌<◌, length, IfSome, IfNone};
ghost use Rattle.list_words.specs.Lists.{IsOneOf};
ghost use Rattle.mark_bag.specs.Nodes.{IsPartOf};
ghost use Rattle.mark_bag.specs.Index.{AreItems, AreLeaves, AreGroups, IsInGroups, IsHit};

use crate::marks::{Accepts, Mark, Query};
use crate::node::{Group, Leaf};

/// One of the items whose mark fits and which the test accepts.
fn find_in_items<M: Mark, Q: Query<M>, T: Accepts>(
    items: &[u32],
    marks: &[M],
    query: &Q,
    test: &T,
) -> Option<u32>
    requires { AreItems marks.now items.now }
    ensures found { IfSome result (λ item. (item < length marks.now) × T.accepts test.now item) }
    ensures none { IfNone result ((item : ℕ) → IsOneOf items.now item → ¬ IsHit (Q.fits query.now) (T.accepts test.now) marks.now item) }
{
    for item in items {
        if query.may_fit(&marks[*item as usize]) && test.accepts(*item) {
            return Some(*item);
        }
    }
    None
}

/// One in the leaves. A leaf whose common mark doesn't fit is passed over.
fn find_in_leaves<M: Mark, Q: Query<M>, T: Accepts>(
    leaves: &[Leaf<M>],
    marks: &[M],
    query: &Q,
    test: &T,
) -> Option<u32>
    requires { AreLeaves M.within marks.now leaves.now }
    ensures found { IfSome result (λ item. (item < length marks.now) × T.accepts test.now item) }
    ensures none { IfNone result ((item : ℕ) → IsPartOf leaves.now item → ¬ IsHit (Q.fits query.now) (T.accepts test.now) marks.now item) }
{
    for leaf in leaves {
        let fits = query.may_fit(&leaf.common);
        if fits {
            if let Some(item) = find_in_items(&leaf.parts, marks, query, test) {
                return Some(item);
            }
        }
    }
    None
}

/// One in the groups. A group whose common mark doesn't fit is passed over.
pub fn find_in_groups<M: Mark, Q: Query<M>, T: Accepts>(
    groups: &[Group<M>],
    marks: &[M],
    query: &Q,
    test: &T,
) -> Option<u32>
    requires { AreGroups M.within marks.now groups.now }
    ensures found { IfSome result (λ item. (item < length marks.now) × T.accepts test.now item) }
    ensures none { IfNone result ((item : ℕ) → IsInGroups groups.now item → ¬ IsHit (Q.fits query.now) (T.accepts test.now) marks.now item) }
{
    for group in groups {
        let fits = query.may_fit(&group.common);
        if fits {
            if let Some(item) = find_in_leaves(&group.parts, marks, query, test) {
                return Some(item);
            }
        }
    }
    None
}
