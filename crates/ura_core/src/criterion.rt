//! What is sought among the items of a table, and the first item that meets it.

ghost use Rattle.std.specs.Prelude.{◌<◌, ◌^◌, ◌↔◌, IsTrue, IfSome, IfNone, length};
ghost use Rattle.list_words.specs.Lists.{Each, Some_of, IsFirst};
ghost use Rattle.ura_core.specs.Searched.{HasNoneBefore};

/// What is sought among items.
pub trait Criterion<T> {
    /// The criterion can be asked.
    ghost ready: { Self → Type 0 };

    /// It can be asked of the item.
    ghost known: { Self → T → Type 0 };

    /// The item meets it.
    ghost met: { Self → T → Type 0 };

    fn is_met(&self, item: &T) -> bool
        requires ready { ready self.now }
        requires known { known self.now item.now }
        ensures { IsTrue result ↔ met self.now item.now };
}

/// The place of the first item that meets the criterion, where none before the place `from` does.
pub fn first_met<T, C: Criterion<T>>(criterion: &C, items: &[T], from: u32) -> Option<u32>
    requires ready { C.ready criterion.now }
    requires known { Each (C.known criterion.now) items.now }
    requires few { length items.now < 2 ^ 32 }
    requires before { HasNoneBefore (C.met criterion.now) items.now from }
    ensures found { IfSome result (IsFirst (C.met criterion.now) items.now) }
    ensures none { IfNone result (¬ Some_of (C.met criterion.now) items.now) }
{
    for place in from..items.len() as u32 {
        if criterion.is_met(&items[place as usize]) {
            return Some(place);
        }
    }
    None
}

/// Whether some item meets the criterion, where none before the place `from` does.
pub fn some_met<T, C: Criterion<T>>(criterion: &C, items: &[T], from: u32) -> bool
    requires ready { C.ready criterion.now }
    requires known { Each (C.known criterion.now) items.now }
    requires few { length items.now < 2 ^ 32 }
    requires before { HasNoneBefore (C.met criterion.now) items.now from }
    ensures { IsTrue result ↔ Some_of (C.met criterion.now) items.now }
{
    first_met(criterion, items, from).is_some()
}
