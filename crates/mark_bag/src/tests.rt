//! Thousands of items against a plain scan.

ghost use Rattle.std.specs.Prelude.{ℕ, ◌≡◌, Some, slice_get, bit_and, IfOk, IsTrue, ◌↔◌};

use super::*;
use std::alloc::{AllocError, Global};
use std::test::Fail;

/// A set of 64 features.
#[derive(Clone, Copy)]
struct Bits(u64);

impl Mark for Bits {
    ghost use Rattle.std.proofs.Common.{sym, ap, ◌∙◌};
    ghost use Rattle.std.specs.Int.Bits.{and_self};
    ghost use Rattle.std.proofs.lemmas.Nat.{and_assoc};

    ghost within = { λ a b. bit_and a.0 b.0 ≡ a.0 };

    ghost itself = { λ a. and_self a.0 };

    ghost through = { λ a b c p q. ap (λ x. bit_and x c.0) (sym p) ∙ and_assoc c.0 a.0 b.0 ∙ ap (λ x. bit_and a.0 x) q ∙ p };

    fn common(&self, other: &Bits) -> Bits {
        Bits(self.0 & other.0)
    }

    fn weight(&self) -> u32 {
        self.0.count_ones()
    }

    fn is_within(&self, other: &Bits) -> bool {
        self.0 & other.0 == self.0
    }

    fn words() -> u32 {
        1
    }

    fn word(&self, _place: u32) -> u128 {
        self.0 as u128
    }
}

/// Asks for the items all of whose features are among these.
#[derive(Drop)]
struct Among(Bits);

impl Query<Bits> for Among {
    ghost use Rattle.std.proofs.Common.{sym, ap, ◌∙◌};
    ghost use Rattle.std.proofs.lemmas.Nat.{and_assoc};

    ghost fits = { λ query mark. bit_and mark.0 query.0.0 ≡ mark.0 };

    ghost falls = { λ query a b p q. ap (λ x. bit_and x query.0.0) (sym p) ∙ and_assoc query.0.0 a.0 b.0 ∙ ap (λ x. bit_and a.0 x) q ∙ p };

    fn may_fit(&self, mark: &Bits) -> bool {
        mark.0 & self.0.0 == mark.0
    }
}

/// The items whose features are among some, and which have all of others.
#[derive(Clone, Copy)]
struct Between<'a> {
    marks: &'a [Bits],
    among: u64,
    all: u64,
}

impl Accepts for Between<'_> {
    ghost accepts = { λ test item. (mark : ℕ) × (slice_get test.marks.now item ≡ Some (record { 0 = mark }))
        × (bit_and mark test.among ≡ mark) × (bit_and test.all mark ≡ test.all) };

    fn accepts(&self, item: u32) -> bool {
        match self.marks.get(item as usize) {
            Some(mark) => mark.0 & self.among == mark.0 && self.all & mark.0 == self.all,
            None => false,
        }
    }
}

/// The next of a row of numbers without order.
fn next(number: u64) -> u64 {
    let mixed = number
        .wrapping_mul(6_364_136_223_846_793_005)
        .wrapping_add(1_442_695_040_888_963_407);
    mixed ^ (mixed >> 29)
}

/// Few features, one of eight on average.
fn few(number: u64) -> u64 {
    let other = next(number ^ 0x5555);
    number & other & next(other)
}

/// An index of so many items, and their marks in order.
fn filled(alloc: Global, count: u32) -> Result<(Bag<Bits>, Vec<Bits>), AllocError>
    ensures { IfOk result (λ both. both.0 ≡ both.1.items) }
{
    let mut bag = Bag::new(alloc);
    let mut marks = Vec::new(alloc);
    let mut number = 1;
    for _ in 0..count {
        number = next(number);
        // One of four has the same mark as others.
        let mark = Bits(if number % 4 == 0 { 0x11 } else { few(number) });
        bag.insert(mark)?;
        marks.push(mark)?;
    }
    Ok((bag, marks))
}

/// Whether the index finds an item exactly where a scan does.
fn agrees(bag: &Bag<Bits>, test: &Between) -> bool
    requires { bag.now ≡ test.now.marks.now }
{
    let found = bag.find(&Among(Bits(test.among)), test);
    let there = (0..bag.len()).any(|item| test.accepts(item));
    match found {
        Some(item) => there && test.accepts(item),
        None => !there,
    }
}

#[test]
fn finds_what_a_scan_finds(rt: HostRuntime) -> Result<(), Fail> {
    for count in [0, 1, 16, 17, 800, 5_000] {
        let (bag, marks) = filled(rt.alloc(), count)?;
        let mut number = 7;
        for _ in 0..100 {
            number = next(number);
            let test = Between {
                marks: &marks,
                among: number | next(number ^ 1),
                all: few(number) & next(number),
            };
            assert!(rt; agrees(&bag, &test));
        }
    }
    Ok(())
}

#[test]
fn proposes_equal_items(rt: HostRuntime) -> Result<(), Fail> {
    let (_, marks) = filled(rt.alloc(), 2_000)?;
    let mut table = Proposals::new(rt.alloc());
    for (item, mark) in marks.iter().enumerate() {
        table.put(next(mark.0), item as u32)?;
    }
    for mark in &marks {
        let test = Between {
            marks: &marks,
            among: mark.0,
            all: mark.0,
        };
        assert!(rt; table.propose(next(mark.0), &test).is_some());
        assert!(rt; table.propose(next(mark.0 ^ 1), &test).is_none());
    }
    Ok(())
}
