//! The feature that parts marks most evenly. Nothing that a query finds depends on it.

use crate::marks::Mark;

/// The binary digits of a count.
const DIGITS: usize = 16;

/// The most marks that are counted, as many as the digits tell.
const MOST_COUNTED: usize = 65_535;

/// A feature, as the one bit of a word.
#[derive(Clone, Copy)]
pub struct Feature {
    word: u32,
    bit: u128,
}

impl Feature {
    pub fn is_in<M: Mark>(&self, mark: &M) -> bool {
        mark.word(self.word) & self.bit != 0
    }
}

/// How many marks have each feature of a word.
#[derive(Drop)]
struct Tally {
    /// Bit `k` of `digits[j]` is digit `j` of the count of feature `k`, so one addition serves all.
    digits: [u128; DIGITS],
}

/// Features of a word that part marks alike.
#[derive(Drop)]
struct Parting {
    features: u128,
    /// How many marks the lesser side has.
    lesser: usize,
}

impl Tally {
    fn of<M: Mark>(marks: &[M], word: u32) -> Tally {
        let mut tally = Tally {
            digits: [0; DIGITS],
        };
        for mark in marks.iter().take(MOST_COUNTED) {
            tally.add(mark.word(word));
        }
        tally
    }

    fn add(&mut self, word: u128) {
        let mut carry = word;
        for digit in self.digits.iter_mut() {
            if carry == 0 {
                break;
            }
            let both = *digit & carry;
            *digit ^= carry;
            carry = both;
        }
    }

    /// The features that so many marks have.
    fn counted(&self, count: usize) -> u128 {
        let mut features = u128::MAX;
        let mut left = count;
        for digit in self.digits.iter() {
            features &= if left % 2 == 1 { *digit } else { !*digit };
            left /= 2;
        }
        features
    }

    /// The features that part so many marks most evenly, if the lesser side has more than `least`.
    fn most_even(&self, count: usize, least: usize) -> Option<Parting> {
        let half = count / 2;
        for step in 0..half.saturating_sub(least) {
            let lesser = half - step;
            let features = self.counted(lesser) | self.counted(count - lesser);
            if features != 0 {
                return Some(Parting { features, lesser });
            }
        }
        None
    }
}

/// The last bit that is set.
fn last_bit(bits: u128) -> u128 {
    if bits == 0 {
        0
    } else {
        bits & (bits ^ (bits - 1))
    }
}

/// The feature that parts the marks most evenly, if one parts them.
pub fn most_even<M: Mark>(marks: &[M]) -> Option<Feature> {
    let count = marks.len().min(MOST_COUNTED);
    let mut best = None;
    let mut least = 0;
    for word in 0..M::words() {
        let tally = Tally::of(marks, word);
        if let Some(parting) = tally.most_even(count, least) {
            least = parting.lesser;
            best = Some(Feature {
                word,
                bit: last_bit(parting.features),
            });
        }
    }
    best
}
