//! Cover tests that take no memory: whom each user covers, as the bits of a row.

ghost use Rattle.std.specs.Prelude.{◌≡◌, ◌↔◌, ◌<◌, ◌≤◌, ◌^◌, length, IsTrue};
ghost use Rattle.arbac_laws.specs.Needs.{Covers};
ghost use Rattle.arbac_laws.specs.Views.{needs_of};
ghost use Rattle.cert_needs.specs.Wanted.{needs_wanted};
ghost use Rattle.mask_match.specs.declared.TheConstants.{MOST_PLACES};
ghost use Rattle.cert_check.specs.CoverRows.{IsRow};

use cert_needs::{NeedUser, Wanted, covers_user};
use mask_match::{MOST_PLACES, all_placed};

/// The word with this bit alone.
fn bit(place: usize) -> u128
    requires { place < MOST_PLACES }
    ensures { result ≡ 2 ^ place }
{
    1 << place
}

/// Which of the others the user covers, as the bits of their places.
fn row_of(user: &NeedUser, others: &[Wanted]) -> u128
    requires { length others.now ≤ MOST_PLACES }
    ensures { IsRow user.now others.now result }
{
    let mut row = 0;
    for (place, other) in others.iter().enumerate() {
        if covers_user(user, other) {
            row = row | bit(place);
        }
    }
    row
}

/// Whether the users cover what is wanted of the others, where these are at most `MOST_PLACES`; where they are more, it says
/// no.
pub fn covers_few(users: &[NeedUser], others: &[Wanted]) -> bool
    ensures { IsTrue result ↔ ((length others.now ≤ MOST_PLACES) × Covers (needs_of users.now) (needs_wanted others.now)) }
{
    if others.len() > MOST_PLACES {
        return false;
    }
    if users.len() > others.len() {
        return false;
    }
    let mut rows = [0; MOST_PLACES];
    for (at, user) in users.iter().enumerate() {
        let row = row_of(user, others);
        if row == 0 {
            return false;
        }
        rows[at] = row;
    }
    all_placed(&rows[..users.len()])
}
