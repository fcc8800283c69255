//! Choices of profiles, and where one isn't drawn.

ghost use Rattle.std.specs.Prelude.{◌≡◌, ◌<◌, ◌≤◌, ◌+◌, ◌^◌, length, take, slice_get, IfSome, IfNone};
ghost use Rattle.arbac_policy.specs.Goals.{IsDrawnChoice};
ghost use Rattle.profile_set.specs.Draws as draws;
ghost use Rattle.profile_set.specs.Draws.{AreFew, AreProfiles, IsFirstUndrawn, IsSpentAt, IsDrawnUntil};

use arbac_policy::Profile;

/// How many profiles one pass over a choice counts the uses of.
const BLOCK: usize = 1_024;

/// Whether the number is a profile that may be used once more.
fn has_left(profiles: &[Profile], number: u32, used: u32) -> bool
    ensures { result ≡ draws.has_left (slice_get profiles.now number) used }
{
    match profiles.get(number as usize) {
        None => false,
        Some(profile) => match profile.most {
            None => true,
            Some(most) => used < most,
        },
    }
}

/// The first place of the choice where no profile stands, and its length where there is none.
fn first_unknown(profiles: &[Profile], choice: &[u32]) -> usize
    ensures within { result ≤ length choice.now }
    ensures profiles { AreProfiles profiles.now (take result choice.now) }
    ensures spent { result < length choice.now → IsSpentAt profiles.now choice.now result }
{
    for at in 0..choice.len() {
        if choice[at] as usize >= profiles.len() {
            return at;
        }
    }
    choice.len()
}

/// The first place of the choice where a number of the block that begins here stands, and nothing is left
/// of it; the choice's length where there is none.
fn first_spent(profiles: &[Profile], choice: &[u32], from: usize) -> usize
    requires { length choice.now < 2 ^ 32 }
    ensures within { result ≤ length choice.now }
    ensures few { AreFew profiles.now from (from + BLOCK) (take result choice.now) }
    ensures spent { result < length choice.now → IsSpentAt profiles.now choice.now result }
{
    let mut used = [0_u32; BLOCK];
    for at in 0..choice.len() {
        let number = choice[at] as usize;
        if number < from || number - from >= BLOCK {
            continue;
        }
        if !has_left(profiles, choice[at], used[number - from]) {
            return at;
        }
        used[number - from] += 1;
    }
    choice.len()
}

/// The first place of the choice that isn't drawn, and its length where there is none. Each block of
/// profiles is counted in what the ones before leave of the choice.
fn drawn_until(profiles: &[Profile], choice: &[u32]) -> usize
    requires { length choice.now < 2 ^ 32 }
    ensures { IsDrawnUntil profiles.now choice.now result }
{
    let mut end = first_unknown(profiles, choice);
    for block in 0..profiles.len().div_ceil(BLOCK) {
        end = first_spent(profiles, &choice[..end], block * BLOCK);
    }
    end
}

/// The first place of the choice where no profile stands, or one that was used as often as its count
/// before. None where a population can be drawn by the choice.
pub fn undrawn(profiles: &[Profile], choice: &[u32]) -> Option<u32>
    requires { length choice.now < 2 ^ 32 }
    ensures within { IfSome result (λ place. place < length choice.now) }
    ensures first { IfSome result (IsFirstUndrawn profiles.now choice.now) }
    ensures refused { IfSome result (λ place. IsDrawnChoice profiles.now choice.now → ⊥) }
    ensures drawn { IfNone result (IsDrawnChoice profiles.now choice.now) }
{
    let end = drawn_until(profiles, choice);
    if end < choice.len() {
        Some(end as u32)
    } else {
        None
    }
}
