//! Users grouped by their sets.

ghost use Rattle.std.specs.Prelude.{◌≡◌, ◌<◌, ◌^◌, List, length, IfOk, OnOk};
ghost use Rattle.list_words.specs.Lists.{Each};
ghost use Rattle.arbac_policy.specs.declared.profile.Profile.{Profile};
ghost use Rattle.profile_set.specs.Groups.{RiseBySet, IsGroup};
ghost use Rattle.profile_set.specs.Tallies as tallies;
ghost use Rattle.profile_set.specs.Tallies.{HasRoom};

use crate::NoMemory;
use arbac_policy::Profile;
use role_order::RoleSet;
use std::alloc::{AllocError, Global};

/// The profile with one user more.
fn with_one(profile: &Profile) -> Profile
    requires { HasRoom profile.now }
    ensures { result ≡ tallies.with_one profile.now }
{
    Profile {
        set: profile.set,
        most: Some(match profile.most {
            None => 1,
            Some(most) => most + 1,
        }),
    }
}

/// One user more, of this set.
fn add_member(profiles: &mut Vec<Profile>, set: &RoleSet) -> Result<(), AllocError>
    requires rise { RiseBySet profiles.old.items }
    requires room { Each HasRoom profiles.old.items }
    ensures { OnOk result (profiles.new.items ≡ tallies.with_member profiles.old.items set.now) }
{
    let at = profiles.partition_point(|profile| profile.set.before(set));
    if at < profiles.len() && !set.before(&profiles[at].set) {
        profiles[at] = with_one(&profiles[at]);
    } else {
        profiles.insert(
            at,
            Profile {
                set: *set,
                most: Some(1),
            },
        )?;
    }
    Ok(())
}

/// One profile for each different set of the members, in the order of sets, with the number of
/// members that have the set.
pub fn group(alloc: Global, members: &[RoleSet]) -> Result<Vec<Profile>, NoMemory>
    requires { length members.now < 2 ^ 32 }
    // What is made is the group.
    ensures group { IfOk result (λ profiles. IsGroup members.now profiles.items) }
    // Members have one group.
    ensures one { (left right : List Profile) → IsGroup members.now left → IsGroup members.now right → left ≡ right }
{
    let mut profiles = Vec::new(alloc);
    for member in members {
        add_member(&mut profiles, member)?;
    }
    Ok(profiles)
}
