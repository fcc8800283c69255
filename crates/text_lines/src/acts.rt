//! Acts as lines write them.

ghost use Rattle.std.specs.Prelude.{◌≡◌, IfSome, IfNone};
ghost use Rattle.std.specs.Option.{option_map};
ghost use Rattle.text_lines.specs.Acts.{WrittenAct, IsWrittenAct, act_view, spell_act, kind_in, act_in};

use crate::numbers::number_of;
use crate::words::is;
use arbac_policy::ActKind;
use cond_text::{cut, name_of};

/// An act as a line writes it: administrator and target by place, from 0, and the role by its name.
#[derive(Clone, Copy)]
pub struct ActLine<'a> {
    pub kind: ActKind,
    pub admin: u32,
    pub target: u32,
    pub role: &'a str,
}

#[tactic(auto, unfolding(crate::specs::Acts::kind_in))]
fn kind_of(word: &[u8]) -> Option<ActKind>
    ensures { result ≡ kind_in word.now }
{
    if is(word, "assign") {
        Some(ActKind::Assign)
    } else if is(word, "weak") {
        Some(ActKind::Weak)
    } else if is(word, "strong") {
        Some(ActKind::Strong)
    } else {
        None
    }
}

#[tactic(auto, unfolding(crate::specs::Acts::act_in))]
fn read_act(text: &[u8]) -> Option<ActLine>
    ensures { option_map act_view result ≡ act_in text.now }
{
    let (kind, rest) = cut(text, b' ')?;
    let kind = kind_of(kind)?;
    let (admin, rest) = cut(rest, b' ')?;
    let admin = number_of(admin)?;
    let (target, role) = cut(rest, b' ')?;
    let target = number_of(target)?;
    let role = name_of(role)?;
    Some(ActLine {
        kind,
        admin,
        target,
        role,
    })
}

/// The act that the bytes behind `act ` write: `KIND ADMIN TARGET ROLE`, one space between.
///
/// KIND is `assign`, `weak` or `strong`; ADMIN and TARGET are numbers below 2^32; ROLE is a name,
/// whether a role has it or not.
pub fn act_of(bytes: &[u8]) -> Option<ActLine>
    ensures act { option_map act_view result ≡ act_in bytes.now }
    // The bytes spell it, and where there is none they spell no act.
    ensures found { IfSome result (λ act. IsWrittenAct (act_view act) × (spell_act (act_view act) ≡ bytes.now)) }
    ensures none { IfNone result ((act : WrittenAct) → IsWrittenAct act → ¬ (spell_act act ≡ bytes.now)) }
{
    read_act(bytes)
}
