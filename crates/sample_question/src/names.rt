//! Names of the roles of a sample.

ghost use Rattle.std.specs.Prelude.{◌≡◌, ◌++◌, IfOk, string_bytes};
ghost use Rattle.std.specs.Fmt.{decimal};
ghost use Rattle.role_order.specs.Names.{texts};
ghost use Rattle.sample_question.specs.Samples.{role_names};

use crate::NoMemory;
use std::alloc::Global;

/// The letter with the number behind it.
fn numbered(alloc: Global, letter: &str, number: u32) -> Result<String, NoMemory>
    ensures { IfOk result (λ name. string_bytes name ≡ letter.now ++ decimal number) }
{
    format!(in alloc; "{letter}{number}")
}

/// `a`, and then `k0`, `x0`, `k1`, `x1` and so on, as many pairs as the size.
pub fn names(alloc: Global, size: u32) -> Result<Vec<String>, NoMemory>
    ensures { IfOk result (λ names. texts names.items ≡ role_names size) }
{
    let mut names = Vec::new(alloc);
    names.push(String::from_str(alloc, "a")?)?;
    for at in 0..size {
        let key = numbered(alloc, "k", at)?;
        let extra = numbered(alloc, "x", at)?;
        names.push(key)?;
        names.push(extra)?;
    }
    Ok(names)
}
