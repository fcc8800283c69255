//! The first word of a line.

ghost use Rattle.std.specs.Prelude.{ℕ, ◌≡◌};
ghost use Rattle.policy_text.specs.Lines as lines;

use cond_text::cut;
use text_lines::is;

/// What stands before the first space.
fn first_word(line: &[u8]) -> &[u8]
    ensures { result.now ≡ lines.first_word line.now }
{
    match cut(line, b' ') {
        Some((word, _)) => word,
        None => line,
    }
}

/// Whether the line is one of those that tell the role order.
#[tactic(auto, unfolding(crate::specs::Lines::is_order_line))]
pub fn is_order_line(line: &[u8]) -> bool
    ensures { result ≡ lines.is_order_line line.now }
{
    let word = first_word(line);
    is(word, "role") || is(word, "edge")
}
