//! What may stand at a place of a condition.

ghost use Rattle.std.specs.Prelude.{◌≡◌};
ghost use Rattle.cond_text.specs.Grammar as grammar;

/// What is wanted at a place of a condition. An operand serves everywhere, a conjunction
/// wherever a condition does.
#[derive(Clone, Copy)]
pub enum Level {
    /// `any`, a name, `not` and a name, or a condition in parentheses.
    Operand,
    /// Operands with `and` between them.
    Conjunction,
    /// Conjunctions with `or` between them.
    Condition,
}

impl Level {
    /// Whether an `and` stands here without parentheses.
    pub fn takes_and(self) -> bool
        ensures { result ≡ grammar.takes_and self }
    {
        match self {
            Level::Operand => false,
            Level::Conjunction => true,
            Level::Condition => true,
        }
    }

    /// Whether an `or` stands here without parentheses.
    pub fn takes_or(self) -> bool
        ensures { result ≡ grammar.takes_or self }
    {
        match self {
            Level::Operand => false,
            Level::Conjunction => false,
            Level::Condition => true,
        }
    }
}
