//! Reading the entries of a list.

ghost use Rattle.std.specs.Prelude.{ℕ, List, Result};
ghost use Rattle.toml.specs.Data.{Data};
ghost use Rattle.toml.specs.View.{array_view, view};
ghost use Rattle.question_text.specs.Outcomes.{Fault};
ghost use Rattle.question_text.specs.Keys.{list_of, entries};
ghost use Rattle.question_text.specs.Answers.{Answers};

use crate::keys::entry_path;
use crate::question_error::QuestionError;
use std::alloc::Global;
use toml::Value;
use toml::value::Array;

/// What reads the entry at a path.
pub trait ReadEntry {
    type Entry: Drop;

    /// What the entry at a path comes to.
    ghost reads: { Self → List ℕ → Data → Result Self.Entry Fault → Type 0 };

    fn read(&self, alloc: Global, path: &str, value: &Value) -> Result<Self::Entry, QuestionError>
        ensures { Answers (λ entry. entry) (reads self.now path.now (view value.now)) result };
}

/// The entries of the list at the path, one after another.
pub fn each_entry<R: ReadEntry>(
    alloc: Global,
    reader: &R,
    path: &str,
    list: &Array,
) -> Result<Vec<R::Entry>, QuestionError>
    ensures { Answers (λ values. values.items) (entries (R.reads reader.now) path.now (list_of (array_view list.now))) result }
{
    let mut values = Vec::new(alloc);
    for (place, value) in list.iter().enumerate() {
        let at = entry_path(alloc, path, place)?;
        let entry = reader.read(alloc, at.as_str(), value)?;
        values.push(entry)?;
    }
    Ok(values)
}
