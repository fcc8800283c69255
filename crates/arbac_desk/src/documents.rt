//! Question documents.

ghost use Rattle.std.specs.Prelude.{◌≡◌, ◌↔◌, IsTrue};
ghost use Rattle.question_text.specs.declared.question_error.QuestionError.TheVariants as question_errors;

use question_text::QuestionError;

/// Whether the error is want of memory.
pub fn is_memory(error: &QuestionError) -> bool
    ensures { IsTrue result ↔ (error.now ≡ question_errors.Memory) }
{
    matches!(error, QuestionError::Memory)
}
