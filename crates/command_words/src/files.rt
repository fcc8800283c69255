//! Names of files.

ghost use Rattle.std.specs.Prelude.{◌↔◌, IsTrue, map};
ghost use Rattle.list_words.specs.Lists.{Each};
ghost use Rattle.command_words.specs.Words.{IsFileName};

/// Whether the word may name a file: an empty word doesn't, nor one that begins with `-`.
pub fn is_file_name(word: &str) -> bool
    ensures { IsTrue result ↔ IsFileName word.now }
{
    match word.as_bytes() {
        [] => false,
        [first, ..] => *first != b'-',
    }
}

/// Whether each of the words may.
pub fn are_file_names(words: &[&str]) -> bool
    ensures { IsTrue result ↔ Each IsFileName (map (λ word. word.now) words.now) }
{
    for &word in words {
        if !is_file_name(word) {
            return false;
        }
    }
    true
}
