//! Words and lemmas on plain lists that the other crates share: no code.
#![tactic(auto)]
