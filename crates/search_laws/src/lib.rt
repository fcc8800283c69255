//! Laws of the search: rounds, what stays of them, and what each outcome shows.
//! Each function computes nothing; its clauses are the laws.
#![tactic(auto)]

mod beats;
mod outcomes;
mod pruning;
mod rounds;
mod rows;

pub use beats::{beats_laws, part_laws};
pub use outcomes::{closed_outcome_laws, found_outcome_laws, full_outcome_laws};
pub use pruning::{
    admin_laws, alike_laws, form_cover_laws, free_rows, left_out_laws, mark_laws, monotony_laws,
};
pub use rounds::round_laws;
pub use rows::{
    any_number_rows, beat_rows, candidate_rows, closed_rows, excluded_rows, found_rows, full_rows,
    least_choice_rows, no_profile_rows, no_user_rows, own_gift_rows, two_act_rows, two_goal_rows,
};
