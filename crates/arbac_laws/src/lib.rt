//! Laws of requirements: cover, conjuncts, pre-images, closed lists, normal forms and barriers.
//! Each function computes nothing; its clauses are the laws.
#![tactic(auto)]

mod barriers;
mod closed;
mod conjuncts;
mod cover;
mod goals;
mod listings;
mod normal_forms;
mod orders;
mod places;
mod pre_images;
mod recorded;
mod relevance;
mod rows;
mod serving;
mod sets;

pub use barriers::{barrier_laws, gain_laws};
pub use closed::closed_laws;
pub use conjuncts::conjunct_laws;
pub use cover::cover_laws;
pub use goals::goal_laws;
pub use listings::listing_laws;
pub use normal_forms::{form_place_laws, normal_laws};
pub use orders::order_laws;
pub use places::{deficient_laws, place_laws};
pub use pre_images::{backward_laws, forward_laws, obligation_laws};
pub use recorded::recorded_laws;
pub use relevance::relevance_laws;
pub use rows::{
    barrier_rows, closed_row, cover_rows, exclusive_rows, form_rows, gain_rows, listing_rows,
    obligation_rows, pair_rows, reached_row, recorded_row, relevance_rows, senior_rows,
    serving_rows, worked_rows,
};
pub use serving::serving_laws;
pub use sets::set_laws;
