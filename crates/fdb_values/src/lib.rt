//! Registers whose reads give values: when lines are explained, and by which order of the values.
#![tactic(auto)]

mod fits;
pub mod laws;
mod owners;
mod ranks;
mod standing;
mod verdict;
mod zones;

pub use fits::first_misfit;
pub use owners::first_shared;
pub use ranks::{ranked_lines, ranked_log};
pub use verdict::is_explained_by_value;
