//! What the crates of tests share: comparisons, lines of texts, tables of cases and gates. Where
//! something is not as it should be, each answers a failure, which the test returns.
#![tactic(auto)]

mod case;
mod gates;
mod player;

pub use case::{Case, CaseError, cases, holds, same, same_text, says};
pub use gates::{HoldsFirst, comes, stays_away};
pub use player::{Player, TableLine, bears, lines_of, plays, plays_all, plays_cases};
