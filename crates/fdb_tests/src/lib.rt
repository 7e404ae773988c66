//! The tests of the crates below the GRV proxy: `fdb_history`, `fdb_chain`, `fdb_queue`, `fdb_live`,
//! and of `fdb_lines` what no program shows. Like those in the crate of tests above, they are of what
//! no clause says, by values from outside. What scripts, logs and calls from C show is tested there.
//!
//! Tests stand in crates of their own, so that no library is proved twice. Most are texts, one call
//! after another, that a small player for each subject plays when the test runs: a literal in the
//! code would be carried through the proof of its function. Without its tests this crate is empty.
#![tactic(auto)]

#[cfg(test)]
mod ample_memory;
#[cfg(test)]
mod audits;
#[cfg(test)]
mod chain;
#[cfg(test)]
mod live;
#[cfg(test)]
mod queue;
#[cfg(test)]
mod refused_memory;
#[cfg(test)]
mod words;
