//! The tests of `fdb_proxy`, `fdb_client` and `fdb_replay`. Without its tests this crate is empty.
#![tactic(auto)]

#[cfg(test)]
mod ample_memory;
#[cfg(test)]
mod client;
#[cfg(test)]
mod gated;
#[cfg(test)]
mod proxy;
#[cfg(test)]
mod refused_memory;
#[cfg(test)]
mod stand;
#[cfg(test)]
mod workload;
