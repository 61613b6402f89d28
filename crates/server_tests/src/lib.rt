//! Tests of running nodes on loopback: what clients are told, hostile bytes, why a node doesn't run, and that all threads end.
#![tactic(auto)]

#[cfg(test)]
mod absent;
#[cfg(test)]
mod ask;
#[cfg(test)]
mod clients;
#[cfg(test)]
mod faults;
#[cfg(test)]
mod greetings;
#[cfg(test)]
mod held_sync;
#[cfg(test)]
mod hostile;
#[cfg(test)]
mod load;
#[cfg(test)]
mod nodes;
#[cfg(test)]
mod pages;
#[cfg(test)]
mod peers_file;
#[cfg(test)]
mod routes;
#[cfg(test)]
mod skips;
#[cfg(test)]
mod slow_peer;
#[cfg(test)]
mod two_nodes;
