//! Tests of the bytes of messages and frames, of the parts of a node, of what a server and a client of it decide, of requests
//! over HTTP, and of the words, folders and faults of programs, by the public calls alone.
#![tactic(auto)]

#[cfg(test)]
mod changes;
#[cfg(test)]
mod churn;
#[cfg(test)]
mod formats;
#[cfg(test)]
mod frames;
#[cfg(test)]
mod hellos;
#[cfg(test)]
mod http;
#[cfg(test)]
mod links;
#[cfg(test)]
mod objects;
#[cfg(test)]
mod openings;
#[cfg(test)]
mod policies;
#[cfg(test)]
mod program;
#[cfg(test)]
mod refusals;
#[cfg(test)]
mod sessions;
#[cfg(test)]
mod sets;
#[cfg(test)]
mod shown;
#[cfg(test)]
mod views;
#[cfg(test)]
mod web;
