//! Tests of the crates of the disk, of the engine over a site in memory, of the threads that hand events to it, and of a
//! first life, by public calls alone.
#![tactic(auto)]

#[cfg(test)]
mod checkpoints;
#[cfg(test)]
mod commits;
#[cfg(test)]
mod disk;
#[cfg(test)]
mod first_lives;
#[cfg(test)]
mod lives;
#[cfg(test)]
mod long_states;
#[cfg(test)]
mod openings;
#[cfg(test)]
mod parts;
#[cfg(test)]
mod puts;
#[cfg(test)]
mod refusals;
#[cfg(test)]
mod reopenings;
#[cfg(test)]
mod sites;
#[cfg(test)]
mod steps;
#[cfg(test)]
mod threads;
#[cfg(test)]
mod versions;
#[cfg(test)]
mod whole_life;
