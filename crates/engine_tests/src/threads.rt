//! Threads and the queue between them: whole turns, a full queue, held syncs, and many workers. They let go an engine and a
//! core by `drop`, through which the prover walks once, and not at each exit.

mod held_sync;
mod lives;
mod turns;
mod workers;
