//! What a program that runs a node has of its machine.

use std::sync::Wait;
use std::thread::Threads;
use std::time::Clock;

/// Memory, the standard streams, threads that may be left behind, waiting and a clock.
pub trait Machinery: AllocGlobal
    + Print
    + Eprint
    + Threads
    + Wait
    + Clock
    + Copy
    + Send
    + Drop
    + 'static {}

impl<R> Machinery for R
where
    R: AllocGlobal + Print + Eprint + Threads + Wait + Clock + Copy + Send + Drop + 'static,
{}
