//! Clients that speak HTTP: which order a request is, which response an answer is, and the listener.

mod gateway;
mod requests;
mod responses;
