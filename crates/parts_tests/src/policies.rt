//! What a server and a client of a node decide, and the words of commands and addresses.

mod access;
mod admission;
mod clients;
mod connection;
mod frames;
mod greetings;
mod identities;
mod last_asks;
mod peer_health;
mod received_frames;
mod retirement_check;
mod routes;
mod snapshot_timer;
mod speakers;
mod withheld;
mod words;
