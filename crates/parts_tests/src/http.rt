//! What requests ask for, and the bytes of answers.

mod answers;
mod requests;
