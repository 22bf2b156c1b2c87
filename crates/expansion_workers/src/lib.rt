//! Workers: they expand recurrence ahead of the requests, beside the sessions.
//!
//! Given: a pass of the lock round the book, and a gate. Gives: how many claims were published, came
//! too late or were given up. A worker claims a piece in one turn of the lock, expands it while it
//! holds no turn, and publishes it in a second one; it adds no entry, so no reply depends on it. Used
//! by: what runs the server, each worker in a thread.
#![tactic(auto)]

mod turns;
mod worker;

pub use worker::{Worked, work, work_on};
