//! What all requests of a session are answered with.

use privileges::Users;
use std::alloc::Global;
use turn_lock::{Keeps, TurnLock};

/// The runtime, the lock round the desk, the users, and the gate that is passed before a request is
/// answered from a look.
#[derive(Drop)]
pub(crate) struct Context<'a, R, B: Keeps, T> {
    pub(crate) rt: &'a R,
    pub(crate) alloc: Global,
    pub(crate) lock: &'a TurnLock<B>,
    pub(crate) users: &'a Users,
    pub(crate) gate: &'a T,
}
