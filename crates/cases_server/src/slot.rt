//! What a worker holds of a book.

use cal_book::{Claim, Expanded};

/// What a worker holds: nothing, a claim, or a claim with its rows.
#[derive(Drop)]
pub enum Slot {
    Empty,
    Claimed(Claim),
    Expanded(Expanded),
}

/// Lets go of what a worker held.
pub fn drop_slot(_slot: Slot) {}
