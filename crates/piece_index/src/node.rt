//! A node of the slab: a piece and its four neighbours by number.

use cal_model::Piece;

/// A piece with the numbers of its neighbours: in the chain of all nodes by age, and in the chain
/// of its object's nodes, which goes by age too, the newest first.
#[derive(Drop)]
pub struct Node {
    pub piece: Piece,
    pub older: Option<usize>,
    pub newer: Option<usize>,
    pub previous: Option<usize>,
    pub next: Option<usize>,
}
