//! A component that is open at a line.
use cal_base::{Line, List, Name, Node};

/// A component whose END has not come, with what stands in it so far.
#[derive(Drop)]
pub struct OpenComponent {
    /// The number of its BEGIN.
    pub begin: u32,
    pub name: Name,
    pub lines: List<Line>,
    pub children: List<Node>,
}
