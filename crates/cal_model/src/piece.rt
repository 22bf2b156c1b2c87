//! The rows of an object, cut into windows.
ghost use Rattle.std.specs.Prelude.{◌≡◌, length};

use crate::row::Row;
use cal_base::{Arc, List};

/// The rows of one object in one window.
#[derive(Drop)]
pub struct Piece {
    /// The object, named by the number of the journal's entry that made it.
    pub origin: u64,
    /// Window `w` has the days `64w` to `64w + 63`, counted from 1970-01-01.
    pub window: i32,
    /// Shared: a reply that is worked out from them keeps them, whatever becomes of the piece.
    pub rows: Arc<List<Row>>,
}

impl Piece {
    /// How many rows it has.
    pub fn row_count(&self) -> u64
        ensures { result ≡ length self.now.rows }
    {
        self.rows.len() as u64
    }
}
