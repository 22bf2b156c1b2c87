//! Writing a whole piece.
ghost use Rattle.std.specs.Prelude.{◌≡◌, ℕ, ◌<◌, ◌≤◌, length, take, drop, OnOk, OnErr};
ghost use Rattle.cal_base.specs.World.Outside.{Rose, Adds};

use crate::failed::Failed;
use crate::stream::{Link, Sink};

/// Writes all of a piece. After a failure a front of it was written, and not all.
pub fn write_all<K: Sink>(sink: &mut K, piece: &[u8]) -> Result<(), Failed>
    ensures whole { OnOk result (Adds (K.written sink.old) piece.now (K.written sink.new)) }
    ensures front { (n : ℕ) × (n ≤ length piece.now) × Adds (K.written sink.old) (take n piece.now) (K.written sink.new) }
    ensures short { OnErr result ((n : ℕ) × (n < length piece.now) × Adds (K.written sink.old) (take n piece.now) (K.written sink.new)) }
    ensures failed { OnErr result (Rose (K.faults sink.old) (K.faults sink.new)) }
    ensures never_falls { K.faults sink.old ≤ K.faults sink.new }
{
    let mut done = 0;
    'writing: while done < piece.len() {
        done += sink.write(behind(piece, done))?;
    }
    Ok(())
}

/// Writes all of a piece to a link, of which nothing is read. After a failure a front of the piece
/// was written, and not all.
pub fn send_all<L: Link>(link: &mut L, piece: &[u8]) -> Result<(), Failed>
    ensures whole { OnOk result (Adds (L.written link.old) piece.now (L.written link.new)) }
    ensures front { (n : ℕ) × (n ≤ length piece.now) × Adds (L.written link.old) (take n piece.now) (L.written link.new) }
    ensures short { OnErr result ((n : ℕ) × (n < length piece.now) × Adds (L.written link.old) (take n piece.now) (L.written link.new)) }
    ensures left_kept { L.left link.new ≡ L.left link.old }
    ensures allowance_kept { L.allowance link.new ≡ L.allowance link.old }
    ensures failed { OnErr result (Rose (L.faults link.old) (L.faults link.new)) }
    ensures never_falls { L.faults link.old ≤ L.faults link.new }
{
    let mut done = 0;
    'sending: while done < piece.len() {
        done += link.write(behind(piece, done))?;
    }
    Ok(())
}

/// What lies behind a place.
pub(crate) fn behind(text: &[u8], place: usize) -> &[u8]
    requires { place ≤ length text.now }
    ensures { result.now ≡ drop place text.now }
{
    &text[place..]
}
