//! Reading a source to its end.
ghost use Rattle.std.specs.Prelude.{◌≡◌, ℕ, ◌+◌, ◌<◌, ◌≤◌, ◌^◌, List, [], length, min, Some, IfOk, OnOk, IfSome, IsErrOf};
ghost use Rattle.cal_base.specs.World.Outside.{Rose, TakesUpTo, Goes};

use crate::failed::Failed;
use crate::list::Octets;
use crate::no_memory::NoMemory;
use crate::stream::Source;
use std::alloc::Global;

/// How many octets are asked for at a time.
const PIECE: usize = 65536;

/// Why a source was not read to its end.
#[derive(Debug, Clone, Copy, PartialEq, Eq)]
pub enum ReadEnd {
    /// A read failed, and was counted.
    Failed,
    /// The source has more octets than the limit.
    TooLong,
    /// There was no memory for the octets.
    NoMemory,
}

/// All that is left in a source, if it is at most `limit` octets.
///
/// Of a longer source one octet past the limit is read, and no more. Whatever the answer, what was
/// taken from the source is a front of what was left. A caller without a limit gives `u64::MAX`,
/// at which `TooLong` does not come.
pub fn read_up_to<S: Source>(alloc: Global, source: &mut S, limit: u64) -> Result<Octets, ReadEnd>
    ensures whole { IfOk result (λ octets. IfSome (S.left source.old) (λ all. octets ≡ all)) }
    ensures within { IfOk result (λ octets. length octets ≤ limit) }
    ensures ended { OnOk result (S.left source.new ≡ Some []) }
    ensures too_long { IsErrOf result ReadEnd.TooLong → IfSome (S.left source.old) (λ all. limit < length all) }
    ensures limited { IsErrOf result ReadEnd.TooLong → limit < 2 ^ 62 }
    ensures failed { IsErrOf result ReadEnd.Failed → Rose (S.faults source.old) (S.faults source.new) }
    ensures never_falls { S.faults source.old ≤ S.faults source.new }
    ensures taken { TakesUpTo (limit + 1) (S.left source.old) (S.left source.new) }
{
    let mut all = Octets::new(alloc);
    let Ok(mut piece) = make_piece(alloc) else {
        return Err(ReadEnd::NoMemory);
    };
    match read_all(source, piece.as_mut_slice(), limit, &mut all) {
        Ok(()) => Ok(all),
        Err(end) => Err(end),
    }
}

/// Puts all that is left in a source, if it is at most `limit` octets, into an empty list.
fn read_all<S: Source>(
    source: &mut S,
    piece: &mut [u8],
    limit: u64,
    all: &mut Octets,
) -> Result<(), ReadEnd>
    requires room { 0 < length piece.old }
    requires empty { all.old ≡ [] }
    ensures whole { OnOk result (IfSome (S.left source.old) (λ octets. all.new ≡ octets)) }
    ensures within { OnOk result (length all.new ≤ limit) }
    ensures ended { OnOk result (S.left source.new ≡ Some []) }
    ensures too_long { IsErrOf result ReadEnd.TooLong → IfSome (S.left source.old) (λ octets. limit < length octets) }
    ensures limited { IsErrOf result ReadEnd.TooLong → limit < 2 ^ 62 }
    ensures failed { IsErrOf result ReadEnd.Failed → Rose (S.faults source.old) (S.faults source.new) }
    ensures never_falls { S.faults source.old ≤ S.faults source.new }
    ensures taken { TakesUpTo (limit + 1) (S.left source.old) (S.left source.new) }
{
    'reading: loop {
        let room = wanted(limit - all.len() as u64, piece.len());
        if take_piece(source, &mut piece[..room], all)? == 0 {
            return Ok(());
        }
        if limit < all.len() as u64 {
            return Err(ReadEnd::TooLong);
        }
    }
}

/// How many octets are asked for: as many as fit, but no more than one past what is spare.
fn wanted(spare: u64, room: usize) -> usize
    ensures { result ≡ min (spare + 1) room }
{
    if spare < room as u64 {
        spare as usize + 1
    } else {
        room
    }
}

/// One read, whose octets go to the end of `all`.
fn take_piece<S: Source>(
    source: &mut S,
    piece: &mut [u8],
    all: &mut Octets,
) -> Result<usize, ReadEnd>
    requires { 0 < length piece.old }
    ensures taken { TakesUpTo (length piece.old) (S.left source.old) (S.left source.new) }
    ensures goes { IfOk result (λ n. Goes (S.left source.old) (S.left source.new) all.old all.new) }
    ensures longer { IfOk result (λ n. length all.new ≡ length all.old + n) }
    ensures within { IfOk result (λ n. n ≤ length piece.old) }
    ensures at_end { IfOk result (λ n. n ≡ 0 → S.left source.new ≡ Some []) }
    ensures allowed { IfOk result (λ n. n + S.allowance source.new ≤ S.allowance source.old) }
    ensures bounded { S.allowance source.old ≤ 2 ^ 62 }
    ensures failed { IsErrOf result ReadEnd.Failed → Rose (S.faults source.old) (S.faults source.new) }
    ensures too_long { ¬ IsErrOf result ReadEnd.TooLong }
    ensures never_falls { S.faults source.old ≤ S.faults source.new }
{
    let Ok(n) = source.read(piece) else {
        return Err(ReadEnd::Failed);
    };
    if all.extend_from_slice(&piece[..n]).is_err() {
        return Err(ReadEnd::NoMemory);
    }
    Ok(n)
}

/// A place for the octets of one read.
fn make_piece(alloc: Global) -> Result<Vec<u8>, NoMemory>
    ensures { IfOk result (λ piece. 0 < length piece.items) }
{
    match Vec::from_elem(alloc, 0u8, PIECE) {
        Ok(piece) => Ok(piece),
        Err(_) => Err(NoMemory),
    }
}
