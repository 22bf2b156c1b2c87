//! Octets that an implementation in memory still has to give.
ghost use Rattle.std.specs.Prelude.{◌≡◌, ◌==◌, ◌++◌, length, take, drop, min};
ghost use Rattle.cal_base.specs.World.Memory.{given_len, supply_behind};

use crate::list::Octets;
use crate::write_whole::behind;
use std::marker::Model;

/// What is left to read, and how many octets of it may still be given.
#[derive(Drop)]
pub(crate) struct OctetSupply {
    octets: Octets,
    place: usize,
    allowed: u64,
}

impl Model for OctetSupply {
    ghost use Rattle.std.specs.Prelude.{drop, length, ◌≤◌};
    ghost use Rattle.cal_base.specs.World.Memory.{Supply};

    ghost Value = { Supply };

    ghost view = { λ s. record { rest = drop s.place s.octets; allowance = s.allowed } };

    ghost invariant = { λ s. s.place ≤ length s.octets };
}

impl OctetSupply {
    /// All of the octets, of which so many may be given.
    pub(crate) fn new(octets: Octets, allowance: u64) -> OctetSupply
        ensures { result ≡ record { rest = octets; allowance = allowance } }
    {
        OctetSupply {
            octets,
            place: 0,
            allowed: allowance,
        }
    }

    /// Whether nothing more may be given.
    pub(crate) fn is_spent(&self) -> bool
        ensures { result ≡ (self.now.allowance == 0) }
    {
        self.allowed == 0
    }

    /// Gives as many octets as there are, as fit and as are allowed; the rest of the place stays.
    pub(crate) fn give(&mut self, into: &mut [u8]) -> usize
        ensures count { result ≡ given_len self.old (length into.old) }
        ensures octets { into.new ≡ take result self.old.rest ++ drop result into.old }
        ensures after { self.new ≡ supply_behind self.old result }
    {
        let n = copy_front(
            behind(self.octets.as_slice(), self.place),
            into,
            self.allowed,
        );
        self.place += n;
        self.allowed -= n as u64;
        n
    }
}

/// Copies as many octets as there are, as fit and as are allowed.
fn copy_front(from: &[u8], into: &mut [u8], most: u64) -> usize
    ensures count { result ≡ min (length into.old) (min (length from.now) most) }
    ensures octets { into.new ≡ take result from.now ++ drop result into.old }
{
    let available = (from.len() as u64).min(most);
    let n = (into.len() as u64).min(available) as usize;
    into[..n].copy_from_slice(&from[..n]);
    n
}
