//! Lists of values that commas join.
ghost use Rattle.std.specs.Prelude.{◌≡◌, ◌<◌, ◌+◌, ◌^◌, ℕ, List, Option, Some, IfOk, IfErr, IsErrOf, length};
ghost use Rattle.cal_moment.specs.BadPlace.{IsIn, IsBadAt};
ghost use Rattle.cal_model.specs.Values.BadValues.{Reads};
ghost use Rattle.cal_model.specs.Values.RuleTexts.{list_of};
ghost use Rattle.ical_values.specs.Parts.{LacksComma};

use crate::cuts::first_piece;
use crate::fault::ValueFault;
use cal_base::List;
use cal_moment::Bad;
use std::alloc::Global;

/// A way to read the values of a list, each from its own text.
pub trait Items {
    type Value: Drop;

    ghost reads: { Self → List ℕ → Option Self.Value };

    /// Reads one value.
    fn read(&self, text: &[u8]) -> Result<Self::Value, Bad>
        ensures ok { IfOk result (λ value. reads self.now text.now ≡ Some value) }
        ensures bad { IfErr result (λ fault. IsBadAt (Reads (reads self.now)) text.now fault.place) };
}

/// Reads a list of values: at least one, with commas between them.
pub fn read_list<I: Items>(
    alloc: Global,
    text: &[u8],
    items: &I,
) -> Result<List<I::Value>, ValueFault>
    requires { (item : List ℕ) → IsIn (Reads (I.reads items.now)) item → LacksComma item }
    ensures ok { IfOk result (λ values. list_of (I.reads items.now) text.now ≡ Some values) }
    ensures bad { (place : ℕ) → IsErrOf result (ValueFault.Bad place) → IsBadAt (Reads (list_of (I.reads items.now))) text.now place }
{
    let mut values = List::new(alloc);
    let mut rest = Some(text);
    'items: while let Some(left) = rest {
        let (piece, behind) = first_piece(left, b',');
        match read_item(piece, text.len() - left.len(), items) {
            Ok(value) => values.push(value)?,
            Err(fault) => return Err(fault),
        }
        rest = behind;
    }
    Ok(values)
}

/// Reads a value whose text stands at a place.
fn read_item<I: Items>(text: &[u8], at: usize, items: &I) -> Result<I::Value, ValueFault>
    requires { at + length text.now < 2 ^ 64 }
    ensures ok { IfOk result (λ value. I.reads items.now text.now ≡ Some value) }
    ensures bad { (place : ℕ) → IsErrOf result (ValueFault.Bad place) → (own : ℕ) × (place ≡ at + own) × IsBadAt (Reads (I.reads items.now)) text.now own }
    ensures memory { IsErrOf result ValueFault.NoMemory → ⊥ }
{
    match items.read(text) {
        Ok(value) => Ok(value),
        Err(fault) => Err(ValueFault::Bad {
            place: at as u64 + fault.place,
        }),
    }
}
