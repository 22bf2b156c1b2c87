//! Lines for the tests.

ghost use Rattle.std.specs.Prelude.{◌≡◌, length, IfOk};

use cal_base::{Line, List, Name, NoMemory, Octets, Param};
use std::alloc::Global;

/// A line of a name, parameters with one value each, and a value.
pub fn line(
    alloc: Global,
    name: &[u8],
    params: &[(&[u8], &[u8])],
    value: &[u8],
) -> Result<Line, NoMemory> {
    let mut list = List::new(alloc);
    for (param, value) in params {
        list.push(one_param(alloc, param, value)?)?;
    }
    Ok(Line {
        name: Name::of(alloc, name)?,
        params: list,
        value: Octets::of(alloc, value)?,
        raw: Octets::new(alloc),
    })
}

fn one_param(alloc: Global, name: &[u8], value: &[u8]) -> Result<Param, NoMemory> {
    let mut values = List::new(alloc);
    values.push(Octets::of(alloc, value)?)?;
    Ok(Param {
        name: Name::of(alloc, name)?,
        values,
    })
}

/// A list of names.
pub fn names(alloc: Global, texts: &[&[u8]]) -> Result<List<Octets>, NoMemory>
    ensures { IfOk result (λ list. length list ≡ length texts.now) }
{
    let mut list = List::new(alloc);
    for text in texts {
        list.push(Octets::of(alloc, text)?)?;
    }
    Ok(list)
}
