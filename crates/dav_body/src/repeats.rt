//! Whether something stands twice.
ghost use Rattle.std.specs.Prelude.{◌≡◌, IfOk};
ghost use Rattle.std.specs.Str.{bytes_eq};
ghost use Rattle.cal_base.specs.Xml.XmlScopes.{has_repeat};

use cal_base::{List, NameMap, NoMemory, Octets};
use std::alloc::Global;

/// Whether two of some texts are the same. The time grows with their number and its logarithm.
#[tactic(auto, using(crate::proofs::SeenTexts::repeats_after_nothing, crate::proofs::SeenTexts::repeats_after_seen, crate::proofs::SeenTexts::repeats_after_new))]
pub fn has_repeat(alloc: Global, texts: List<Octets>) -> Result<bool, NoMemory>
    ensures { IfOk result (λ repeats. repeats ≡ has_repeat bytes_eq texts) }
{
    let mut seen = NameMap::new(alloc);
    'texts: for text in texts.into_vec() {
        if seen.get(text.as_slice()).is_some() {
            return Ok(true);
        }
        seen.insert(text, true)?;
    }
    Ok(false)
}
