//! Tags of properties as they are written. What is appended leaves what was there, also where memory
//! is wanting on the way.
ghost use Rattle.std.specs.Prelude.{◌≡◌, ◌++◌, ◌<◌, OnOk, length, take};
ghost use Rattle.multistatus.specs.PropertyTags.{opened, closed};

use cal_base::{NoMemory, Octets};
use dav_write::{push_end, push_name, push_own_declaration};

/// Appends the tag that opens the element of a property, without its end.
pub fn push_open(space: &[u8], name: &[u8], out: &mut Octets) -> Result<(), NoMemory>
    ensures text { OnOk result (out.new ≡ out.old ++ opened space.now name.now) }
    ensures front { take (length out.old) out.new ≡ out.old }
{
    out.push(b'<')?;
    push_name(space, name, out)?;
    push_own_declaration(space, out)
}

/// Closes the element whose tag has its end at a place: where nothing stands behind it, the element
/// is empty.
pub fn push_close(place: usize, space: &[u8], name: &[u8], out: &mut Octets) -> Result<(), NoMemory>
    requires { place < length out.old }
    ensures text { OnOk result (out.new ≡ closed place space.now name.now out.old) }
    ensures front { take place out.new ≡ take place out.old }
{
    if out.len() == place + 1 {
        out.truncate(place);
        out.extend_from_slice(b"/>")
    } else {
        push_end(space, name, out)
    }
}
