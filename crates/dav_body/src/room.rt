//! How much of namespaces may still be copied.
ghost use Rattle.std.specs.Prelude.{◌≡◌, ◌+◌, OnOk};

use cal_base::NoMemory;

/// How many octets of namespaces are copied for each octet of a body.
///
/// Each element and each attribute has its namespace as its own, so a body of 1 MiB could ask for
/// 65 GB: one long namespace, and a hundred thousand elements in it. Such a body finds no memory.
pub const COPIES: usize = 64;

/// Takes so many octets from those that may still be copied.
pub fn take_room(room: &mut usize, octets: usize) -> Result<(), NoMemory>
    ensures { OnOk result (room.new + octets ≡ room.old) }
{
    if octets <= *room {
        *room -= octets;
        Ok(())
    } else {
        Err(NoMemory)
    }
}
