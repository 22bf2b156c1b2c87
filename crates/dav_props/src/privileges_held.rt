//! Sets of privileges as elements.
ghost use Rattle.std.specs.Prelude.{◌≡◌, ◌++◌, OnOk, length, take};
ghost use Rattle.cal_model.specs.Properties.PropertyValues.{bit_elements, held_elements};
ghost use Rattle.cal_model.specs.Refusals.RefusalReplies.{privileges_of};
ghost use Rattle.dav_props.specs.Contents.{bit_piece, bit_pieces, piece_where};

use crate::subjects::has_all;
use cal_base::{NoMemory, Octets};
use cal_model::privilege::{ALL, WRITE};

/// The privileges that have bits of their own, in the order in which they are listed.
const BITS: [u16; 9] = [1, 2, 4, 8, 16, 32, 64, 128, 256];

/// Appends an element for each privilege of a set, then for write and for all where they are held
/// whole (RFC 3744, 5.4).
pub(crate) fn push_held(set: u16, out: &mut Octets) -> Result<(), NoMemory>
    ensures text { OnOk result (out.new ≡ out.old ++ held_elements set) }
    ensures front { take (length out.old) out.new ≡ out.old }
{
    push_privileges(set, out)?;
    push_if_all(set, WRITE, b"<D:privilege><D:write/></D:privilege>", out)?;
    push_if_all(set, ALL, b"<D:privilege><D:all/></D:privilege>", out)
}

/// Appends an element where some bits are all in a set.
pub(crate) fn push_if_all(
    set: u16,
    bits: u16,
    element: &[u8],
    out: &mut Octets,
) -> Result<(), NoMemory>
    ensures text { OnOk result (out.new ≡ out.old ++ piece_where set bits element.now) }
    ensures front { take (length out.old) out.new ≡ out.old }
{
    if has_all(set, bits) {
        out.extend_from_slice(element)
    } else {
        Ok(())
    }
}

/// Appends an element for each privilege of a set.
pub(crate) fn push_privileges(set: u16, out: &mut Octets) -> Result<(), NoMemory>
    ensures text { OnOk result (out.new ≡ out.old ++ bit_elements set) }
    ensures front { take (length out.old) out.new ≡ out.old }
{
    push_bits(set, &BITS, out)
}

fn push_bits(set: u16, bits: &[u16], out: &mut Octets) -> Result<(), NoMemory>
    ensures text { OnOk result (out.new ≡ out.old ++ bit_pieces set bits.now) }
    ensures front { take (length out.old) out.new ≡ out.old }
{
    'bits: for bit in bits {
        push_if_held(set, *bit, out)?;
    }
    Ok(())
}

fn push_if_held(set: u16, bit: u16, out: &mut Octets) -> Result<(), NoMemory>
    ensures text { OnOk result (out.new ≡ out.old ++ bit_piece set bit) }
    ensures front { take (length out.old) out.new ≡ out.old }
{
    if has_all(set, bit) {
        out.extend_from_slice(element_of(bit))
    } else {
        Ok(())
    }
}

/// The element of the privilege that has this bit (RFC 3744, 3.1 to 3.10; RFC 4791, 6.1.1).
fn element_of(bit: u16) -> &'static [u8]
    ensures { result.now ≡ privileges_of bit }
{
    match bit {
        1 => b"<D:privilege><C:read-free-busy/></D:privilege>",
        2 => b"<D:privilege><D:read/></D:privilege>",
        4 => b"<D:privilege><D:write-content/></D:privilege>",
        8 => b"<D:privilege><D:write-properties/></D:privilege>",
        16 => b"<D:privilege><D:bind/></D:privilege>",
        32 => b"<D:privilege><D:unbind/></D:privilege>",
        64 => b"<D:privilege><D:read-acl/></D:privilege>",
        128 => b"<D:privilege><D:write-acl/></D:privilege>",
        256 => b"<D:privilege><D:read-current-user-privilege-set/></D:privilege>",
        _ => b"",
    }
}
