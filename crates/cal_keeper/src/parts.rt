//! Parts of a payload, read from the front of octets.
ghost use Rattle.std.specs.Prelude.{◌≡◌, ℕ, ◌<◌, ◌≤◌, ◌^◌, ◌++◌, ◌∷◌, length, IsNone, IfSome};
ghost use Rattle.std.specs.Int.{w16, w32, w64, to_be_bytes};
ghost use Rattle.cal_keeper.specs.Steps.Decoding.{HasNo, IsAny};
ghost use Rattle.cal_keeper.specs.Files.Payloads.{name_text, long_text, IsName};

use cal_model::is_resource_name;

/// A number of two octets, and what stands behind it.
pub(crate) fn u16_at(octets: &[u8]) -> Option<(u16, &[u8])>
    ensures found { IfSome result (λ found. octets.now ≡ to_be_bytes w16 found.0 ++ found.1.now) }
    ensures small { IfSome result (λ found. found.0 < 2 ^ 16) }
    ensures short { IsNone result → length octets.now < 2 }
{
    if octets.len() < 2 {
        return None;
    }
    let (front, rest) = octets.split_at(2);
    Some((u16::from_be_bytes([front[0], front[1]]), rest))
}

/// A number of four octets, and what stands behind it.
pub(crate) fn u32_at(octets: &[u8]) -> Option<(u32, &[u8])>
    ensures found { IfSome result (λ found. octets.now ≡ to_be_bytes w32 found.0 ++ found.1.now) }
    ensures small { IfSome result (λ found. found.0 < 2 ^ 32) }
    ensures short { IsNone result → length octets.now < 4 }
{
    if octets.len() < 4 {
        return None;
    }
    let (front, rest) = octets.split_at(4);
    let number = u32::from_be_bytes([front[0], front[1], front[2], front[3]]);
    Some((number, rest))
}

/// A number of eight octets, and what stands behind it.
pub(crate) fn u64_at(octets: &[u8]) -> Option<(u64, &[u8])>
    ensures found { IfSome result (λ found. octets.now ≡ to_be_bytes w64 found.0 ++ found.1.now) }
    ensures small { IfSome result (λ found. found.0 < 2 ^ 64) }
    ensures short { IsNone result → length octets.now < 8 }
{
    if octets.len() < 8 {
        return None;
    }
    let (front, rest) = octets.split_at(8);
    let number = u64::from_be_bytes([
        front[0], front[1], front[2], front[3], front[4], front[5], front[6], front[7],
    ]);
    Some((number, rest))
}

/// The name of a calendar or an object behind its length, and what stands behind it.
pub(crate) fn name_at(octets: &[u8]) -> Option<(&[u8], &[u8])>
    ensures name { IfSome result (λ found. IsName found.0.now) }
    ensures found { IfSome result (λ found. octets.now ≡ name_text found.0.now ++ found.1.now) }
    ensures none { IsNone result → HasNo name_text IsName octets.now }
{
    let (size, rest) = octets.split_first()?;
    let size = *size as usize;
    if rest.len() < size {
        return None;
    }
    let (name, rest) = rest.split_at(size);
    if is_resource_name(name) {
        Some((name, rest))
    } else {
        None
    }
}

/// Octets behind their number, and what stands behind them.
pub(crate) fn long_at(octets: &[u8]) -> Option<(&[u8], &[u8])>
    requires { length octets.now < 2 ^ 32 }
    ensures found { IfSome result (λ found. octets.now ≡ long_text found.0.now ++ found.1.now) }
    ensures none { IsNone result → HasNo long_text IsAny octets.now }
{
    let (size, rest) = u32_at(octets)?;
    let size = size as usize;
    if rest.len() < size {
        return None;
    }
    Some(rest.split_at(size))
}
