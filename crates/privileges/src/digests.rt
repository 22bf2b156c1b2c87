//! Digests of passwords.
ghost use Rattle.std.specs.Prelude.{◌≡◌, bytes_eq, length};

/// Whether two digests are the same. All octets are compared, wherever the first difference is: the
/// time says nothing about the place.
pub(crate) fn is_same(digest: &[u8; 64], other: &[u8; 64]) -> bool
    ensures { result ≡ bytes_eq digest.now other.now }
{
    let mut difference = 0;
    for place in 0..64 {
        difference |= digest[place] ^ other[place];
    }
    difference == 0
}
