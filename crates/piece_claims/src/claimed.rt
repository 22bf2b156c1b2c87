//! The pairs that are claimed out.
ghost use Rattle.std.specs.Prelude.{◌≡◌, vec_capacity, filter, not};
ghost use Rattle.std.specs.List.{list_any};
ghost use Rattle.piece_claims.specs.Out.{is_pair};

/// Whether a pair is out.
pub(crate) fn is_out(out: &[(u64, i32)], origin: u64, window: i32) -> bool
    ensures { result ≡ list_any (is_pair origin window) out.now }
{
    out.iter().any(|pair| pair.0 == origin && pair.1 == window)
}

/// Takes a pair from those that are out. Takes no memory.
pub(crate) fn end(out: &mut Vec<(u64, i32)>, origin: u64, window: i32)
    ensures pairs { out.new.items ≡ filter (λ p. not (is_pair origin window p)) out.old.items }
    ensures room { vec_capacity out.new ≡ vec_capacity out.old }
{
    out.retain(|pair| !(pair.0 == origin && pair.1 == window));
}
