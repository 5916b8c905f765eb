//! Spots of faults.
ghost use Rattle.std.specs.Prelude.{◌≡◌};
ghost use Rattle.name_tables.specs.Least as spec;

/// The smaller of two spots.
#[inline]
pub fn earlier_spot(a: Option<usize>, b: usize) -> Option<usize>
    ensures { result ≡ spec.earlier_spot a b }
{
    match a {
        Some(a) if a <= b => Some(a),
        Some(_) | None => Some(b),
    }
}

/// The smaller of two spots, where there are any.
pub fn earlier_of(a: Option<usize>, b: Option<usize>) -> Option<usize>
    ensures { result ≡ spec.earlier_of a b }
{
    match b {
        Some(b) => earlier_spot(a, b),
        None => a,
    }
}
