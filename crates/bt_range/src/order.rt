//! The order of bytes.
ghost use Rattle.std.specs.Prelude.{◌≡◌};
ghost use Rattle.bt_range.specs.Bounds.{is_below};

// Whether the first stands before the second.
pub fn is_below(one: &[u8], other: &[u8]) -> bool
    ensures { result ≡ is_below one.now other.now }
{
    one.cmp(other).is_lt()
}
