//! Sums, differences and products of 128 bits that wrap around.

ghost use Rattle.std.specs.Prelude.{◌≡◌, ◌+ℤ◌, ◌-ℤ◌, ◌*ℤ◌};
ghost use Rattle.std.specs.Int.{int_wrap, w128};

pub(crate) fn plus(a: i128, b: i128) -> i128
    ensures { result ≡ int_wrap w128 (a +ℤ b) }
{
    a.wrapping_add(b)
}

pub(crate) fn minus(a: i128, b: i128) -> i128
    ensures { result ≡ int_wrap w128 (a -ℤ b) }
{
    a.wrapping_sub(b)
}

pub(crate) fn times(a: i128, b: i128) -> i128
    ensures { result ≡ int_wrap w128 (a *ℤ b) }
{
    a.wrapping_mul(b)
}
