//! Sums of numbers of 128 bits.

ghost use Rattle.std.specs.Prelude.{◌≡◌, ◌+◌, ◌^◌, ◌<◌, ◌↔◌, pos, ◌+ℤ◌, FitsSigned, IsSome, IfSome, nat_abs};
ghost use Rattle.std.specs.Int.{w128};
ghost use Rattle.shard_bounds.specs.Wide.{wide};

// A sum that may leave 128 bits: `turns` times 2^128, and the rest.
#[derive(Clone, Copy)]
pub(crate) struct Wide {
    pub(crate) turns: i128,
    pub(crate) rest: i128,
}

impl Wide {
    // The sum with one number more.
    pub(crate) fn plus(self, number: i128) -> Wide
        requires { nat_abs self.turns < 2 ^ 100 }
        ensures sum { wide result.turns result.rest ≡ wide self.turns self.rest +ℤ number }
        ensures turns { nat_abs result.turns < nat_abs self.turns + 2 }
    {
        match self.rest.checked_add(number) {
            Some(rest) => Wide {
                turns: self.turns,
                rest,
            },
            None if number < 0 => Wide {
                turns: self.turns - 1,
                rest: (self.rest - i128::MIN) + (number - i128::MIN),
            },
            None => Wide {
                turns: self.turns + 1,
                rest: (self.rest + i128::MIN) + (number + i128::MIN),
            },
        }
    }

    // The sum, or none where it has left 128 bits.
    pub(crate) fn number(self) -> Option<i128>
        ensures fits { IsSome result ↔ FitsSigned w128 (wide self.turns self.rest) }
        ensures value { IfSome result (λ n. n ≡ wide self.turns self.rest) }
    {
        if self.turns == 0 {
            Some(self.rest)
        } else {
            None
        }
    }
}
