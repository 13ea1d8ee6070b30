//! Numbers as a column keeps them until its base is known: raised by 2^63, so that the room of each serves its distance
//! from the base later. The least and the greatest of them, and how far each lies above the least.

ghost use Rattle.std.specs.Prelude.{◌≡◌, ◌-ℤ◌, unsigned_abs, map};
ghost use Rattle.daq_table.specs.Extremes.{greatest, least};
ghost use Rattle.daq_table.specs.Raised.{lowered};

/// The number, raised.
pub fn raise(number: i64) -> u64
    ensures { lowered result ≡ number }
{
    (number as i128 + (1 << 63)) as u64
}

// The number that was raised.
fn lower(raised: u64) -> i64
    ensures { result ≡ lowered raised }
{
    (raised as i128 - (1 << 63)) as i64
}

/// The least number, and 0 where there is none.
pub fn least_number(numbers: &[u64]) -> i64
    ensures { result ≡ least (map lowered numbers.now) }
{
    let mut best = if numbers.is_empty() {
        0
    } else {
        lower(numbers[0])
    };
    for number in numbers {
        best = best.min(lower(*number));
    }
    best
}

/// The greatest number, and 0 where there is none.
pub fn greatest_number(numbers: &[u64]) -> i64
    ensures { result ≡ greatest (map lowered numbers.now) }
{
    let mut best = if numbers.is_empty() {
        0
    } else {
        lower(numbers[0])
    };
    for number in numbers {
        best = best.max(lower(*number));
    }
    best
}

/// Puts in the place of each number how far it lies from the base.
pub fn become_distances(numbers: &mut [u64], base: i64)
    ensures { numbers.new ≡ map (λ n. unsigned_abs (lowered n -ℤ base)) numbers.old }
{
    for number in numbers.iter_mut() {
        *number = lower(*number).abs_diff(base);
    }
}
