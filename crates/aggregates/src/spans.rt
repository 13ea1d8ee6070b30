//! Sums of the ends at some rows of a column, by how many rows they are and by what their digits come to. A value is kept as its distance
//! from the column's base, in binary digits, of which the last may be unread: a low end has 0 for each of them, a high end 1.

ghost use Rattle.std.specs.Prelude.{◌≡◌, ◌≤◌, ◌+◌, ◌-◌, ◌*◌, ◌^◌, ◌%◌, nat_abs};
ghost use Rattle.std.specs.Prelude.{◌*ℤ◌, ◌+ℤ◌, ◌-ℤ◌, ◌≤ℤ◌, negsuc, pos};

// A number so many times.
fn times(number: i64, count: u64) -> i128
    requires { count ≤ 16777216 }
    ensures product { result ≡ number *ℤ pos count }
    ensures few { (negsuc 309485009821345068724781056 ≤ℤ result) × (result ≤ℤ pos 309485009821345068724781056) }
{
    i128::from(number) * i128::from(count)
}

/// The low ends of so many rows, added up. `numbers` is what the digits that were read come to, added up over the rows: `unread` further
/// digits follow in each row, and count as 0.
pub fn lows_of_rows(base: i64, rows: u64, numbers: u128, unread: u8) -> i128
    requires rows { rows ≤ 16777216 }
    requires unread { unread ≤ 65 }
    requires few { numbers * 2 ^ unread ≤ 2 ^ 89 }
    ensures sum { result ≡ (base *ℤ pos rows) +ℤ pos (numbers * 2 ^ unread) }
    ensures few { (negsuc 1237940039285380274899124224 ≤ℤ result) × (result ≤ℤ pos 1237940039285380274899124224) }
{
    times(base, rows) + (numbers << unread) as i128
}

/// How far a range's high end lies above its low end where it does not end at top.
pub fn block_span(unread: u8) -> u128
    requires { unread ≤ 65 }
    ensures span { result ≡ 2 ^ unread - 1 }
    ensures few { result ≤ 36893488147419103232 }
{
    (1u128 << unread) - 1
}

/// The same at top's prefix.
pub fn top_span(base: i64, top: i64, unread: u8) -> u128
    requires { unread ≤ 65 }
    ensures span { result ≡ nat_abs (top -ℤ base) % 2 ^ unread }
    ensures few { result ≤ 36893488147419103232 }
{
    u128::from(top.abs_diff(base)) % (1u128 << unread)
}

// A span so many times.
fn many_times(count: u64, span: u128) -> u128
    requires count { count ≤ 16777216 }
    requires span { span ≤ 36893488147419103232 }
    ensures product { result ≡ count * span }
    ensures few { result ≤ 618970019642690137449562112 }
{
    u128::from(count) * span
}

/// How far the high ends of so many rows lie above their low ends, added up. At the prefix of the column's top, where `at_top` of the rows
/// are, the high end is top; elsewhere it has 1 for each of the `unread` digits.
pub fn spans_of_rows(base: i64, top: i64, unread: u8, rows: u64, at_top: u64) -> u128
    requires unread { unread ≤ 65 }
    requires rows { rows ≤ 16777216 }
    requires at_top { at_top ≤ rows }
    ensures sum { result ≡ at_top * (nat_abs (top -ℤ base) % 2 ^ unread) + (rows - at_top) * (2 ^ unread - 1) }
    ensures few { result ≤ 1237940039285380274899124224 }
{
    many_times(at_top, top_span(base, top, unread)) + many_times(rows - at_top, block_span(unread))
}
