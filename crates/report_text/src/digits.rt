//! Decimal digits, and texts around a byte.

ghost use Rattle.std.specs.Prelude.{◌≡◌, ◌==◌, ◌+◌, ◌*◌, ◌<◌, ◌≤◌, ◌^◌, ℕ, Some, IfSome, decimal, length, position, true};
ghost use Rattle.std.specs.List.{after_first, before_first, position_or_len};
ghost use Rattle.std.specs.Option.{SomeIff};
ghost use Rattle.std.specs.Str.Parse.{AllDigits, digits_value_after};
ghost use Rattle.report_text.specs.Numbers.{IsTrimmed};

// Below this there is room for a digit more in 64 bits.
const FEW: u128 = 1 << 60;

// The number with one digit more.
fn with_digit(number: u128, digit: u8) -> Option<u128>
    ensures { SomeIff result (number * 10 + digit < 2 ^ 128) (number * 10 + digit) }
{
    if number < FEW {
        return Some(u128::from(number as u64 * 10 + u64::from(digit)));
    }
    match number.checked_mul(10) {
        Some(shifted) => shifted.checked_add(u128::from(digit)),
        None => None,
    }
}

// The number that the bytes write as digits behind those of `start`. None where one is no digit, or the number is not one of 128 bits.
pub(crate) fn read_digits(start: u128, bytes: &[u8]) -> Option<u128>
    ensures { SomeIff result
        (AllDigits 10 bytes.now × (digits_value_after 10 start bytes.now < 2 ^ 128))
        (digits_value_after 10 start bytes.now) }
{
    let mut number = start;
    for byte in bytes {
        if !byte.is_ascii_digit() {
            return None;
        }
        match with_digit(number, *byte - b'0') {
            Some(longer) => number = longer,
            None => return None,
        }
    }
    Some(number)
}

// Whether there are digits, and no zero before others.
fn is_trimmed(digits: &[u8]) -> bool
    ensures yes { IsTrimmed digits.now → result ≡ true }
    ensures only { result ≡ true → IsTrimmed digits.now }
{
    match digits {
        [] => false,
        [_] => true,
        [first, ..] => *first != b'0',
    }
}

// The number whose text this is, without a sign.
pub(crate) fn read_decimal(text: &[u8]) -> Option<u128>
    ensures read { (n : ℕ) → n < 2 ^ 128 → decimal n ≡ text.now → result ≡ Some n }
    ensures written { IfSome result (λ n. decimal n ≡ text.now) }
{
    if is_trimmed(text) {
        read_digits(0, text)
    } else {
        None
    }
}

// The place of the first such byte.
fn first_place(bytes: &[u8], byte: u8) -> Option<usize>
    ensures { result ≡ position (λ c. c == byte) bytes.now }
{
    bytes.iter().position(|other| *other == byte)
}

// The place of the first such byte, or the length where there is none.
fn place_or_len(bytes: &[u8], byte: u8) -> usize
    ensures place { result ≡ position_or_len (λ c. c == byte) bytes.now }
    ensures within { result ≤ length bytes.now }
{
    match first_place(bytes, byte) {
        Some(place) => place,
        None => bytes.len(),
    }
}

// What stands before the first such byte, and what after it.
pub(crate) fn around_first(bytes: &[u8], byte: u8) -> (&[u8], &[u8])
    ensures before { result.0.now ≡ before_first (λ c. c == byte) bytes.now }
    ensures after { result.1.now ≡ after_first (λ c. c == byte) bytes.now }
{
    let place = place_or_len(bytes, byte);
    (&bytes[..place], &bytes[bytes.len().min(place + 1)..])
}
