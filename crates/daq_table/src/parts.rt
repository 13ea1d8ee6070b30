//! The parts of a text around a byte.

ghost use Rattle.std.specs.Prelude.{◌≡◌, ◌==◌, ◌≤◌, length, position};
ghost use Rattle.std.specs.List.{before_first, after_first, position_or_len};

// The place of the first such byte.
fn first_place(bytes: &[u8], byte: u8) -> Option<usize>
    ensures { result ≡ position (λ c. c == byte) bytes.now }
{
    bytes.iter().position(|other| *other == byte)
}

// The place of the first such byte, or the length where there is none.
pub(crate) fn place_or_len(bytes: &[u8], byte: u8) -> usize
    ensures place { result ≡ position_or_len (λ c. c == byte) bytes.now }
    ensures within { result ≤ length bytes.now }
{
    match first_place(bytes, byte) {
        Some(place) => place,
        None => bytes.len(),
    }
}

// What stands before the first such byte, and what after it.
pub(crate) fn around_first(bytes: &[u8], byte: u8) -> (&[u8], &[u8])
    ensures before { result.0.now ≡ before_first (λ c. c == byte) bytes.now }
    ensures after { result.1.now ≡ after_first (λ c. c == byte) bytes.now }
{
    let place = place_or_len(bytes, byte);
    (&bytes[..place], &bytes[bytes.len().min(place + 1)..])
}
