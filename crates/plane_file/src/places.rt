//! What stands at a place of the bytes of a file. Past the end there are zeros.

ghost use Rattle.std.specs.Prelude.{◌≡◌, ◌+◌, ◌<◌, ◌^◌};
ghost use Rattle.std.specs.Int.{w32, w64};
ghost use Rattle.plane_file.specs.Checks.{byte_at, number_at, part_at, reaches, signed_at};

// The byte at a place.
#[tactic(auto, unfolding(crate::specs::Checks::byte_at))]
pub(crate) fn byte_at(bytes: &[u8], at: usize) -> u8
    ensures { result ≡ byte_at bytes.now at }
{
    if at < bytes.len() { bytes[at] } else { 0 }
}

// The number of four bytes, lowest first.
pub(crate) fn number32_at(bytes: &[u8], at: usize) -> u32
    requires { at + 8 < 2 ^ 64 }
    ensures { result ≡ number_at w32 bytes.now at }
{
    u32::from_le_bytes([
        byte_at(bytes, at),
        byte_at(bytes, at + 1),
        byte_at(bytes, at + 2),
        byte_at(bytes, at + 3),
    ])
}

// The number of eight bytes, lowest first.
pub(crate) fn number64_at(bytes: &[u8], at: usize) -> u64
    requires { at + 8 < 2 ^ 64 }
    ensures { result ≡ number_at w64 bytes.now at }
{
    u64::from_le_bytes([
        byte_at(bytes, at),
        byte_at(bytes, at + 1),
        byte_at(bytes, at + 2),
        byte_at(bytes, at + 3),
        byte_at(bytes, at + 4),
        byte_at(bytes, at + 5),
        byte_at(bytes, at + 6),
        byte_at(bytes, at + 7),
    ])
}

// The number of eight bytes with its sign.
#[tactic(auto, unfolding(crate::specs::Checks::signed_at))]
pub(crate) fn signed_at(bytes: &[u8], at: usize) -> i64
    requires { at + 8 < 2 ^ 64 }
    ensures { result ≡ signed_at bytes.now at }
{
    number64_at(bytes, at).cast_signed()
}

// Whether so many bytes stand there.
pub(crate) fn reaches(bytes: &[u8], at: usize, count: usize) -> bool
    requires { at + count < 2 ^ 64 }
    ensures { result ≡ reaches bytes.now at count }
{
    at + count <= bytes.len()
}

// So many bytes, or as many as there are.
#[tactic(auto, unfolding(crate::specs::Checks::part_at))]
pub(crate) fn part_at(bytes: &[u8], at: usize, count: usize) -> &[u8]
    requires { at + count < 2 ^ 64 }
    ensures { result.now ≡ part_at bytes.now at count }
{
    let start = at.min(bytes.len());
    let end = (at + count).min(bytes.len());
    &bytes[start..end]
}
