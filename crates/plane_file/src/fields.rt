//! Whether each field of a column's head has a value that it can have.

ghost use Rattle.std.specs.Prelude.{◌≡◌, ◌+◌, ◌<◌, ◌^◌};
ghost use Rattle.std.specs.List.{list_any};
ghost use Rattle.std.specs.Str.{bytes_eq};
ghost use Rattle.daq_table.specs.Schemas.{fits_scale};
ghost use Rattle.plane_file.specs.Checks.{are_ranks_below, fits_base, fits_count, fits_top, has_base};
ghost use Rattle.plane_file.specs.Checks.{has_count, has_kind, has_scale, has_title, has_title_length, has_top};
ghost use Rattle.plane_file.specs.Checks.{has_width, is_kind_byte, is_new, kind_at, kind_from, titles_of};
ghost use Rattle.plane_file.specs.Format.{is_day, scale_byte};

use crate::places::{byte_at, number32_at, number64_at, part_at, reaches, signed_at};
use daq_table::{ColumnHead, Kind, digits_of, is_column_name};

// Whether the byte is that of a kind in a version.
fn is_kind_byte(version: u32, byte: u8) -> bool
    ensures { result ≡ is_kind_byte version byte }
{
    byte < 4 || (version == 2 && byte >= 128 && byte < 132)
}

// The kind of that number, and with that many decimals where it has any.
fn kind_from(number: u8, scale: u8) -> Kind
    ensures { result ≡ kind_from number scale }
{
    match number {
        0 => Kind::Int,
        1 => Kind::Dec(scale),
        2 => Kind::Date,
        _ => Kind::Text,
    }
}

// The kind of the column whose head begins at a place.
#[tactic(auto, unfolding(crate::specs::Checks::kind_at))]
pub(crate) fn kind_at(bytes: &[u8], at: usize) -> Kind
    requires { at < 2 ^ 32 }
    ensures { result ≡ kind_at bytes.now at }
{
    kind_from(byte_at(bytes, at) % 128, byte_at(bytes, at + 1))
}

// The decimals of a kind.
fn scale_byte(kind: Kind) -> u8
    ensures { result ≡ scale_byte kind }
{
    match kind {
        Kind::Int => 0,
        Kind::Dec(scale) => scale,
        Kind::Date => 0,
        Kind::Text => 0,
    }
}

// Whether a kind has at most nine decimals.
fn fits_scale(kind: Kind) -> bool
    ensures { result ≡ fits_scale kind }
{
    match kind {
        Kind::Int => true,
        Kind::Dec(scale) => scale <= 9,
        Kind::Date => true,
        Kind::Text => true,
    }
}

// Whether it is the number of a day of the years 0000 to 9999.
fn is_day(number: i64) -> bool
    ensures { result ≡ is_day number }
{
    number >= -719528 && number <= 2932896
}

// Whether a column of that kind can have that base.
fn fits_base(kind: Kind, base: i64) -> bool
    ensures { result ≡ fits_base kind base }
{
    match kind {
        Kind::Int => true,
        Kind::Dec(_) => true,
        Kind::Date => is_day(base),
        Kind::Text => base >= 0,
    }
}

// Whether a column of that kind can have that top.
fn fits_top(kind: Kind, top: i64) -> bool
    ensures { result ≡ fits_top kind top }
{
    match kind {
        Kind::Int => true,
        Kind::Dec(_) => true,
        Kind::Date => is_day(top),
        Kind::Text => true,
    }
}

// Whether the ranks from base to top are those of so many names; without names, where that is allowed, both are 0.
fn are_ranks_below(count: u32, base: i64, top: i64, empty: bool) -> bool
    ensures { result ≡ are_ranks_below count base top empty }
{
    if count == 0 {
        base == 0 && top == 0 && empty
    } else {
        top < count as i64
    }
}

// Whether a column of that kind can have so many names.
fn fits_count(kind: Kind, count: u32, base: i64, top: i64, empty: bool) -> bool
    ensures { result ≡ fits_count kind count base top empty }
{
    match kind {
        Kind::Int => count == 0,
        Kind::Dec(_) => count == 0,
        Kind::Date => count == 0,
        Kind::Text => are_ranks_below(count, base, top, empty),
    }
}

// Whether a column has that name.
fn has_name(columns: &[ColumnHead], title: &[u8]) -> bool
    ensures { result ≡ list_any (λ c. bytes_eq c.name title.now) columns.now }
{
    columns.iter().any(|column| column.name.as_slice() == title)
}

// Whether no column has that name.
fn is_new(columns: &[ColumnHead], title: &[u8]) -> bool
    ensures { result ≡ is_new (titles_of columns.now) title.now }
{
    !has_name(columns, title)
}

#[tactic(auto, unfolding(crate::specs::Checks::has_kind))]
pub(crate) fn has_kind(bytes: &[u8], at: usize) -> bool
    requires { at < 2 ^ 32 }
    ensures { result ≡ has_kind bytes.now at }
{
    reaches(bytes, at, 1) && is_kind_byte(number32_at(bytes, 8), byte_at(bytes, at))
}

#[tactic(auto, unfolding(crate::specs::Checks::has_scale))]
pub(crate) fn has_scale(bytes: &[u8], at: usize) -> bool
    requires { at < 2 ^ 32 }
    ensures { result ≡ has_scale bytes.now at }
{
    let kind = kind_at(bytes, at);
    reaches(bytes, at + 1, 1) && byte_at(bytes, at + 1) == scale_byte(kind) && fits_scale(kind)
}

#[tactic(auto, unfolding(crate::specs::Checks::has_title_length))]
pub(crate) fn has_title_length(bytes: &[u8], at: usize) -> bool
    requires { at < 2 ^ 32 }
    ensures { result ≡ has_title_length bytes.now at }
{
    let length = byte_at(bytes, at + 3);
    reaches(bytes, at + 3, 1) && length >= 1 && length <= 64
}

#[tactic(auto, unfolding(crate::specs::Checks::has_base))]
pub(crate) fn has_base(bytes: &[u8], at: usize) -> bool
    requires { at < 2 ^ 32 }
    ensures { result ≡ has_base bytes.now at }
{
    reaches(bytes, at + 4, 8) && fits_base(kind_at(bytes, at), signed_at(bytes, at + 4))
}

#[tactic(auto, unfolding(crate::specs::Checks::has_top))]
pub(crate) fn has_top(bytes: &[u8], at: usize) -> bool
    requires { at < 2 ^ 32 }
    ensures { result ≡ has_top bytes.now at }
{
    let top = signed_at(bytes, at + 12);
    reaches(bytes, at + 12, 8)
        && signed_at(bytes, at + 4) <= top
        && fits_top(kind_at(bytes, at), top)
}

#[tactic(auto, unfolding(crate::specs::Checks::has_count))]
pub(crate) fn has_count(bytes: &[u8], at: usize) -> bool
    requires { at < 2 ^ 32 }
    ensures { result ≡ has_count bytes.now at }
{
    let empty = byte_at(bytes, at) >= 128 || number64_at(bytes, 16) == 0;
    let base = signed_at(bytes, at + 4);
    let top = signed_at(bytes, at + 12);
    fits_count(
        kind_at(bytes, at),
        number32_at(bytes, at + 20),
        base,
        top,
        empty,
    )
}

#[tactic(auto, unfolding(crate::specs::Checks::has_width))]
pub(crate) fn has_width(bytes: &[u8], at: usize) -> bool
    requires { at < 2 ^ 32 }
    ensures { result ≡ has_width bytes.now at }
{
    let distance = signed_at(bytes, at + 12).abs_diff(signed_at(bytes, at + 4));
    byte_at(bytes, at + 2) == digits_of(distance)
}

#[tactic(auto, unfolding(crate::specs::Checks::has_title))]
pub(crate) fn has_title(bytes: &[u8], columns: &[ColumnHead], at: usize) -> bool
    requires { at < 2 ^ 32 }
    ensures { result ≡ has_title bytes.now (titles_of columns.now) at }
{
    let length = byte_at(bytes, at + 3) as usize;
    let title = part_at(bytes, at + 24, length);
    reaches(bytes, at + 24, length) && is_column_name(title) && is_new(columns, title)
}
