//! The checks of a file, as tables of what must hold and the fault where it does not.

ghost use Rattle.std.specs.Prelude.{◌≡◌, ◌==◌, ◌*◌, ◌<◌, ◌^◌, ◌&&◌, ◌||◌, codes, nat_le};
ghost use Rattle.std.specs.Str.{bytes_eq};
ghost use Rattle.plane_file.specs.Checks.{fields_checks, first_fault, header_checks, part_at, titles_of};

use crate::fields::{
    has_base, has_count, has_kind, has_scale, has_title, has_title_length, has_top, has_width,
};
use crate::file_fault::FileFault;
use crate::places::{number32_at, number64_at, part_at, reaches};
use daq_table::ColumnHead;

// The fault of the first check that fails.
fn first_fault(checks: &[(bool, FileFault)]) -> Option<FileFault>
    ensures { result ≡ first_fault checks.now }
{
    for (holds, fault) in checks {
        if !*holds {
            return Some(*fault);
        }
    }
    None
}

// Whether the bytes begin with the mark of a plane file.
fn has_magic(bytes: &[u8]) -> bool
    ensures { result ≡ bytes_eq (part_at bytes.now 0 8) (codes "DAQPLANE") }
{
    part_at(bytes, 0, 8) == b"DAQPLANE".as_slice()
}

// Whether there is such a version.
fn is_version(version: u32) -> bool
    ensures { result ≡ (version == 1 || version == 2) }
{
    version == 1 || version == 2
}

// Whether so many columns can have so many rows.
fn fits_rows(rows: u64, columns: u32) -> bool
    ensures { result ≡ (nat_le rows 16777216 && nat_le (rows * columns) 134217728) }
{
    rows <= 16777216 && rows * columns as u64 <= 134217728
}

// The fault of the header.
pub(crate) fn header_fault(bytes: &[u8]) -> Option<FileFault>
    ensures { result ≡ first_fault (header_checks bytes.now) }
{
    let version = number32_at(bytes, 8);
    let columns = number32_at(bytes, 12);
    first_fault(&[
        (has_magic(bytes), FileFault::BadMagic),
        (
            is_version(version),
            FileFault::UnknownVersion { found: version },
        ),
        (0 < columns, FileFault::BadHead { at: 12 }),
        (columns <= 64, FileFault::LimitPassed { at: 12 }),
        (
            fits_rows(number64_at(bytes, 16), columns),
            FileFault::LimitPassed { at: 16 },
        ),
        (
            number64_at(bytes, 24) <= 2147483648,
            FileFault::LimitPassed { at: 24 },
        ),
    ])
}

// The fault of the fields of a column's head that begins at a place, behind these columns.
pub(crate) fn fields_fault(bytes: &[u8], columns: &[ColumnHead], at: usize) -> Option<FileFault>
    requires { at < 2 ^ 32 }
    ensures { result ≡ first_fault (fields_checks bytes.now (titles_of columns.now) at) }
{
    let place = at as u64;
    first_fault(&[
        (has_kind(bytes, at), FileFault::BadHead { at: place }),
        (has_scale(bytes, at), FileFault::BadHead { at: place + 1 }),
        (
            has_title_length(bytes, at),
            FileFault::BadHead { at: place + 3 },
        ),
        (has_base(bytes, at), FileFault::BadHead { at: place + 4 }),
        (has_top(bytes, at), FileFault::BadHead { at: place + 12 }),
        (
            reaches(bytes, at + 20, 4),
            FileFault::BadHead { at: place + 20 },
        ),
        (
            number32_at(bytes, at + 20) <= 65536,
            FileFault::LimitPassed { at: place + 20 },
        ),
        (has_count(bytes, at), FileFault::BadHead { at: place + 20 }),
        (has_width(bytes, at), FileFault::BadHead { at: place + 2 }),
        (
            has_title(bytes, columns, at),
            FileFault::BadHead { at: place + 24 },
        ),
    ])
}
