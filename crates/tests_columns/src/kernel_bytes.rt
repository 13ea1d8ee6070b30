//! Planes as bytes: written, read whole or in pieces, and refused.

ghost use Rattle.std.specs.Prelude.{◌≡◌, ◌*◌, length, IfOk, OnOk};
ghost use Rattle.plane_kernels.specs.Bytes.{bytes_of_rows, word_count};

use crate::kernels::{LENGTHS, plane_of_rows};
use plane_kernels::{PadBits, Plane};
use std::alloc::{AllocError, Global};
use std::test::Fail;

// The byte of the rows from 8 * at on, where the upper half of each 32 rows has bits of 1.
fn byte_at(at: usize, rows: usize) -> u8 {
    if at % 4 < 2 || at > rows / 8 {
        0
    } else if at == rows / 8 {
        !(255 << (rows % 8))
    } else {
        255
    }
}

fn has_bytes(bytes: &[u8], rows: usize) -> bool {
    bytes
        .iter()
        .enumerate()
        .all(|(at, byte)| *byte == byte_at(at, rows))
}

// Whether the upper half of each 32 rows has bits of 1, and no other row.
fn has_upper(plane: &Plane) -> bool {
    for row in 0..plane.rows() {
        if plane.get(row) != (row % 32 >= 16) {
            return false;
        }
    }
    true
}

fn count_ones(plane: &Plane) -> usize {
    let mut count: usize = 0;
    for row in 0..plane.rows() {
        if plane.get(row) {
            count = count.saturating_add(1);
        }
    }
    count
}

// So many bytes as the plane has, all of them the same.
fn fill_bytes(alloc: Global, plane: &Plane, byte: u8) -> Result<Vec<u8>, AllocError>
    ensures { IfOk result (λ bytes. length bytes.items ≡ 8 * word_count (length plane.now)) }
{
    vec![in alloc; byte; 8 * plane.rows().div_ceil(64)]
}

// Reads all bytes, two words at a time.
fn load_pieces(plane: &mut Plane, bytes: &[u8]) -> Result<(), PadBits>
    requires { length bytes.now ≡ 8 * word_count (length plane.old) }
    ensures { OnOk result (bytes_of_rows plane.new ≡ bytes.now) }
{
    let count = bytes.len() / 8;
    let mut first = 0;
    while first < count {
        let end = count.min(first + 2);
        plane.load_words(first, &bytes[8 * first..8 * end])?;
        first = end;
    }
    Ok(())
}

// Whether a plane's bytes are those of its rows, and give the rows back.
fn reads_back(alloc: Global, plane: &Plane) -> Result<bool, AllocError> {
    let mut bytes = fill_bytes(alloc, plane, 170)?;
    plane.store(&mut bytes);
    let mut whole = Plane::blank(alloc, plane.rows())?;
    let mut pieces = Plane::blank(alloc, plane.rows())?;
    let loaded = whole.load(&bytes).is_ok() && load_pieces(&mut pieces, &bytes).is_ok();
    Ok(loaded && has_bytes(&bytes, plane.rows()) && has_upper(&whole) && has_upper(&pieces))
}

// The word with pad bits where all bits are 1, and how many rows the plane has then.
fn load_ones(alloc: Global, plane: &mut Plane) -> Result<(Option<usize>, usize), AllocError> {
    let bytes = fill_bytes(alloc, plane, 255)?;
    let refused = plane.load(&bytes).err().map(|pad| pad.word);
    Ok((refused, count_ones(plane)))
}

#[test]
fn bytes_are_read_back(rt: HostRuntime) -> Result<(), Fail> {
    for rows in LENGTHS {
        let plane = plane_of_rows(rt.alloc(), rows)?;
        assert!(rt; reads_back(rt.alloc(), &plane)?, "{rows} rows");
    }
    Ok(())
}

#[test]
fn pad_bits_are_refused(rt: HostRuntime) -> Result<(), Fail> {
    for rows in LENGTHS {
        let mut plane = Plane::blank(rt.alloc(), rows)?;
        let expected = if rows % 64 == 0 {
            (None, rows)
        } else {
            (Some(rows / 64), 0)
        };
        assert_eq!(rt; load_ones(rt.alloc(), &mut plane)?, expected, "{rows} rows");
    }
    Ok(())
}

#[test]
fn other_words_stay(rt: HostRuntime) -> Result<(), Fail> {
    let mut plane = plane_of_rows(rt.alloc(), 513)?;
    if plane.rows() == 513 {
        assert_eq!(rt; plane.load_words(2, &[255; 8]), Ok(()));
        assert_eq!(rt; count_ones(&plane), 288);
        assert_eq!(rt;
            plane.load_words(8, &[2, 0, 0, 0, 0, 0, 0, 0]),
            Err(PadBits { word: 8 })
        );
        assert_eq!(rt; count_ones(&plane), 288);
    }
    Ok(())
}
