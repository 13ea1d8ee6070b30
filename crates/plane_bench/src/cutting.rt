//! The highest plane, cut from the cells over and over.

ghost use Rattle.std.specs.Prelude.{◌≡◌, ◌≤◌, count_by, IfOk};
ghost use Rattle.plane_bench.specs.Planes.{is_high};

use plane_kernels::{Mask, Plane, transpose};
use std::alloc::{AllocError, Global};

// Cuts the highest plane so often, and answers for how many cells its digit is 1.
pub(crate) fn count_highest(alloc: Global, cells: &[u64], rounds: u8) -> Result<u64, AllocError>
    requires { 1 ≤ rounds }
    ensures { IfOk result (λ count. count ≡ count_by is_high cells.now) }
{
    let all = Mask::all(alloc, cells.len())?;
    let mut plane = Plane::blank(alloc, cells.len())?;
    for _ in 0..rounds {
        transpose(cells, 32, 0, &mut plane);
    }
    Ok(all.count_plane(&plane))
}
