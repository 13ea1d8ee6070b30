//! Whether the keys of listed rows are written in one form.

ghost use Rattle.std.specs.Prelude.{◌≡◌, IfOk, map};
ghost use Rattle.part_groups.specs.Forms.{are_alike};
ghost use Rattle.part_rows.specs.Combined.{listing};
ghost use Rattle.part_rows.specs.Faults.{forms_of};

use crate::listed::ListedRow;
use part_groups::{EndsForm, told_by_span};
use std::alloc::{AllocError, Global};

// The forms of the keys of all rows.
fn forms_of(alloc: Global, rows: &[ListedRow<'_>]) -> Result<Vec<Option<EndsForm>>, AllocError>
    ensures { IfOk result (λ forms. forms.items ≡ forms_of (map listing rows.now)) }
{
    let mut forms = Vec::with_capacity(alloc, rows.len())?;
    for row in rows {
        forms.push(told_by_span(&row.line.key))?;
    }
    Ok(forms)
}

/// Whether the keys of all rows are written in one form.
pub(crate) fn are_alike(alloc: Global, rows: &[ListedRow<'_>]) -> Result<bool, AllocError>
    ensures { IfOk result (λ alike. alike ≡ are_alike (forms_of (map listing rows.now))) }
{
    let forms = forms_of(alloc, rows)?;
    Ok(part_groups::are_alike(&forms))
}
