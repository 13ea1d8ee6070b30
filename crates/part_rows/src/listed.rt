//! The rows that the reports of parts list, and what is listed of each.

ghost use Rattle.std.specs.Prelude.{◌≡◌, ◌++◌, IfOk, OnOk, map};
ghost use Rattle.report_text.specs.RowBlocks.{tag_bytes};
ghost use Rattle.part_rows.specs.Combined.{listing, listings, listings_of, part_listing, part_listings, row_of};

use crate::row::{PartRow, RowName};
use daq_table::Text;
use part_groups::span_of;
use report_text::RowLine;
use std::alloc::{AllocError, Global};
use text_extremes::copied;

/// The rows that the report of a part lists, and the tag of the part. A report that is itself of several parts may have judged no row.
#[derive(Clone, Copy)]
pub struct ListedRows<'a> {
    pub tag: &'a [u8],
    pub skipped: bool,
    pub rows: &'a [RowLine],
}

/// A row that a part lists: the place and the tag of the part, and the line of the row.
#[derive(Clone, Copy)]
pub(crate) struct ListedRow<'a> {
    pub(crate) part: usize,
    pub(crate) tag: &'a [u8],
    pub(crate) line: &'a RowLine,
}

// Appends the rows of a part.
fn append<'a>(
    place: usize,
    part: ListedRows<'a>,
    rows: &mut Vec<ListedRow<'a>>,
) -> Result<(), AllocError>
    ensures { OnOk result (map listing rows.new.items ≡ map listing rows.old.items ++ listings_of place (part_listing part.entry)) }
{
    for line in part.rows {
        rows.push(ListedRow {
            part: place,
            tag: part.tag,
            line,
        })?;
    }
    Ok(())
}

/// The rows that all parts list, in order.
pub(crate) fn listed_rows<'a>(
    alloc: Global,
    parts: &[ListedRows<'a>],
) -> Result<Vec<ListedRow<'a>>, AllocError>
    ensures { IfOk result (λ rows. map listing rows.items ≡ listings (part_listings parts.now)) }
{
    let mut rows = Vec::new(alloc);
    for (place, part) in parts.iter().enumerate() {
        append(place, *part, &mut rows)?;
    }
    Ok(rows)
}

// The bytes of a tag. A row of one table has none.
pub(crate) fn tag_bytes(tag: &Option<Text>) -> &[u8]
    ensures { result.now ≡ tag_bytes tag.now }
{
    match tag {
        Some(tag) => tag.as_slice(),
        None => &[],
    }
}

// The row as its part knows it.
fn row_of(alloc: Global, listed: ListedRow<'_>) -> Result<PartRow, AllocError>
    ensures { IfOk result (λ row. row ≡ row_of (listing listed.entry)) }
{
    let tag = copied(alloc, tag_bytes(&listed.line.name.tag))?;
    let key = span_of(alloc, &listed.line.key)?;
    Ok(PartRow {
        name: RowName {
            part: listed.part,
            tag,
            number: listed.line.name.number,
        },
        certain: listed.line.certain,
        key,
    })
}

/// The rows as their parts know them.
pub(crate) fn rows_of(alloc: Global, listed: &[ListedRow<'_>]) -> Result<Vec<PartRow>, AllocError>
    ensures { IfOk result (λ rows. rows.items ≡ map row_of (map listing listed.now)) }
{
    let mut rows = Vec::with_capacity(alloc, listed.len())?;
    for row in listed {
        rows.push(row_of(alloc, *row)?)?;
    }
    Ok(rows)
}
