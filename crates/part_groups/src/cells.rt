//! What the lines of a group say, as a cell.

ghost use Rattle.std.specs.Prelude.{◌≡◌, IfOk, [], map, max};
ghost use Rattle.query_model.specs.Bounds.{fractions_of};
ghost use Rattle.shard_groups.specs.Groups.{said_of};
ghost use Rattle.part_groups.specs.Cells.{fractions_by, keys_of, said_by, slices, span_of, told, told_by, values_of};

use crate::group::Group;
use daq_table::Listed;
use interval_calc::Fraction;
use query_model::AverageBound;
use report_text::{Answer, GroupLine, Ratio, ShownAverage, ShownEnds, ShownSpan};
use shard_groups::{Cell, Cells, Ends, ItemBound, KeyValue, Keys, Span};
use std::alloc::{AllocError, Global};
use text_extremes::copied;

// The values that are shown: none where a column of texts has none.
fn values_of(alloc: Global, ends: &ShownEnds) -> Result<Option<Ends>, AllocError>
    ensures { IfOk result (λ values. values ≡ values_of ends.now) }
{
    match ends {
        ShownEnds::Values(ends) => Ok(Some(Ends {
            low: KeyValue::Number(ends.low),
            high: KeyValue::Number(ends.high),
        })),
        ShownEnds::Texts(ends) => {
            let low = copied(alloc, ends.low.as_slice())?;
            let high = copied(alloc, ends.high.as_slice())?;
            Ok(Some(Ends {
                low: KeyValue::Text(low),
                high: KeyValue::Text(high),
            }))
        }
        ShownEnds::NoText => Ok(None),
    }
}

/// What the line of a report shows of a column: numbers in units, dates as day numbers, texts as they are.
pub fn span_of(alloc: Global, span: &ShownSpan) -> Result<Span, AllocError>
    ensures { IfOk result (λ keys. keys ≡ span_of span.now) }
{
    let ends = match &span.ends {
        Some(ends) => values_of(alloc, ends)?,
        None => None,
    };
    Ok(Span {
        null: span.null,
        ends,
    })
}

// What is shown of all columns.
pub(crate) fn keys_of(alloc: Global, spans: &[ShownSpan]) -> Result<Keys, AllocError>
    ensures { IfOk result (λ keys. keys ≡ keys_of spans.now) }
{
    let mut keys = Vec::with_capacity(alloc, spans.len())?;
    for span in spans {
        keys.push(span_of(alloc, span)?)?;
    }
    Ok(Keys::new(keys))
}

// A sum over a number of rows.
fn fraction_by(ratio: Ratio) -> Fraction
    ensures num { result.num ≡ ratio.sum.units }
    ensures den { result.den ≡ max ratio.rows 1 }
{
    Fraction {
        num: ratio.sum.units,
        den: ratio.rows.max(1),
    }
}

fn average_by(shown: &ShownAverage) -> AverageBound
    ensures { fractions_of result ≡ fractions_by shown.now }
{
    AverageBound {
        null: shown.null,
        lo: fraction_by(shown.low),
        hi: fraction_by(shown.high),
    }
}

// What an answer says of its item.
fn item_by(answer: &Answer) -> ItemBound
    ensures { said_of result ≡ said_by answer.now }
{
    match answer {
        Answer::Value(shown) => ItemBound::Value(shown.bound),
        Answer::Average(shown) => ItemBound::Average(average_by(shown)),
    }
}

fn items_by(alloc: Global, answers: &[Answer]) -> Result<Vec<ItemBound>, AllocError>
    ensures { IfOk result (λ items. map said_of items.items ≡ map said_by answers.now) }
{
    let mut items = Vec::with_capacity(alloc, answers.len())?;
    for answer in answers {
        items.push(item_by(answer))?;
    }
    Ok(items)
}

/// The cell that the line of a group and the answers of its items tell: numbers in units, dates as day numbers, texts as they are.
pub fn cell_of(alloc: Global, line: &GroupLine, answers: &[Answer]) -> Result<Cell, AllocError>
    ensures { IfOk result (λ cell. told cell ≡ told_by (record { line = line.now; answers = answers.now; texts = [] })) }
{
    let keys = keys_of(alloc, line.keys.as_slice())?;
    let items = items_by(alloc, answers)?;
    Ok(Cell {
        keys,
        present: line.present,
        items: Listed::new(items),
    })
}

// The cells of a part.
fn cells_of(alloc: Global, groups: &[Group]) -> Result<Cells, AllocError>
    ensures { IfOk result (λ cells. map told cells ≡ map told_by groups.now) }
{
    let mut cells = Vec::with_capacity(alloc, groups.len())?;
    for group in groups {
        cells.push(cell_of(alloc, &group.line, group.answers.as_slice())?)?;
    }
    Ok(Cells::new(cells))
}

// The cells of all parts.
pub(crate) fn all_cells(alloc: Global, parts: &[&[Group]]) -> Result<Vec<Cells>, AllocError>
    ensures { IfOk result (λ cells. map (map told) cells.items ≡ map (map told_by) (slices parts.now)) }
{
    let mut cells = Vec::with_capacity(alloc, parts.len())?;
    for groups in parts {
        cells.push(cells_of(alloc, groups)?)?;
    }
    Ok(cells)
}
