//! The lines behind that of an item over all rows: its clipped bound, or the exact ends of its average.

ghost use Rattle.std.specs.Prelude.{◌≡◌, ◌<◌, ◌+◌, ◌++◌, codes, slice_get};
ghost use Rattle.std.specs.declared.option.Option.TheVariants.{Some};
ghost use Rattle.avg_exact.specs.ExactAverages.{ends_of, exact_average_of};
ghost use Rattle.daq_table.specs.ValueTexts.{HeadHasTexts};
ghost use Rattle.outer_world.specs.Whole.{Writes};
ghost use Rattle.query_model.specs.Bounds.{fractions_of};
ghost use Rattle.query_model.specs.declared.query.Shape.TheVariants.{Plain};
ghost use Rattle.query_model.specs.Validity.{FitsHead};
ghost use Rattle.daq_report.specs.Ends.{CanShowAny, CanShowAverage, CanShowBound};
ghost use Rattle.daq_report.specs.Intervals.{average_text, bound_text};
ghost use Rattle.daq_report.specs.Extras.{clip_at, clip_line, count_text, cut_text, exact_line, exact_lines, extra_lines};
ghost use Rattle.daq_report.specs.Extras.{front_text, high_rows, is_average, low_rows, taken_line, taken_lines, unless_always};

use crate::intervals::{write_average, write_bound};
use crate::texts::{written_count, written_end};
use avg_exact::{Exact, exact_average};
use clip_bounds::clip_bound;
use daq_table::Head;
use outer_world::{Failed, Sink, write_pieces, write_whole};
use plane_schedule::Extras;
use query_model::{AverageBound, Bound, Face, Item, ItemKind, Nullity, TypedQuery};
use round_engine::EngineView;

// Whether the aggregate is an average.
pub(crate) fn is_average(kind: ItemKind) -> bool
    ensures { result ≡ is_average kind }
{
    match kind {
        ItemKind::Avg => true,
        ItemKind::Count | ItemKind::Sum | ItemKind::Min | ItemKind::Max => false,
    }
}

// How many rows an end takes, of how many that it may take, and from where on.
#[derive(Clone, Copy)]
pub(crate) struct TakenRows {
    pub(crate) taken: u64,
    pub(crate) unknown: u64,
    pub(crate) cut: Option<i128>,
}

// Writes an item's number, and what is told of it.
fn write_front<K: Sink>(number: u64, word: &[u8], out: &mut K) -> Result<(), Failed>
    ensures { Writes result (K.state out.old) (K.state out.new) (front_text number word.now) }
{
    write_pieces(out, &[written_count(number).bytes(), word])
}

// Writes a bound, and the line's end.
fn write_bound_end<K: Sink>(
    head: &Head,
    query: &TypedQuery,
    face: Face,
    bound: &Bound,
    out: &mut K,
) -> Result<(), Failed>
    requires { CanShowBound head.now query.now face bound.now }
    ensures { Writes result (K.state out.old) (K.state out.new) (bound_text head.now query.now face bound.now ++ codes "\n") }
{
    write_bound(head, query, face, bound, out)?;
    write_whole(out, b"\n")
}

// Writes the line of a clipped bound.
fn write_clip<K: Sink>(
    head: &Head,
    query: &TypedQuery,
    number: u64,
    face: Face,
    bound: &Bound,
    out: &mut K,
) -> Result<(), Failed>
    requires { CanShowBound head.now query.now face bound.now }
    ensures { Writes result (K.state out.old) (K.state out.new) (clip_line head.now query.now number face (Some bound.now)) }
{
    write_front(number, b" clip ", out)?;
    write_bound_end(head, query, face, bound, out)
}

// Writes the bound of an average, and the line's end.
fn write_average_end<K: Sink>(
    head: &Head,
    query: &TypedQuery,
    face: Face,
    bound: &AverageBound,
    out: &mut K,
) -> Result<(), Failed>
    requires { CanShowAverage head.now query.now face bound.now }
    ensures { Writes result (K.state out.old) (K.state out.new)
        (average_text head.now query.now face (fractions_of bound.now) ++ codes "\n") }
{
    write_average(head, query, face, bound, out)?;
    write_whole(out, b"\n")
}

// Writes the line of the ends of an exact average.
fn write_exact_ends<K: Sink>(
    head: &Head,
    query: &TypedQuery,
    number: u64,
    face: Face,
    bound: &AverageBound,
    out: &mut K,
) -> Result<(), Failed>
    requires { CanShowAverage head.now query.now face bound.now }
    ensures { Writes result (K.state out.old) (K.state out.new) (exact_line head.now query.now number face (fractions_of bound.now)) }
{
    write_front(number, b" exact ", out)?;
    write_average_end(head, query, face, bound, out)
}

// Writes how many of the uncertain rows are taken.
fn write_counts<K: Sink>(taken: u64, unknown: u64, out: &mut K) -> Result<(), Failed>
    ensures { Writes result (K.state out.old) (K.state out.new) (count_text taken unknown) }
{
    let taken = written_count(taken);
    let unknown = written_count(unknown);
    write_pieces(out, &[taken.bytes(), b" of ", unknown.bytes()])
}

// Writes from where on rows are taken, if any is, and the line's end.
fn write_cut<K: Sink>(
    head: &Head,
    query: &TypedQuery,
    face: Face,
    limit: &[u8],
    cut: Option<i128>,
    out: &mut K,
) -> Result<(), Failed>
    requires { CanShowAny head.now query.now face }
    ensures { Writes result (K.state out.old) (K.state out.new) (cut_text head.now query.now face limit.now cut) }
{
    match cut {
        Some(cut) => {
            let number = written_end(head, query, face, cut);
            write_pieces(out, &[limit, number.bytes(), b"\n"])
        }
        None => write_whole(out, b"\n"),
    }
}

// Writes the rows that an end takes, behind the line's front.
fn write_rows<K: Sink>(
    head: &Head,
    query: &TypedQuery,
    face: Face,
    limit: &[u8],
    rows: TakenRows,
    out: &mut K,
) -> Result<(), Failed>
    requires { CanShowAny head.now query.now face }
    ensures { Writes result (K.state out.old) (K.state out.new)
        (count_text rows.taken rows.unknown ++ cut_text head.now query.now face limit.now rows.cut) }
{
    write_counts(rows.taken, rows.unknown, out)?;
    write_cut(head, query, face, limit, rows.cut, out)
}

// The rows that the low end takes.
fn low_rows(exact: &Exact) -> TakenRows
    ensures { result ≡ low_rows (exact_average_of exact.now) }
{
    TakenRows {
        taken: exact.low_taken,
        unknown: exact.unknown,
        cut: exact.low_cut,
    }
}

// The rows that the high end takes.
fn high_rows(exact: &Exact) -> TakenRows
    ensures { result ≡ high_rows (exact_average_of exact.now) }
{
    TakenRows {
        taken: exact.high_taken,
        unknown: exact.unknown,
        cut: exact.high_cut,
    }
}

// Writes the line of the rows that the low end takes.
fn write_low_taken<K: Sink>(
    head: &Head,
    query: &TypedQuery,
    number: u64,
    face: Face,
    exact: &Exact,
    out: &mut K,
) -> Result<(), Failed>
    requires { CanShowAny head.now query.now face }
    ensures { Writes result (K.state out.old) (K.state out.new)
        (taken_line head.now query.now number face (codes " low takes ") (codes " at most ") (low_rows (exact_average_of exact.now))) }
{
    write_front(number, b" low takes ", out)?;
    write_rows(head, query, face, b" at most ", low_rows(exact), out)
}

// Writes the line of the rows that the high end takes.
fn write_high_taken<K: Sink>(
    head: &Head,
    query: &TypedQuery,
    number: u64,
    face: Face,
    exact: &Exact,
    out: &mut K,
) -> Result<(), Failed>
    requires { CanShowAny head.now query.now face }
    ensures { Writes result (K.state out.old) (K.state out.new)
        (taken_line head.now query.now number face (codes " high takes ") (codes " at least ") (high_rows (exact_average_of exact.now))) }
{
    write_front(number, b" high takes ", out)?;
    write_rows(head, query, face, b" at least ", high_rows(exact), out)
}

// Writes the lines of the rows that both ends take.
fn write_both_taken<K: Sink>(
    head: &Head,
    query: &TypedQuery,
    number: u64,
    face: Face,
    exact: &Exact,
    out: &mut K,
) -> Result<(), Failed>
    requires { CanShowAny head.now query.now face }
    ensures { Writes result (K.state out.old) (K.state out.new) (taken_lines head.now query.now number face (exact_average_of exact.now)) }
{
    write_low_taken(head, query, number, face, exact, out)?;
    write_high_taken(head, query, number, face, exact, out)
}

// The same, where there may be an answer.
fn write_taken_lines<K: Sink>(
    head: &Head,
    query: &TypedQuery,
    number: u64,
    face: Face,
    exact: &Exact,
    out: &mut K,
) -> Result<(), Failed>
    requires { CanShowAny head.now query.now face }
    ensures { Writes result (K.state out.old) (K.state out.new)
        (unless_always exact.now.null (taken_lines head.now query.now number face (exact_average_of exact.now))) }
{
    match exact.null {
        Nullity::Never | Nullity::Possibly => {
            write_both_taken(head, query, number, face, exact, out)
        }
        Nullity::Always => Ok(()),
    }
}

// The ends of an exact average, as the bound of an average.
fn ends_of(exact: &Exact) -> AverageBound
    ensures { fractions_of result ≡ ends_of (exact_average_of exact.now) }
{
    AverageBound {
        null: exact.null,
        lo: exact.lo,
        hi: exact.hi,
    }
}

// Writes the lines of an exact average.
fn write_exact<K: Sink>(
    head: &Head,
    query: &TypedQuery,
    number: u64,
    face: Face,
    exact: &Exact,
    out: &mut K,
) -> Result<(), Failed>
    requires { CanShowAny head.now query.now face }
    ensures { Writes result (K.state out.old) (K.state out.new) (exact_lines head.now query.now number face (exact_average_of exact.now)) }
{
    write_exact_ends(head, query, number, face, &ends_of(exact), out)?;
    write_taken_lines(head, query, number, face, exact, out)
}

// Writes the line of an item's clipped bound, if its condition clips its column.
fn write_clip_of<K: Sink>(
    engine: &EngineView<'_>,
    head: &Head,
    place: usize,
    item: &Item,
    out: &mut K,
) -> Result<(), Failed>
    requires fits { FitsHead engine.now.query engine.now.frame head.now }
    requires texts { HeadHasTexts head.now }
    requires there { slice_get engine.now.query.items place ≡ Some item.now }
    requires few { place < 16 }
    ensures { Writes result (K.state out.old) (K.state out.new)
        (clip_line head.now engine.now.query (place + 1) item.now.face (clip_at engine.now item.now)) }
{
    match clip_bound(engine, place) {
        Some(bound) => {
            let number = place as u64 + 1;
            write_clip(head, engine.query(), number, item.face, &bound, out)
        }
        None => Ok(()),
    }
}

// Writes the lines that are wanted behind that of an item over all rows.
pub(crate) fn write_extras<K: Sink>(
    engine: &EngineView<'_>,
    head: &Head,
    extras: Extras,
    place: usize,
    item: &Item,
    out: &mut K,
) -> Result<(), Failed>
    requires fits { FitsHead engine.now.query engine.now.frame head.now }
    requires texts { HeadHasTexts head.now }
    requires plain { engine.now.query.shape ≡ Plain }
    requires there { slice_get engine.now.query.items place ≡ Some item.now }
    requires few { place < 16 }
    ensures { Writes result (K.state out.old) (K.state out.new) (extra_lines head.now engine.now extras (place + 1) item.now) }
{
    if is_average(item.kind) {
        if extras.exact {
            let exact = exact_average(engine, place);
            let number = place as u64 + 1;
            return write_exact(head, engine.query(), number, item.face, &exact, out);
        }
        return Ok(());
    }
    if extras.clip {
        return write_clip_of(engine, head, place, item, out);
    }
    Ok(())
}
