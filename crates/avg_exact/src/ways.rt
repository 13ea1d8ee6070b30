//! The two ways to pass over the rows of an average: by the planes of the column that is its argument, or one by one.

ghost use Rattle.std.specs.Prelude.{◌≡◌, ◌≤◌, ◌<◌, ◌^◌, nat_abs, IfSome};
ghost use Rattle.std.specs.declared.option.Option.TheVariants.{None};
ghost use Rattle.avg_exact.specs.declared.passes.End.TheVariants.{High};
ghost use Rattle.avg_exact.specs.Blocks.{column_of, part_rows, IsMeasure, IsOverColumn, IsShortPart};
ghost use Rattle.avg_exact.specs.Ways.{number_value, opposite, part_tally, taken_tally, ArePlanes};
ghost use Rattle.avg_exact.specs.Ways.{IsFurthestValue, IsNumberOf, IsSmallTally, IsWay};
ghost use Rattle.avg_exact.specs.Passes.{all_rows, greatest_high, least_taken, tally_of, uncertain_count, IsAveraged};

use crate::furthest::furthest;
use crate::passes::{self, End, Tally};
use crate::planes::{Measure, Part, Uncertain, find_uncertain, measure_part};
use crate::sums::sum_at;
use crate::thresholds::threshold;
use interval_calc::Fraction;
use known_column::Known;
use query_model::Expr;
use round_engine::EngineView;

/// The column whose planes are read, what its certain rows come to, and its uncertain rows.
#[derive(Drop)]
pub(crate) struct Planes {
    column: usize,
    certain: Measure,
    uncertain: Uncertain,
}

/// By the planes of a column, or row by row.
#[derive(Drop)]
pub(crate) enum Way {
    Planes(Planes),
    Rows,
}

// The way over the rows of a column.
fn planes_of(engine: &EngineView<'_>, item: usize, column: usize) -> Planes
    requires over { IsOverColumn engine.now item column }
    ensures { ArePlanes engine.now item result }
{
    let uncertain = find_uncertain(engine, item, column);
    Planes {
        column,
        certain: measure_part(engine, item, column, Part::Certain, &uncertain.blocks),
        uncertain,
    }
}

/// The way to pass over the rows of an item.
pub(crate) fn way_of(engine: &EngineView<'_>, item: usize) -> Way
    requires averaged { IsAveraged engine.now item }
    ensures { IsWay engine.now item result }
{
    let item_of_query = &engine.query().items.as_slice()[item];
    match &item_of_query.arg {
        Expr::Column(column) => Way::Planes(planes_of(engine, item, *column as usize)),
        _ => Way::Rows,
    }
}

// What some of the rows come to at an end.
fn tally_part(
    engine: &EngineView<'_>,
    item: usize,
    column: usize,
    end: End,
    part: Part,
    measure: Measure,
) -> Tally
    requires over { IsOverColumn engine.now item column }
    requires measure { IsMeasure (column_of engine.now column) (part_rows engine.now item column part) measure }
    ensures tally { result ≡ part_tally end (column_of engine.now column) part (part_rows engine.now item column part) }
    ensures few { IsSmallTally result }
{
    let known = engine.columns().column(column);
    let _rows = known.rows();
    let _width = known.width();
    Tally {
        sum: sum_at(known, end, measure),
        rows: measure.rows,
        taken: match part {
            Part::Certain => 0,
            Part::Reached(_, _) => measure.rows,
        },
    }
}

// The uncertain rows above a fraction.
fn count_taken(
    engine: &EngineView<'_>,
    item: usize,
    planes: &Planes,
    end: End,
    over: Fraction,
) -> Tally
    requires planes { ArePlanes engine.now item planes.now }
    ensures tally { result ≡ taken_tally over (all_rows engine.now item end) }
    ensures few { IsSmallTally result }
{
    let column = planes.column;
    match threshold(engine.columns().column(column), end, over) {
        None => Tally {
            sum: 0,
            rows: 0,
            taken: 0,
        },
        Some(t) => {
            let part = Part::Reached(end, t);
            let measure = measure_part(engine, item, column, part, &planes.uncertain.blocks);
            tally_part(engine, item, column, end, part, measure)
        }
    }
}

// The certain rows, and the uncertain ones above a fraction, by planes.
fn count_by_planes(
    engine: &EngineView<'_>,
    item: usize,
    planes: &Planes,
    end: End,
    over: Option<Fraction>,
) -> Tally
    requires planes { ArePlanes engine.now item planes.now }
    ensures tally { result ≡ tally_of over (all_rows engine.now item end) }
    ensures small { nat_abs result.sum < 2 ^ 127 }
{
    let sure = tally_part(
        engine,
        item,
        planes.column,
        end,
        Part::Certain,
        planes.certain,
    );
    match over {
        None => sure,
        Some(over) => {
            let taken = count_taken(engine, item, planes, end, over);
            Tally {
                sum: sure.sum + taken.sum,
                rows: sure.rows + taken.rows,
                taken: taken.taken,
            }
        }
    }
}

/// The certain rows, and the uncertain ones above a fraction.
pub(crate) fn count_above(
    engine: &EngineView<'_>,
    item: usize,
    way: &Way,
    end: End,
    over: Option<Fraction>,
) -> Tally
    requires averaged { IsAveraged engine.now item }
    requires way { IsWay engine.now item way.now }
    requires small { IfSome over (λ f. f.den ≤ engine.now.frame.rows) }
    ensures tally { result ≡ tally_of over (all_rows engine.now item end) }
    ensures small { nat_abs result.sum < 2 ^ 127 }
{
    match way {
        Way::Planes(planes) => count_by_planes(engine, item, planes, end, over),
        Way::Rows => passes::count_above(engine, item, end, over),
    }
}

/// How many rows are uncertain.
pub(crate) fn count_uncertain(engine: &EngineView<'_>, item: usize, way: &Way) -> u64
    requires averaged { IsAveraged engine.now item }
    requires way { IsWay engine.now item way.now }
    ensures { result ≡ uncertain_count (all_rows engine.now item High) }
{
    match way {
        Way::Planes(planes) => planes.uncertain.rows,
        Way::Rows => passes::count_uncertain(engine, item),
    }
}

// The end of the range of a number of which these digits were read.
fn value_of_number(known: &Known, end: End, number: u64) -> i128
    requires { IsNumberOf known.now number }
    ensures value { result ≡ number_value end known.now number }
    ensures small { nat_abs result < 2 ^ 127 }
{
    let unread = known.unread();
    let ends = known.declared();
    let _width = known.width();
    let first = u128::from(number) << unread;
    match end {
        End::Low => -(i128::from(ends.base) + first as i128),
        End::High => {
            let last = first + ((1u128 << unread) - 1);
            i128::from(ends.base) + last.min(u128::from(ends.top.abs_diff(ends.base))) as i128
        }
    }
}

// The value at an end of that of some rows whose number lies furthest.
fn furthest_value(
    engine: &EngineView<'_>,
    item: usize,
    planes: &Planes,
    part: Part,
    end: End,
    toward: End,
) -> Option<i128>
    requires planes { ArePlanes engine.now item planes.now }
    requires short { IsShortPart (column_of engine.now planes.now.column) part }
    ensures value { IsFurthestValue toward end (column_of engine.now planes.now.column)
        (part_rows engine.now item planes.now.column part) result }
    ensures small { IfSome result (λ v. nat_abs v < 2 ^ 127) }
{
    let known = engine.columns().column(planes.column);
    let _rows = known.rows();
    let _width = known.width();
    let blocks = &planes.uncertain.blocks;
    match furthest(engine, item, planes.column, part, blocks, toward) {
        None => None,
        Some(number) => Some(value_of_number(known, end, number)),
    }
}

// The other end.
fn opposite(end: End) -> End
    ensures { result ≡ opposite end }
{
    match end {
        End::Low => End::High,
        End::High => End::Low,
    }
}

// The least value of an uncertain row above a fraction, by planes.
fn least_by_planes(
    engine: &EngineView<'_>,
    item: usize,
    planes: &Planes,
    end: End,
    over: Fraction,
) -> Option<i128>
    requires planes { ArePlanes engine.now item planes.now }
    ensures least { result ≡ least_taken over (all_rows engine.now item end) }
    ensures small { IfSome result (λ v. nat_abs v < 2 ^ 127) }
{
    let known = engine.columns().column(planes.column);
    let _rows = known.rows();
    let _width = known.width();
    match threshold(known, end, over) {
        None => None,
        Some(t) => furthest_value(
            engine,
            item,
            planes,
            Part::Reached(end, t),
            end,
            opposite(end),
        ),
    }
}

/// The least value of an uncertain row above a fraction.
pub(crate) fn least_above(
    engine: &EngineView<'_>,
    item: usize,
    way: &Way,
    end: End,
    over: Fraction,
) -> Option<i128>
    requires averaged { IsAveraged engine.now item }
    requires way { IsWay engine.now item way.now }
    requires small { over.den ≤ engine.now.frame.rows }
    ensures least { result ≡ least_taken over (all_rows engine.now item end) }
    ensures small { IfSome result (λ v. nat_abs v < 2 ^ 127) }
{
    match way {
        Way::Planes(planes) => least_by_planes(engine, item, planes, end, over),
        Way::Rows => passes::least_above(engine, item, end, over),
    }
}

// The greatest value of a row, where none is certain, by planes.
fn greatest_by_planes(
    engine: &EngineView<'_>,
    item: usize,
    planes: &Planes,
    end: End,
) -> Option<i128>
    requires planes { ArePlanes engine.now item planes.now }
    requires uncertain { (tally_of None (all_rows engine.now item end)).rows ≡ 0 }
    ensures greatest { result ≡ greatest_high (all_rows engine.now item end) }
    ensures small { IfSome result (λ v. nat_abs v < 2 ^ 127) }
{
    let known = engine.columns().column(planes.column);
    let _rows = known.rows();
    let _width = known.width();
    let all = Part::Reached(End::High, 0);
    furthest_value(engine, item, planes, all, end, end)
}

/// The greatest value of a row, where none is certain.
pub(crate) fn greatest(engine: &EngineView<'_>, item: usize, way: &Way, end: End) -> Option<i128>
    requires averaged { IsAveraged engine.now item }
    requires way { IsWay engine.now item way.now }
    requires uncertain { (tally_of None (all_rows engine.now item end)).rows ≡ 0 }
    ensures greatest { result ≡ greatest_high (all_rows engine.now item end) }
    ensures small { IfSome result (λ v. nat_abs v < 2 ^ 127) }
{
    match way {
        Way::Planes(planes) => greatest_by_planes(engine, item, planes, end),
        Way::Rows => passes::greatest(engine, item, end),
    }
}
