//! Reads line by line, writes each block as soon as the lines tell it, and reads no further behind the end.

ghost use Rattle.std.specs.Prelude.{◌≡◌, ◌<◌, ◌≤◌, None, Ok, IfErr, IfOk, OnOk, false, length, true};
ghost use Rattle.query_kinds.specs.Kinds.{AsksOther, IsKindsFault};
ghost use Rattle.report_stream.specs.Steps.{IsAsked, IsEarly, IsEnd, IsFirstFault, IsOpen, IsShapeFault, PutsOut, RefusesBlocks};
ghost use Rattle.report_stream.specs.Steps.{StopsAt, StopsTake};
ghost use Rattle.report_stream.specs.Streams.{Combined, IsOfItems, IsShapeOf, StreamCause, shape_of_rows};
ghost use Rattle.source_lines.specs.Lines.{Ends, Stands as HasRead, has_line};

use crate::fault::{LineRefusal, StreamFault, Tag, of_input, of_kinds, of_source};
use daq_table::Listed;
use outer_world::{Sink, Source, write_whole};
use query_kinds::{FirstRows, KindsFault, first_rows, query_shape};
use report_parts::{
    Asked, BlockFault, Combination, CourseFault, EndFault, Shape, Until, untagged, written_opening,
};
use source_lines::SourceLines;
use std::alloc::Global;

// The shape of the blocks of a query of totals or groups.
fn shape_of_items(alloc: Global, query: &[u8]) -> Result<Shape, KindsFault>
    ensures shape { IfOk result (IsOfItems query.now) }
    ensures fault { IfErr result (IsKindsFault query.now) }
{
    let asked = query_shape(alloc, query)?;
    Ok(Shape {
        kinds: Listed::new(asked.kinds),
        columns: asked.columns,
        besides: Listed::new(asked.besides),
        rows: None,
    })
}

// The shape of the blocks of a query of first rows.
fn shape_of_rows(alloc: Global, asked: FirstRows) -> Shape
    ensures { result ≡ shape_of_rows asked }
{
    Shape {
        kinds: Listed::new(Vec::new(alloc)),
        columns: 0,
        besides: Listed::new(Vec::new(alloc)),
        rows: Some(asked),
    }
}

// The shape of the blocks of a query of neither totals nor groups, if it is of first rows.
#[tactic(auto, using(crate::proofs::Steps::rows_refused))]
fn read_rows(alloc: Global, query: &[u8]) -> Result<Shape, KindsFault>
    requires { AsksOther query.now }
    ensures shape { IfOk result (IsShapeOf query.now) }
    ensures fault { IfErr result (IsShapeFault query.now) }
{
    match first_rows(alloc, query) {
        Ok(Some(asked)) => Ok(shape_of_rows(alloc, asked)),
        Ok(None) => Err(KindsFault::NoTotals),
        Err(fault) => Err(fault),
    }
}

// The shape of the blocks that the line of a query asks for.
fn read_shape(alloc: Global, query: &[u8]) -> Result<Shape, KindsFault>
    ensures shape { IfOk result (IsShapeOf query.now) }
    ensures fault { IfErr result (IsShapeFault query.now) }
{
    match shape_of_items(alloc, query) {
        Ok(shape) => Ok(shape),
        Err(KindsFault::NoTotals) => read_rows(alloc, query),
        Err(KindsFault::NoQuery) => Err(KindsFault::NoQuery),
        Err(KindsFault::NoMemory) => Err(KindsFault::NoMemory),
    }
}

// What the first line asks of all parts.
#[tactic(auto, using(crate::proofs::Steps::first_refused, crate::proofs::Steps::kinds_refused))]
fn read_asked(alloc: Global, first: &[u8]) -> Result<Asked, StreamFault>
    ensures asked { IfOk result (λ asked. IsAsked first.now asked.query.items asked.shape) }
    ensures refused { IfErr result (IsFirstFault first.now) }
{
    let query = match untagged(first) {
        Ok(query) => query,
        Err(fault) => return Err(of_input(1, fault)),
    };
    let shape = match read_shape(alloc, query) {
        Ok(shape) => shape,
        Err(fault) => return Err(of_kinds(fault)),
    };
    let mut text = Vec::new(alloc);
    text.extend_from_slice(query)?;
    Ok(Asked { query: text, shape })
}

// Reads until the line with that number stands there, or to the end of the input.
fn read_line<S: Source>(
    alloc: Global,
    reader: &mut SourceLines,
    number: usize,
    input: &mut S,
) -> Result<bool, StreamFault>
    ensures line { result ≡ Ok true → HasRead reader.old reader.new (S.state input.old) (S.state input.new) }
    ensures ended { result ≡ Ok false → Ends reader.old reader.new (S.state input.old) (S.state input.new) }
    ensures stopped { IfErr result (StopsAt number reader.old (S.state input.old) (S.state input.new)) }
    ensures idle { has_line reader.old.pending ≡ true → (reader.new ≡ reader.old) × (input.new ≡ input.old) }
    ensures faults { (S.state input.old).faults ≤ (S.state input.new).faults }
{
    match reader.read_line(alloc, input) {
        Ok(came) => Ok(came),
        Err(fault) => Err(of_source(number, fault)),
    }
}

// Writes the blocks before one that is refused.
fn write_before<K: Sink>(out: &mut K, text: &[u8], number: usize, why: LineRefusal) -> StreamFault
    ensures { RefusesBlocks result number why (K.state out.old) (K.state out.new) text.now }
{
    match write_whole(out, text) {
        Ok(()) => StreamFault::Line { line: number, why },
        Err(_) => StreamFault::WriteFault,
    }
}

// Takes the line with that number, and writes what stands then behind the text. Where a block is refused, those before it are written.
fn take<K: Sink>(
    alloc: Global,
    combination: &mut Combination,
    text: &mut Vec<u8>,
    number: usize,
    line: &[u8],
    out: &mut K,
) -> Result<(), StreamFault>
    requires { combination.old.end ≡ None }
    ensures task { combination.new.task ≡ combination.old.task }
    ensures taken { OnOk result (PutsOut combination.old combination.new line.now text.old.items text.new.items
        (K.state out.old) (K.state out.new)) }
    ensures refused { IfErr result (StopsTake combination.old line.now text.old.items number
        out.old out.new (K.state out.old) (K.state out.new)) }
{
    match combination.take(alloc, line, text) {
        Ok(()) => {
            write_whole(out, text)?;
            text.clear();
            Ok(())
        }
        Err(CourseFault::Input(fault)) => Err(of_input(number, fault)),
        Err(CourseFault::Block(BlockFault::OtherColumn(column))) => {
            let why = LineRefusal::OtherColumn(column);
            Err(write_before(out, text, number, why))
        }
        Err(CourseFault::Block(BlockFault::OtherItem(item))) => {
            let why = LineRefusal::OtherItem(item);
            Err(write_before(out, text, number, why))
        }
        Err(CourseFault::Block(BlockFault::TooWide(item))) => {
            let why = LineRefusal::TooWide(item);
            Err(write_before(out, text, number, why))
        }
        Err(CourseFault::Block(BlockFault::UnclearTag(part))) => {
            let why = LineRefusal::UnclearTag(part);
            Err(write_before(out, text, number, why))
        }
        Err(CourseFault::Block(BlockFault::OtherForm)) => {
            Err(write_before(out, text, number, LineRefusal::OtherForm))
        }
        Err(CourseFault::Block(BlockFault::NoMemory)) => Err(StreamFault::NoMemory),
    }
}

// The report of the part with that tag ends early.
fn ends_early(alloc: Global, tag: &[u8]) -> StreamFault
    requires { length tag.now ≤ 255 }
    ensures { IsEarly tag.now result }
{
    let mut text = Vec::new(alloc);
    match text.extend_from_slice(tag) {
        Ok(()) => StreamFault::EndsEarly {
            tag: Tag::new(text),
        },
        Err(_) => StreamFault::NoMemory,
    }
}

// Why the input may not end here.
fn end_fault(alloc: Global, combination: &Combination) -> StreamFault
    requires { IsOpen combination.now }
    ensures { IsEnd combination.now result }
{
    match combination.may_end() {
        Err(EndFault::EndsEarly(place)) => ends_early(alloc, combination.tag_at(place)),
        Err(EndFault::OtherCount(count)) => StreamFault::OtherCount { count },
        Ok(()) => unreachable!(),
    }
}

/// Combines the reports of so many parts, up to that round. The input has their lines, each behind the tag of its part and a tab, those
/// of a part in their order. A block is written as soon as the lines that have come tell it, and behind the end of the combined report
/// nothing is read. Where it stops before, whole blocks stand in the output, but for a failed write.
pub fn combine_reports<S: Source, K: Sink>(
    alloc: Global,
    count: usize,
    until: Until,
    input: &mut S,
    out: &mut K,
) -> Result<(), StreamFault>
    requires { 0 < count }
    ensures done { OnOk result (Combined count until (S.state input.old) (S.state input.new) (K.state out.old) (K.state out.new)) }
    ensures refused { IfErr result (StreamCause count until
        (S.state input.old) (S.state input.new) (K.state out.old) (K.state out.new)) }
{
    let mut reader = SourceLines::new(alloc);
    if !read_line(alloc, &mut reader, 1, input)? {
        return Err(StreamFault::OtherCount { count: 0 });
    }
    let asked = read_asked(alloc, reader.line())?;
    let mut text = written_opening(alloc, &asked.query, count as u64)?;
    let mut combination = Combination::new(alloc, asked, count, until);
    let mut number = 0;
    'lines: while !combination.has_ended() {
        number += 1;
        if !read_line(alloc, &mut reader, number, input)? {
            return Err(end_fault(alloc, &combination));
        }
        let line = reader.line();
        take(alloc, &mut combination, &mut text, number, line, out)?;
        reader.pass();
    }
    Ok(())
}
