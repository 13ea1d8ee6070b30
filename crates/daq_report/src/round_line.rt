//! The line of a round.

ghost use Rattle.std.specs.Prelude.{◌≡◌, ◌<◌, ◌≤◌, ◌+◌, ◌++◌, length, IfSome};
ghost use Rattle.daq_table.specs.Tables.{ends_at, planes};
ghost use Rattle.query_model.specs.Knowledge.{known_at};
ghost use Rattle.query_model.specs.Validity.{FitsHead};
ghost use Rattle.daq_report.specs.Blocks.{planes_text, round_line};

use crate::texts::{column_at, written_count};
use daq_table::{Head, TextBuf, planes};
use round_engine::EngineView;

// How many planes of a column are read, and of how many.
fn planes_read(engine: &EngineView<'_>, head: &Head, column: usize) -> (u8, u8)
    requires fits { FitsHead engine.now.query engine.now.frame head.now }
    requires column { column < length engine.now.query.columns }
    ensures read { result.0 ≡ (known_at engine.now.known column).read }
    ensures all { result.1 ≡ planes (ends_at engine.now.frame column) }
{
    let all = planes(column_at(head, engine.query(), column));
    let unread = engine.progress().unread[column];
    (all - unread, all)
}

// Appends the name of a column, how many of its planes are read, and of how many.
fn append_planes(engine: &EngineView<'_>, head: &Head, column: usize, text: &mut TextBuf)
    requires fits { FitsHead engine.now.query engine.now.frame head.now }
    requires column { column < length engine.now.query.columns }
    requires room { length text.old ≤ 200 }
    ensures text { text.new ≡ text.old ++ planes_text head.now engine.now column }
    ensures short { length text.new ≤ length text.old + 300 }
{
    let (read, all) = planes_read(engine, head, column);
    text.append(b" ");
    text.append(column_at(head, engine.query(), column).name.as_slice());
    text.append(b" ");
    text.append(written_count(u64::from(read)).bytes());
    text.append(b"/");
    text.append(written_count(u64::from(all)).bytes());
}

// The line of a round.
pub(crate) fn written_round(
    engine: &EngineView<'_>,
    head: &Head,
    round: u32,
    last: Option<usize>,
) -> TextBuf
    requires fits { FitsHead engine.now.query engine.now.frame head.now }
    requires last { IfSome last (λ c. c < length engine.now.query.columns) }
    ensures { result ≡ round_line head.now engine.now round last }
{
    let mut text = TextBuf::new();
    text.append(b"round ");
    text.append(written_count(u64::from(round)).bytes());
    let Some(column) = last else {
        text.append(b"\n");
        return text;
    };
    append_planes(engine, head, column, &mut text);
    text.append(b"\n");
    text
}
