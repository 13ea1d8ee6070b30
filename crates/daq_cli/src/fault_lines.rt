//! What the line of each fault of a query, a script, a session, a schema, a table, a list of reads and a plane file says.

ghost use Rattle.std.specs.Prelude.{◌≡◌, ◌≤◌, ◌+◌, ◌++◌, length, pos};
ghost use Rattle.std.specs.Fmt.{signed_decimal};
ghost use Rattle.daq_cli.specs.Refusals.{file_fault_text, line_fault_text, over_top_text, plane_text, reads_fault_text, schema_fault_text};
ghost use Rattle.daq_cli.specs.Refusals.{script_fault_text, session_fault_text, table_fault_text, text_fault_text, type_fault_text};

use csv_load::TableFault;
use daq_table::{SchemaFault, TextBuf, written_number};
use multi_session::SessionFault;
use plane_file::FileFault;
use plane_reads::ReadsFault;
use session_script::ScriptFault;
use sql_text::SqlFault;
use sql_typing::TypeFault;

// The line for a text that is no query.
pub(crate) fn written_text_fault(fault: &SqlFault) -> TextBuf
    ensures text { result ≡ text_fault_text fault.now }
    ensures short { length result ≤ 160 }
{
    match fault {
        SqlFault::TooLong => plain(b"query refused: longer than 4096 bytes"),
        SqlFault::Syntax { at } => placed(b"query refused: syntax at ", *at),
        SqlFault::TooDeep { at } => placed(b"query refused: nested too deep at ", *at),
        SqlFault::LiteralTooLarge { at } => placed(b"query refused: number too large at ", *at),
        SqlFault::NoMemory => plain(b"no memory"),
    }
}

// The line for bytes that are no script.
pub(crate) fn written_script_fault(fault: &ScriptFault) -> TextBuf
    ensures text { result ≡ script_fault_text fault.now }
    ensures short { length result ≤ 500 }
{
    match fault {
        ScriptFault::TooLong { limit } => with_number(
            b"query refused: script longer than ",
            counted(*limit),
            b" bytes",
        ),
        ScriptFault::NoText { at } => placed(b"query refused: script is no text at ", *at),
        ScriptFault::NoQuery => plain(b"query refused: no query in the script"),
        ScriptFault::TooMany { count } => {
            with_number(b"query refused: ", counted(*count), b" queries")
        }
        ScriptFault::NoMemory => plain(b"no memory"),
    }
}

// The line for queries that make no session.
pub(crate) fn written_session_fault(fault: &SessionFault) -> TextBuf
    ensures text { result ≡ session_fault_text fault.now }
    ensures short { length result ≤ 500 }
{
    match fault {
        SessionFault::TooMany { count } => {
            with_number(b"query refused: ", counted(*count), b" queries")
        }
        SessionFault::TooManyColumns { count } => with_number(
            b"query refused: ",
            counted(*count),
            b" columns in the session",
        ),
        SessionFault::TooLarge { cells } => with_number(
            b"query refused: ",
            *cells as u128,
            b" cells in the session",
        ),
        SessionFault::NoMemory => plain(b"no memory"),
    }
}

// The refusal of a query in a line of a script, made of the refusal that the query shows alone.
pub(crate) fn written_at_line(line: usize, alone: &[u8]) -> TextBuf
    requires { length alone.now ≤ 160 }
    ensures text { result ≡ line_fault_text line alone.now }
    ensures short { length result ≤ 500 }
{
    let mut text = with_number(b"query refused: line ", counted(line), b": ");
    text.append(&alone[b"query refused: ".len().min(alone.len())..]);
    text
}

// The line for a list of columns to be read.
pub(crate) fn written_reads_fault(fault: &ReadsFault) -> TextBuf
    ensures text { result ≡ reads_fault_text fault.now }
    ensures short { length result ≤ 500 }
{
    match fault {
        ReadsFault::UnknownName { place } => with_number(
            b"query refused: read ",
            after(*place),
            b" names no column of the query",
        ),
        ReadsFault::PastEnd { place } => with_number(
            b"query refused: read ",
            after(*place),
            b" is past its column's last plane",
        ),
        ReadsFault::NoMemory => plain(b"no memory"),
    }
}

// The line for a schema.
pub(crate) fn written_schema_fault(fault: &SchemaFault) -> TextBuf
    ensures text { result ≡ schema_fault_text fault.now }
    ensures short { length result ≤ 500 }
{
    match fault {
        SchemaFault::BadItem { at } => {
            with_number(b"table refused: schema item at ", counted(*at), b"")
        }
        SchemaFault::TooMany { count } => {
            with_number(b"table refused: ", counted(*count), b" schema items")
        }
        SchemaFault::TooManyItems { count } => with_number(
            b"table refused: ",
            counted(*count),
            b" schema items with those skipped",
        ),
        SchemaFault::NoColumn => plain(b"table refused: all schema items are skipped"),
        SchemaFault::RepeatedName { first, second } => {
            let front = with_number(b"table refused: schema items ", after(*first), b" and ");
            with_number(front.bytes(), after(*second), b" have one name")
        }
        SchemaFault::NoMemory => plain(b"no memory"),
    }
}

// The line for a table.
pub(crate) fn written_table_fault(fault: &TableFault) -> TextBuf
    ensures text { result ≡ table_fault_text fault.now }
    ensures short { length result ≤ 500 }
{
    match fault {
        TableFault::NoHeader => plain(b"table refused: no header"),
        TableFault::HeaderDiffers { column } => with_number(
            b"table refused: header differs at column ",
            after(*column),
            b"",
        ),
        TableFault::TooManyRows { limit } => {
            with_number(b"table refused: more than ", u128::from(*limit), b" rows")
        }
        TableFault::TooManyCells { count } => {
            with_number(b"table refused: ", u128::from(*count), b" cells")
        }
        TableFault::UnequalLength { entry, got, want } => written_lengths(*entry, *got, *want),
        TableFault::BadCell { entry, column } => {
            let front = with_number(b"table refused: record ", after(*entry), b" column ");
            with_number(front.bytes(), after(*column), b" is no value of its kind")
        }
        TableFault::TooManyNames { column } => with_number(
            b"table refused: column ",
            after(*column),
            b" has too many names",
        ),
        TableFault::NoMemory => plain(b"no memory"),
    }
}

// The line for a query that cannot be typed.
pub(crate) fn written_type_fault(fault: &TypeFault) -> TextBuf
    ensures text { result ≡ type_fault_text fault.now }
    ensures short { length result ≤ 160 }
{
    match fault {
        TypeFault::UnknownTable { at } => placed(b"query refused: unknown table at ", *at),
        TypeFault::UnknownColumn { at } => placed(b"query refused: unknown column at ", *at),
        TypeFault::TooManyColumns => plain(b"query refused: more than 16 columns"),
        TypeFault::TooManyItems => plain(b"query refused: more than 16 aggregates"),
        TypeFault::KindsDiffer { at } => placed(b"query refused: kinds differ at ", *at),
        TypeFault::ScaleTooFine { at } => placed(b"query refused: scale too fine at ", *at),
        TypeFault::NotGrouped { at } => placed(b"query refused: not grouped at ", *at),
        TypeFault::TooManyValues { at } => placed(b"query refused: too many values at ", *at),
        TypeFault::LimitOutOfRange { at } => placed(b"query refused: limit out of range at ", *at),
        TypeFault::GroupTooWide { bits } => {
            with_number(b"query refused: group of ", u128::from(*bits), b" bits")
        }
        TypeFault::TooWide { item } => {
            with_number(b"query refused: item ", after(*item), b" too wide")
        }
        TypeFault::NoMemory => plain(b"no memory"),
    }
}

// The line for a plane file.
pub(crate) fn written_file_fault(fault: &FileFault) -> TextBuf
    ensures text { result ≡ file_fault_text fault.now }
    ensures short { length result ≤ 500 }
{
    match fault {
        FileFault::BadMagic => plain(b"file refused: not a plane file"),
        FileFault::UnknownVersion { found } => {
            with_number(b"file refused: version ", u128::from(*found), b"")
        }
        FileFault::BadHead { at } => {
            with_number(b"file refused: bad head at ", u128::from(*at), b"")
        }
        FileFault::LimitPassed { at } => {
            with_number(b"file refused: limit passed at ", u128::from(*at), b"")
        }
        FileFault::WrongSize { found, wanted } => {
            let front = with_number(b"file refused: size ", u128::from(*found), b", not ");
            with_number(front.bytes(), u128::from(*wanted), b"")
        }
        FileFault::WentShort => plain(b"file refused: the store ended early"),
        FileFault::Fault => plain(b"read fault"),
        FileFault::NoMemory => plain(b"no memory"),
    }
}

// The plane of a column, and what is said of it.
pub(crate) fn written_plane(column: usize, plane: u8, words: &[u8]) -> TextBuf
    requires { length words.now ≤ 40 }
    ensures text { result ≡ plane_text column plane ++ words.now }
    ensures short { length result ≤ 300 }
{
    let front = with_number(b"file refused: column ", after(column), b" plane ");
    with_number(front.bytes(), after(usize::from(plane)), words)
}

// That with a plane the digits of a row would pass those of its column's top.
pub(crate) fn written_over_top(column: usize, plane: u8, row: usize) -> TextBuf
    ensures text { result ≡ over_top_text column plane row }
    ensures short { length result ≤ 500 }
{
    let front = written_plane(column, plane, b" row ");
    with_number(front.bytes(), after(row), b" passes its top")
}

// Words and a place of the text.
fn placed(words: &[u8], at: usize) -> TextBuf
    requires { length words.now ≤ 60 }
    ensures text { result ≡ words.now ++ signed_decimal (pos at) }
    ensures short { length result ≤ 160 }
{
    with_number(words, counted(at), b"")
}

// That a record has so many fields, and not so many.
fn written_lengths(entry: usize, got: usize, want: usize) -> TextBuf
    ensures text { result ≡ table_fault_text (TableFault.UnequalLength entry got want) }
    ensures short { length result ≤ 500 }
{
    let front = with_number(b"table refused: record ", after(entry), b" has ");
    let middle = with_number(front.bytes(), counted(got), b" fields, not ");
    with_number(middle.bytes(), counted(want), b"")
}

// A count as a number.
pub(crate) fn counted(count: usize) -> u128
    ensures { result ≡ count }
{
    count as u128
}

// The place of what stands behind so many, counted from 1.
pub(crate) fn after(count: usize) -> u128
    ensures { result ≡ count + 1 }
{
    count as u128 + 1
}

// Words alone.
pub(crate) fn plain(words: &[u8]) -> TextBuf
    requires { length words.now ≤ 60 }
    ensures text { result ≡ words.now }
    ensures short { length result ≤ 60 }
{
    let mut text = TextBuf::new();
    text.append(words);
    text
}

// A number between two texts.
pub(crate) fn with_number(front: &[u8], number: u128, back: &[u8]) -> TextBuf
    requires front { length front.now ≤ 340 }
    requires number { number ≤ 18446744073709551616 }
    requires back { length back.now ≤ 40 }
    ensures text { result ≡ front.now ++ signed_decimal (pos number) ++ back.now }
    ensures short { length result ≤ length front.now + length back.now + 100 }
{
    let mut text = TextBuf::new();
    text.append(front);
    text.append(written_number(number as i128, 0).bytes());
    text.append(back);
    text
}
