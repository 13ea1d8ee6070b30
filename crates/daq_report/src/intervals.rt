//! Where an answer lies, written to a sink or appended to lines that are gathered. Two names do not fit one buffer, so an interval goes out
//! in pieces.

ghost use Rattle.std.specs.Prelude.{◌≡◌, ◌≤◌, ◌+◌, ◌++◌, codes, length};
ghost use Rattle.outer_world.specs.Whole.{Writes};
ghost use Rattle.query_model.specs.Bounds.{fractions_of};
ghost use Rattle.query_model.specs.declared.bounds.Nullity.TheVariants.{Possibly};
ghost use Rattle.daq_report.specs.Intervals.{average_ends, average_text, bound_ends, bound_text, interval_text};
ghost use Rattle.daq_report.specs.Ends.{CanShowAverage, CanShowBound, CanShowEnds, text_of_ends};

use crate::gathered::Gathered;
use crate::texts::{written_end, written_fraction};
use daq_table::{Head, TextBuf};
use outer_world::{Failed, Sink, write_pieces, write_whole};
use query_model::{AverageBound, Bound, Face, Nullity, TypedQuery};

// The texts of both ends, and whether the ends are equal.
#[derive(Drop)]
pub(crate) struct Ends {
    pub(crate) equal: bool,
    pub(crate) low: TextBuf,
    pub(crate) high: TextBuf,
}

// Writes one text where the ends are equal, else both.
fn write_ends<K: Sink>(ends: &Ends, out: &mut K) -> Result<(), Failed>
    ensures { Writes result (K.state out.old) (K.state out.new) (text_of_ends ends.now) }
{
    if ends.equal {
        return write_whole(out, ends.low.bytes());
    }
    write_pieces(
        out,
        &[b"[", ends.low.bytes(), b", ", ends.high.bytes(), b"]"],
    )
}

// Writes the ends of an answer that may be none.
fn write_ends_or_null<K: Sink>(ends: &Ends, out: &mut K) -> Result<(), Failed>
    ensures { Writes result (K.state out.old) (K.state out.new) (interval_text Possibly (text_of_ends ends.now)) }
{
    write_ends(ends, out)?;
    write_whole(out, b" or null")
}

// Writes that there is no answer, or no value.
pub(crate) fn write_null<K: Sink>(out: &mut K) -> Result<(), Failed>
    ensures { Writes result (K.state out.old) (K.state out.new) (codes "null") }
{
    write_whole(out, b"null")
}

// The ends of a bound under a face.
fn ends_of_bound(head: &Head, query: &TypedQuery, face: Face, bound: &Bound) -> Ends
    requires { CanShowEnds head.now query.now face bound.now.lo bound.now.hi }
    ensures { text_of_ends result ≡ bound_ends head.now query.now face bound.now }
{
    Ends {
        equal: bound.lo == bound.hi,
        low: written_end(head, query, face, bound.lo),
        high: written_end(head, query, face, bound.hi),
    }
}

// Writes where an answer lies.
pub(crate) fn write_bound<K: Sink>(
    head: &Head,
    query: &TypedQuery,
    face: Face,
    bound: &Bound,
    out: &mut K,
) -> Result<(), Failed>
    requires { CanShowBound head.now query.now face bound.now }
    ensures { Writes result (K.state out.old) (K.state out.new) (bound_text head.now query.now face bound.now) }
{
    match bound.null {
        Nullity::Never => write_ends(&ends_of_bound(head, query, face, bound), out),
        Nullity::Possibly => write_ends_or_null(&ends_of_bound(head, query, face, bound), out),
        Nullity::Always => write_null(out),
    }
}

// Appends one text where the ends are equal, else both.
fn append_ends(ends: &Ends, lines: &mut Gathered)
    requires { length lines.old + 1300 ≤ 98304 }
    ensures text { lines.new ≡ lines.old ++ text_of_ends ends.now }
    ensures few { length lines.new ≤ length lines.old + 1300 }
{
    if ends.equal {
        lines.append(ends.low.bytes());
        return;
    }
    lines.append(b"[");
    lines.append(ends.low.bytes());
    lines.append(b", ");
    lines.append(ends.high.bytes());
    lines.append(b"]");
}

// Appends where an answer lies.
pub(crate) fn append_bound(
    head: &Head,
    query: &TypedQuery,
    face: Face,
    bound: &Bound,
    lines: &mut Gathered,
)
    requires shows { CanShowBound head.now query.now face bound.now }
    requires room { length lines.old + 1310 ≤ 98304 }
    ensures text { lines.new ≡ lines.old ++ bound_text head.now query.now face bound.now }
    ensures few { length lines.new ≤ length lines.old + 1310 }
{
    match bound.null {
        Nullity::Never => append_ends(&ends_of_bound(head, query, face, bound), lines),
        Nullity::Possibly => {
            append_ends(&ends_of_bound(head, query, face, bound), lines);
            lines.append(b" or null");
        }
        Nullity::Always => lines.append(b"null"),
    }
}

// The ends of an average under a face.
fn ends_of_average(head: &Head, query: &TypedQuery, face: Face, bound: &AverageBound) -> Ends
    requires { CanShowEnds head.now query.now face bound.now.lo.num bound.now.hi.num }
    ensures { text_of_ends result ≡ average_ends head.now query.now face (fractions_of bound.now) }
{
    Ends {
        equal: bound.lo.num == bound.hi.num && bound.lo.den == bound.hi.den,
        low: written_fraction(head, query, face, bound.lo),
        high: written_fraction(head, query, face, bound.hi),
    }
}

// Writes where an average lies.
pub(crate) fn write_average<K: Sink>(
    head: &Head,
    query: &TypedQuery,
    face: Face,
    bound: &AverageBound,
    out: &mut K,
) -> Result<(), Failed>
    requires { CanShowAverage head.now query.now face bound.now }
    ensures { Writes result (K.state out.old) (K.state out.new) (average_text head.now query.now face (fractions_of bound.now)) }
{
    match bound.null {
        Nullity::Never => write_ends(&ends_of_average(head, query, face, bound), out),
        Nullity::Possibly => write_ends_or_null(&ends_of_average(head, query, face, bound), out),
        Nullity::Always => write_null(out),
    }
}
