//! The planes of a column that hold digits of its numbers.

ghost use Rattle.std.specs.Prelude.{◌≡◌, min, cond};
ghost use Rattle.aggregates.specs.Selections.{IsSound};

use known_column::Known;

/// Those that were read: from this one up to before that one. The plane that tells null is none of them.
pub fn number_planes(known: &Known) -> (u8, u8)
    ensures from { result.0 ≡ min (cond known.now.ends.nullable 1 0) known.now.known.read }
    ensures to { result.1 ≡ known.now.known.read }
    ensures sound { IsSound known.now }
{
    let nullable = u8::from(known.nullable());
    let read = known.width() + nullable - known.unread();
    let _rows = known.rows();
    (nullable.min(read), read)
}
