//! The numbers that the columns of a head may have, by their type.

ghost use Rattle.std.specs.Prelude.{◌<◌, length};
ghost use Rattle.clip_bounds.specs.ClipLaws.{IsOfLongs};
ghost use Rattle.daq_table.specs.Tables.{frame_of};
ghost use Rattle.table_rounds.specs.Headline.{AreOfLongs};

use daq_table::{Head, ends};

// The numbers of a column are of 64 bits.
fn column_is_of_longs(head: &Head, column: usize)
    requires { column < length head.now.columns }
    ensures { IsOfLongs (frame_of head.now) column }
{
    let _ends = ends(&head.columns.as_slice()[column]);
}

/// The numbers of each column are of 64 bits.
pub fn heads_are_of_longs(head: &Head)
    ensures { AreOfLongs (frame_of head.now) }
{
    for column in 0..head.columns.as_slice().len() {
        column_is_of_longs(head, column);
    }
}
