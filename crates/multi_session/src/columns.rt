//! The columns of a session.

ghost use Rattle.std.specs.Prelude.{◌≡◌, ◌<◌, length, map, slice_index, All, IfOk};
ghost use Rattle.known_column.specs.KnownTables.{IsKnownTable};
ghost use Rattle.multi_session.specs.Members.{AreUnread, Stands};

use daq_table::Head;
use known_column::KnownColumns;
use std::alloc::{AllocError, Global};

// The places of the columns in the table, in the order of their numbers in the session, and what is known of them: this is kept once, and
// lent to each query that reads them.
#[derive(Drop)]
pub(crate) struct Columns {
    pub(crate) places: Vec<usize>,
    pub(crate) known: KnownColumns,
}

impl Columns {
    // The columns at these places of tables with that head, of which nothing is read.
    pub(crate) fn open(
        alloc: Global,
        places: Vec<usize>,
        head: &Head,
    ) -> Result<Columns, AllocError>
        requires inside { All (λ place. place < length head.now.columns) places.items }
        ensures places { IfOk result (λ columns. columns.places.items ≡ places.items) }
        ensures unread { IfOk result (λ columns. AreUnread head.now places.items columns.known) }
        ensures known { IfOk result (λ columns. IsKnownTable columns.known) }
    {
        let known = KnownColumns::open(alloc, &places, head)?;
        // Its clauses say what is known.
        let _rows = known.rows();
        Ok(Columns { places, known })
    }

    // The number of the column at a place of the table.
    fn number(&self, place: usize) -> usize
        requires { Stands self.now.places.items place }
        ensures inside { result < length self.now.places.items }
        ensures place { slice_index self.now.places.items result ≡ place }
    {
        match self.places.iter().position(|column| *column == place) {
            Some(number) => number,
            None => unreachable!(),
        }
    }

    // The numbers of the columns at these places of the table.
    pub(crate) fn numbers(&self, alloc: Global, places: &[usize]) -> Result<Vec<usize>, AllocError>
        requires { All (λ place. Stands self.now.places.items place) places.now }
        ensures inside { IfOk result (λ numbers. All (λ number. number < length self.now.places.items) numbers.items) }
        ensures named { IfOk result (λ numbers. places.now ≡ map (slice_index self.now.places.items) numbers.items) }
    {
        let mut numbers = Vec::with_capacity(alloc, places.len())?;
        for place in places {
            numbers.push(self.number(*place))?;
        }
        Ok(numbers)
    }
}
