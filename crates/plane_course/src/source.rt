//! Where planes come from.

ghost use Rattle.std.specs.Prelude.{◌≡◌, ◌<◌, ℕ, List, [], length, ⊤, IfErr, OnOk, Some};
ghost use Rattle.std.specs.declared.option.Option.{Option};
ghost use Rattle.daq_table.specs.Tables.{ends_at, frame_of, planes};
ghost use Rattle.query_model.specs.Knowledge.{plane_of};
ghost use Rattle.plane_course.specs.Sources.{AreTold, HandsOver, IsPlane, ToldPlanes};
ghost use Rattle.table_rounds.specs.Courses.{Places};

use daq_table::{Head, Table};
use known_column::cut;
use plane_kernels::Plane;
use std::convert::Infallible;

/// The planes of a table, of which some or all are read. What is declared of the table is told; its planes may be told, and where
/// they lie.
pub trait PlaneSource {
    /// Why a plane is not read.
    type Error: Drop;

    ghost told: { Self → ToldPlanes };
    /// The places from which each plane is read.
    ghost places: { Self → Places };
    /// The places handed over so far, in order.
    ghost handed: { Self → Option (List ℕ) };
    /// Each plane can be asked for.
    ghost is_ready: { Self → Type 0 };
    /// What reads may have made of it.
    ghost since: { Self → Self → Type 0 };
    /// Why a read did not give a plane of a column, which left it so.
    ghost fails: { Self → Self → ℕ → ℕ → Self.Error → Type 0 };
    /// What a plane of a column shows that was read.
    ghost shows: { Self → ℕ → ℕ → Type 0 };

    /// What is declared of the table.
    fn head(&self) -> &Head
        ensures head { result.now ≡ (told self.now).head }
        ensures told { AreTold (told self.now) };

    /// Reads a plane of a column of the table. Planes of a column are counted from the highest digit.
    fn read(&mut self, column: usize, number: u8, into: &mut Plane) -> Result<(), Self::Error>
        requires column { column < length (told self.old).head.columns }
        requires number { number < planes (ends_at (frame_of (told self.old).head) column) }
        requires rows { length into.old ≡ (told self.old).head.rows }
        requires ready { is_ready self.old }
        ensures told { told self.new ≡ told self.old }
        ensures places { places self.new ≡ places self.old }
        ensures ready { is_ready self.new }
        ensures since { since self.old self.new }
        ensures rows { length into.new ≡ length into.old }
        ensures bits { OnOk result (IsPlane (told self.old) column number into.new) }
        ensures shown { OnOk result (shows self.old column number) }
        ensures failed { IfErr result (fails self.old self.new column number) }
        ensures handed { HandsOver result (handed self.old) (handed self.new) (places self.old column number) };

    /// No read may leave it as it is.
    ghost since_itself: { (source : Self) → since source source };
    /// Reads may follow one another.
    ghost since_both: { (first second third : Self) → since first second → since second third → since first third };
    /// A plane shows after reads what it showed before.
    ghost shows_before: { (first second : Self) (column number : ℕ) → since first second → shows second column number
        → shows first column number };
}

/// A table in memory tells its planes, and each of them is read. They lie at no places.
impl PlaneSource for &Table {
    type Error = Infallible;

    ghost told = { λ t. record { head = t.now.head; bits = Some (plane_of (frame_of t.now.head) t.now.cells) } };

    ghost places = { λ t column number. [] };

    ghost handed = { λ t. Some [] };

    ghost is_ready = { λ t. ⊤ };

    ghost since = { λ first second. ⊤ };

    ghost fails = { λ first second column number error. ⊤ };

    ghost shows = { λ t column number. ⊤ };

    ghost since_itself = { λ source. tt };

    ghost since_both = { λ first second third before after. tt };

    ghost shows_before = { λ first second column number since shown. tt };

    fn head(&self) -> &Head {
        (**self).head()
    }

    fn read(&mut self, column: usize, number: u8, into: &mut Plane) -> Result<(), Infallible> {
        // The head's clause says that the cells fit it.
        let _head = (**self).head();
        cut(self, column, number, into);
        Ok(())
    }
}
