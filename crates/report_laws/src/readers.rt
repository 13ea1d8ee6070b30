//! Bounds of a report, read back from its text.

ghost use Rattle.std.specs.Prelude.{◌≡◌, ℕ, Some};
ghost use Rattle.daq_report.specs.Intervals.{average_text, bound_text};
ghost use Rattle.daq_table.specs.declared.table_head.Head.{Head};
ghost use Rattle.query_model.specs.Bounds.{AverageBound};
ghost use Rattle.query_model.specs.declared.bounds.Bound.{Bound};
ghost use Rattle.query_model.specs.declared.query.Face.{Face};
ghost use Rattle.query_model.specs.declared.query.TypedQuery.{TypedQuery};
ghost use Rattle.report_laws.specs.Laws.{IsPlainAverage, IsPlainBound, average_of, form_of_face, shown_of};
ghost use Rattle.report_text.specs.declared.forms.Form.{Form};
ghost use Rattle.report_text.specs.declared.forms.Form.TheVariants.{Decimals};

use report_text::{ShownAverage, ShownBound, read_average, read_bound};

/// What the text says of an answer: of each bound whose text a report shows so, under a face of numbers or dates, it is that bound.
pub fn read_report_bound(text: &[u8]) -> Option<ShownBound>
    ensures { (head : Head) (query : TypedQuery) (face : Face) (form : Form) (bound : Bound)
        → form_of_face head query face ≡ Some form → IsPlainBound form bound
        → bound_text head query face bound ≡ text.now → result ≡ Some (shown_of form bound) }
{
    read_bound(text)
}

/// The same of an average.
pub fn read_report_average(text: &[u8]) -> Option<ShownAverage>
    ensures { (head : Head) (query : TypedQuery) (face : Face) (decimals : ℕ) (bound : AverageBound)
        → form_of_face head query face ≡ Some (Decimals decimals) → IsPlainAverage decimals bound
        → average_text head query face bound ≡ text.now → result ≡ Some (average_of decimals bound) }
{
    read_average(text)
}
