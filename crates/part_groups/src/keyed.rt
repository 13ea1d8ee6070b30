//! Whether the line of a group has a key.

ghost use Rattle.std.specs.Prelude.{◌≡◌};
ghost use Rattle.part_groups.specs.Whole.{has_key, has_value};

use report_text::{ShownEnds, ShownSpan};

// Whether it allows a value.
fn has_value(ends: &Option<ShownEnds>) -> bool
    ensures { result ≡ has_value ends.now }
{
    match ends {
        Some(ShownEnds::Values(_) | ShownEnds::Texts(_)) => true,
        Some(ShownEnds::NoText) | None => false,
    }
}

/// Whether each column allows null or a value: the dash of a column without texts says that it does not.
pub fn has_key(spans: &[ShownSpan]) -> bool
    ensures { result ≡ has_key spans.now }
{
    for span in spans {
        if !span.null && !has_value(&span.ends) {
            return false;
        }
    }
    true
}
