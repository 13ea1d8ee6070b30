//! Marks at the start of a text.

ghost use Rattle.std.specs.Prelude.{◌≡◌};
ghost use Rattle.csv_load.specs.Records.{starts_with_mark, without_marks};

// Whether the text begins with a mark.
fn has_mark(bytes: &[u8]) -> bool
    ensures { result ≡ starts_with_mark bytes.now }
{
    bytes.starts_with(b"\xEF\xBB\xBF")
}

/// The text after all marks EF BB BF at its start.
pub(crate) fn past_marks(bytes: &[u8]) -> &[u8]
    ensures { result.now ≡ without_marks bytes.now }
{
    let mut rest = bytes;
    while has_mark(rest) {
        rest = &rest[3..];
    }
    rest
}
