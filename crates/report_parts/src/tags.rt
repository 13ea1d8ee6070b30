//! A line of the input: the tag of a part, a tab, and a line of its report.

ghost use Rattle.std.specs.Prelude.{◌≡◌, ◌==◌, IfErr, IfOk, IfSome, List, None, OnOk, position, ℕ};
ghost use Rattle.report_parts.specs.Tags.{HasTab, IsRefused, IsTagged, behind_tag, tag_of};
ghost use Rattle.report_parts.specs.Told.{Told};
ghost use Rattle.report_parts.specs.declared.shape.Shape.{Shape};

use crate::fault::InputFault;

// The most bytes of a tag.
const MOST_BYTES: usize = 255;

// The place of the first tab.
fn tab_place(line: &[u8]) -> Option<usize>
    ensures { result ≡ position (λ c. c == 9) line.now }
{
    line.iter().position(|byte| *byte == b'\t')
}

/// A line of a report, and the tag of the part that it is of.
#[derive(Clone, Copy)]
pub(crate) struct Tagged<'a> {
    pub(crate) tag: &'a [u8],
    pub(crate) line: &'a [u8],
}

// What stands before the first tab, and what behind it.
fn around_tab(line: &[u8]) -> Option<Tagged<'_>>
    ensures none { result ≡ None → ¬ HasTab line.now }
    ensures some { IfSome result (λ tagged. HasTab line.now) }
    ensures tag { IfSome result (λ tagged. tagged.tag.now ≡ tag_of line.now) }
    ensures behind { IfSome result (λ tagged. tagged.line.now ≡ behind_tag line.now) }
{
    let place = tab_place(line)?;
    Some(Tagged {
        tag: &line[..place],
        line: &line[place + 1..],
    })
}

/// The tag of a line, and what stands behind it.
pub(crate) fn read_tag(line: &[u8]) -> Result<Tagged<'_>, InputFault>
    ensures tag { IfOk result (λ tagged. tagged.tag.now ≡ tag_of line.now) }
    ensures behind { IfOk result (λ tagged. tagged.line.now ≡ behind_tag line.now) }
    ensures is_tagged { OnOk result (IsTagged line.now) }
    ensures refused { IfErr result (λ why. (query : List ℕ) (shape : Shape) (most : ℕ) (parts : List Told)
        → IsRefused why query shape most parts line.now) }
{
    match around_tab(line) {
        None => Err(InputFault::NoTab),
        Some(tagged) => {
            if tagged.tag.is_empty() || tagged.tag.len() > MOST_BYTES {
                Err(InputFault::NoTag)
            } else {
                Ok(tagged)
            }
        }
    }
}

/// What stands behind the tag and the tab of a line: a line of the report of a part.
pub fn untagged(line: &[u8]) -> Result<&[u8], InputFault>
    ensures behind { IfOk result (λ rest. rest.now ≡ behind_tag line.now) }
    ensures is_tagged { OnOk result (IsTagged line.now) }
    ensures refused { IfErr result (λ why. (query : List ℕ) (shape : Shape) (most : ℕ) (parts : List Told)
        → IsRefused why query shape most parts line.now) }
{
    match read_tag(line) {
        Ok(tagged) => Ok(tagged.line),
        Err(why) => Err(why),
    }
}
