//! Copies of texts, and of where a text lies.

ghost use Rattle.std.specs.Prelude.{◌≡◌, IfOk};

use daq_table::Text;
use report_text::{TextAnswer, TextEnds};
use std::alloc::{AllocError, Global};

/// The same text.
pub fn copied(alloc: Global, text: &[u8]) -> Result<Text, AllocError>
    ensures { IfOk result (λ copy. copy ≡ text.now) }
{
    Ok(Text::new(Vec::from_slice(alloc, text)?))
}

fn copied_ends(alloc: Global, ends: &Option<TextEnds>) -> Result<Option<TextEnds>, AllocError>
    ensures { IfOk result (λ copy. copy ≡ ends.now) }
{
    match ends {
        Some(ends) => {
            let low = copied(alloc, ends.low.as_slice())?;
            let high = copied(alloc, ends.high.as_slice())?;
            Ok(Some(TextEnds { low, high }))
        }
        None => Ok(None),
    }
}

/// The same answer, if there is one.
pub fn copied_answer(
    alloc: Global,
    answer: &Option<TextAnswer>,
) -> Result<Option<TextAnswer>, AllocError>
    ensures { IfOk result (λ copy. copy ≡ answer.now) }
{
    match answer {
        Some(answer) => {
            let ends = copied_ends(alloc, &answer.ends)?;
            Ok(Some(TextAnswer {
                null: answer.null,
                ends,
            }))
        }
        None => Ok(None),
    }
}
