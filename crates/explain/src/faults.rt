//! What is told of plane files, of failed reads and writes, and of want of memory.

use crate::parts::{push_parts, push_shown};
use crate::scene::Scene;
use std::alloc::AllocError;

// The repair of a file with a damaged head or plane.
const DAMAGED: &str = "the file is damaged there: load the table again";

// What is told of a plane file.
pub(crate) fn explain_file(out: &mut String, why: &str) -> Result<(), AllocError> {
    let told = if why == "not a plane file" {
        "daq load makes a plane file of a CSV, and daq ask asks a CSV as it is"
    } else if why == "the store ended early" {
        "the file was cut shorter while it was read"
    } else if why.starts_with("version ") {
        "a later daq wrote this file: read it with that one"
    } else if why.starts_with("size ") {
        return explain_size(out, why);
    } else if why.starts_with("column ") {
        "the plane is damaged; the blocks before it hold. Load the table again"
    } else {
        DAMAGED
    };
    push_parts(out, &["  ", told, "\n"])
}

// What is told of a file that is longer or shorter than its head says.
fn explain_size(out: &mut String, why: &str) -> Result<(), AllocError> {
    let sizes = why.strip_prefix("size ").unwrap_or("");
    let (found, wanted) = sizes.split_once(", not ").unwrap_or(("", ""));
    match (found.parse::<u64>(), wanted.parse::<u64>()) {
        (Ok(found), Ok(wanted)) if found < wanted => out.push_str(
            "  the file is cut short: it was not copied or loaded to its end, or it is a pipe, which has no size\n",
        ),
        _ => out.push_str(
            "  something stands behind the end of the file: copy it or load it again\n",
        ),
    }
}

// What is told of a failed read or write, and of want of memory.
pub(crate) fn explain_trouble(
    out: &mut String,
    scene: &Scene<'_>,
    cause: &str,
) -> Result<(), AllocError> {
    if cause == "no memory" {
        return out.push_str("  the run needs more memory than the system gave\n");
    }
    match &scene.trouble {
        Some(trouble) => {
            push_parts(out, &["  cannot ", trouble.verb, " "])?;
            push_shown(out, trouble.path)?;
            let reason = trouble.reason.split_once(" (os error ");
            let (reason, _) = reason.unwrap_or((trouble.reason, ""));
            push_parts(out, &[": ", reason, "\n"])
        }
        None => Ok(()),
    }
}
