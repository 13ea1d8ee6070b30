//! The words of the command line, taken from the arguments of the program.

ghost use Rattle.std.specs.Prelude.{◌≡◌, drop, map, string_bytes, IfOk};
ghost use Rattle.std.specs.Vec.Iter.{into_iter_items};

use command_line::Words;
use std::alloc::{AllocError, Global};
use std::env::Args;

/// The arguments behind the first, which is the program's name.
pub fn words_of(alloc: Global, mut args: Args) -> Result<Words, AllocError>
    ensures { IfOk result (λ words. words ≡ drop 1 (map string_bytes (into_iter_items args))) }
{
    let mut words = Words::new(alloc);
    let _name = args.next();
    for word in args {
        words.push(word.as_str())?;
    }
    Ok(words)
}
