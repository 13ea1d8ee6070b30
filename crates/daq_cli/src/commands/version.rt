//! `version`: which version of the program this is.

ghost use Rattle.std.specs.Prelude.{OnOk, IfErr};
ghost use Rattle.outer_world.specs.Whole.{Writes};
ghost use Rattle.daq_cli.specs.Notices.{NoticeCause};
ghost use Rattle.daq_cli.specs.Worlds.{whole};
ghost use Rattle.daq_cli.specs.commands.Version.{version_text};

use crate::refusal::Refusal;
use outer_world::{Sink, write_whole};

// Writes the version. It takes no memory.
#[tactic(auto, unfolding(crate::specs::commands::Version::version_text))]
pub(crate) fn carry_out<K: Sink>(out: &mut K) -> Result<(), Refusal>
    ensures done { OnOk result (Writes whole (K.state out.old) (K.state out.new) version_text) }
    ensures refused { IfErr result (NoticeCause version_text (K.state out.old) (K.state out.new)) }
{
    write_whole(out, b"daq 0.9.0\n")?;
    Ok(())
}
