//! `upgrade`: the table whose file a store holds is written as a file of planes, in the newest version.

ghost use Rattle.std.specs.Prelude.{OnOk, IfErr};
ghost use Rattle.daq_cli.specs.commands.Upgrade.{UpgradeCause, Upgrades};

use crate::refusal::Refusal;
use crate::stores::store_table;
use outer_world::{Sink, Store};
use plane_file::read_table;
use std::alloc::Global;

// Reads the table of the file, and writes its file anew, and then a line. All memory is taken before the new file's first byte.
pub(crate) fn carry_out<P: Store, K: Sink>(
    alloc: Global,
    planes: &mut P,
    made: &mut K,
    out: &mut K,
) -> Result<(), Refusal>
    ensures done { OnOk result (Upgrades (P.state planes.old) (P.state planes.new)
        (K.state made.old) (K.state made.new) (K.state out.old) (K.state out.new)) }
    ensures refused { IfErr result (UpgradeCause (P.state planes.old) (P.state planes.new)
        (K.state made.old) (K.state made.new) (K.state out.old) (K.state out.new)) }
{
    let table = read_table(alloc, planes)?;
    store_table(alloc, b"upgraded", &table, made, out)
}
