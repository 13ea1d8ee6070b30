//! The one call of the program: does what the words ask for, over the devices of a world.

ghost use Rattle.std.specs.Prelude.{◌≡◌, ◌≢◌, ◌⊎◌, OnOk, IfErr};
ghost use Rattle.command_line.specs.Commands.{Command};
ghost use Rattle.daq_cli.specs.Refusals.{IsTold};
ghost use Rattle.daq_cli.specs.Runs.{Accepts, BeginsRounds, Completes, EndsSo, IsCause, IsDone};
ghost use Rattle.daq_cli.specs.Runs.{IsRefused, IsRefusedAside, IsUnwritten, Shows, Task, Uses};
ghost use Rattle.daq_cli.specs.Worlds.{Device, IsSame, side};
ghost use Rattle.daq_cli.specs.declared.refusal.Refusal.{Refusal};

use crate::commands::{ask, combine, demo, help, info, load, query, session, upgrade, version};
use crate::laws::steps_are_exact;
use crate::lines::refuse;
use crate::refusal::Refusal;
use crate::status::Status;
use crate::world::World;
use command_line::{Command, Words, one_command};
use outer_world::{Sink, Source, Store};
use std::alloc::Global;

// Does what the words ask for. Each command is handed the devices that it uses.
fn perform<S: Source, P: Store, K: Sink>(
    alloc: Global,
    words: &Words,
    world: &mut World<S, P, K>,
) -> Result<(), Refusal>
    ensures done { OnOk result (IsDone words.now world.old world.new) }
    ensures refused { IfErr result (IsCause words.now world.old world.new) }
    ensures stays { (device : Device) → ¬ Uses words.now device → IsSame device world.old world.new }
    ensures untouched { IsRefused words.now → (device : Device) → IsSame device world.old world.new }
    ensures aside { IsRefusedAside words.now world.old → (device : Device) → device ≢ side → IsSame device world.old world.new }
    ensures quiet { world.new.err ≡ world.old.err }
{
    match Command::parse(words) {
        Ok(Command::Ask(asked)) => ask::carry_out(alloc, &asked, &mut world.input, &mut world.out),
        Ok(Command::Combine(asked)) => {
            combine::carry_out(alloc, &asked, &mut world.input, &mut world.out)
        }
        Ok(Command::Demo(asked)) => demo::carry_out(alloc, &asked, &mut world.out),
        Ok(Command::Load(asked)) => {
            load::carry_out(
                alloc,
                &asked,
                &mut world.input,
                &mut world.made,
                &mut world.out,
            )
        }
        Ok(Command::Query(asked)) => {
            query::carry_out(alloc, &asked, &mut world.planes, &mut world.out)
        }
        Ok(Command::Session(asked)) => session::carry_out(
            alloc,
            &asked,
            &mut world.side,
            &mut world.planes,
            &mut world.out,
        ),
        Ok(Command::Info(_)) => info::carry_out(alloc, &mut world.planes, &mut world.out),
        Ok(Command::Upgrade(_)) => {
            upgrade::carry_out(alloc, &mut world.planes, &mut world.made, &mut world.out)
        }
        Ok(Command::Help) => help::carry_out(&mut world.out),
        Ok(Command::Version) => version::carry_out(&mut world.out),
        Err(usage) => Err(Refusal::from(usage)),
    }
}

/// Does what the words ask for, and says how it ended: the report on `out`, each of whose intervals is certain, or the file
/// of a table on `made`, or the lines of a file on `out`, or the help or the version there, or the line of a refusal on `err`.
pub fn run<S: Source, P: Store, K: Sink>(
    alloc: Global,
    words: &Words,
    world: &mut World<S, P, K>,
) -> Status
    ensures done { result ≡ Status.Done → IsDone words.now world.old world.new }
    ensures refused { result ≢ Status.Done → (why : Refusal)
        × IsCause words.now world.old world.new why × IsTold why result world.old.err world.new.err }
    // What the words and a told input or store show is told, and what they accept is answered.
    ensures exact { (why : Refusal) → Shows words.now world.old why → EndsSo words.now why result world.old world.new }
    ensures complete { (task : Task) → Accepts words.now world.old task → Completes words.now task result world.old world.new }
    // What stays as it was.
    ensures stays { (device : Device) → ¬ Uses words.now device → IsSame device world.old world.new }
    ensures untouched { IsRefused words.now → (device : Device) → IsSame device world.old world.new }
    ensures aside { IsRefusedAside words.now world.old → (device : Device) → device ≢ side → IsSame device world.old world.new }
    // But for a failed write, and for rounds that can begin, nothing was written: a refusal before the rounds leaves no text.
    ensures early { result ≢ Status.Done → result ≢ Status.WriteFault
        → IsUnwritten world.old world.new ⊎ BeginsRounds words.now world.old }
    ensures quiet { result ≡ Status.Done → world.new.err ≡ world.old.err }
{
    steps_are_exact();
    one_command();
    match perform(alloc, words, world) {
        Ok(()) => Status::Done,
        Err(why) => refuse(why, &mut world.err),
    }
}
