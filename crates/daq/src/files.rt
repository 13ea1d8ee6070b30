//! The files that a command names.

ghost use Rattle.std.specs.Prelude.{◌≡◌, IfOk};
ghost use Rattle.command_line.specs.Values.{command_of};
ghost use Rattle.daq.specs.Files.{paths_of};
ghost use Rattle.system_devices.specs.Paths.{path_of_sink, path_of_source, path_of_store};

use command_line::Command;
use std::alloc::AllocError;
use system_devices::{FileSink, FileSource, FileStore};

/// The input of a command; closed where it has none.
pub fn input_of<'a>(rt: &HostRuntime, command: &Command<'a>) -> FileSource<'a>
    ensures { path_of_source result ≡ (paths_of (command_of command.now)).input }
{
    match command {
        Command::Ask(ask) => FileSource::open(rt, ask.csv),
        Command::Load(load) => FileSource::open(rt, load.csv),
        Command::Combine(combine) => FileSource::open(rt, combine.reports),
        _ => FileSource::closed(),
    }
}

/// What a command reads beside its file; closed where it reads nothing.
pub fn side_of<'a>(rt: &HostRuntime, command: &Command<'a>) -> FileSource<'a>
    ensures { path_of_source result ≡ (paths_of (command_of command.now)).side }
{
    match command {
        Command::Session(session) => FileSource::open(rt, session.script),
        _ => FileSource::closed(),
    }
}

/// The plane file that a command reads; closed where it reads none.
pub fn planes_of<'a>(rt: &HostRuntime, command: &Command<'a>) -> FileStore<'a>
    ensures { path_of_store result ≡ (paths_of (command_of command.now)).planes }
{
    match command {
        Command::Query(query) => FileStore::open(rt, query.file),
        Command::Session(session) => FileStore::open(rt, session.file),
        Command::Info(info) => FileStore::open(rt, info.file),
        Command::Upgrade(upgrade) => FileStore::open(rt, upgrade.older),
        _ => FileStore::closed(),
    }
}

/// The file that a command makes, which is not to be the one that it reads; closed where it makes none.
pub fn made_of<'a>(rt: &HostRuntime, command: &Command<'a>) -> Result<FileSink<'a>, AllocError>
    ensures { IfOk result (λ made. path_of_sink made ≡ (paths_of (command_of command.now)).made) }
{
    match command {
        Command::Load(load) => FileSink::named(rt, load.file, load.csv),
        Command::Upgrade(upgrade) => FileSink::named(rt, upgrade.newer, upgrade.older),
        _ => Ok(FileSink::closed()),
    }
}
