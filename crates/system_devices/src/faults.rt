//! What a device makes of the system's answers, its count of faults, and the last of them.

ghost use Rattle.std.specs.Prelude.{◌≡◌, ◌≤◌};
ghost use Rattle.outer_world.specs.Device.{HasCause};
ghost use Rattle.system_devices.specs.Answers.{AnswersRead, AnswersWrite, one_more};

use outer_world::Failed;
use std::io;

/// What was asked of the system when it failed.
#[derive(Clone, Copy, Debug, PartialEq, Eq)]
pub enum Action {
    Open,
    Read,
    Make,
    Write,
    /// To give a new file its name.
    Keep,
}

impl Action {
    /// The action as a verb.
    pub fn verb(self) -> &'static str {
        match self {
            Action::Open => "open",
            Action::Read => "read",
            Action::Make => "make",
            Action::Write => "write",
            Action::Keep => "keep",
        }
    }
}

/// A call of the system that failed, and why.
#[derive(Clone, Copy)]
pub struct Trouble {
    pub action: Action,
    pub error: io::Error,
}

// How often a call of a device failed, and what the system said last.
#[derive(Drop)]
pub(crate) struct Faults {
    pub(crate) count: u64,
    pub(crate) last: Option<Trouble>,
}

impl Faults {
    pub(crate) fn none() -> Faults
        ensures { result.count ≡ 0 }
    {
        Faults {
            count: 0,
            last: None,
        }
    }

    // No call failed yet, but each will, for the file did not open.
    pub(crate) fn unopened(error: io::Error) -> Faults
        ensures { result.count ≡ 0 }
    {
        Faults {
            count: 0,
            last: Some(Trouble {
                action: Action::Open,
                error,
            }),
        }
    }

    // Counts one, up to the greatest number.
    pub(crate) fn add(&mut self) -> Failed
        ensures count { self.new.count ≡ one_more self.old.count }
        ensures later { self.old.count ≤ self.new.count }
    {
        self.count = self.count.saturating_add(1);
        Failed
    }

    // Counts one, of which the system said this.
    pub(crate) fn add_error(&mut self, action: Action, error: io::Error) -> Failed
        ensures count { self.new.count ≡ one_more self.old.count }
        ensures later { self.old.count ≤ self.new.count }
    {
        self.last = Some(Trouble { action, error });
        self.add()
    }

    // The answer to a read.
    pub(crate) fn after_read(&mut self, read: io::Result<usize>) -> Result<usize, Failed>
        ensures answer { AnswersRead read result self.old.count self.new.count }
        ensures cause { HasCause self.old.count self.new.count result }
    {
        match read {
            Ok(count) => Ok(count),
            Err(error) => Err(self.add_error(Action::Read, error)),
        }
    }

    // The answer to a write of the piece, at which this was asked.
    pub(crate) fn after_write(
        &mut self,
        piece: &[u8],
        written: io::Result<usize>,
        action: Action,
    ) -> Result<usize, Failed>
        ensures answer { AnswersWrite piece.now written result self.old.count self.new.count }
        ensures cause { HasCause self.old.count self.new.count result }
    {
        match written {
            Ok(count) if count > 0 || piece.is_empty() => Ok(count),
            Ok(_) => Err(self.add()),
            Err(error) => Err(self.add_error(action, error)),
        }
    }
}
