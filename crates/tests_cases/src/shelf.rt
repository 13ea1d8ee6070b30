//! A store in memory that keeps a list of the pieces that it hands over, and may end before its size.

ghost use Rattle.std.specs.Prelude.{◌≡◌, None};
ghost use Rattle.outer_world.specs.Device.{HasCause};

use outer_world::{Failed, Store};

/// A store of these bytes, of which none is given from `end` on, and at most `piece` at a time. It answers `room` calls, but for those
/// whose numbers stand in `fails`.
#[derive(Drop)]
pub struct Shelf {
    pub bytes: Vec<u8>,
    pub end: usize,
    pub piece: usize,
    pub room: u64,
    pub fails: Vec<u64>,
    pub call: u64,
    pub faults: u64,
    pub ends: u64,
    pub places: Vec<(u64, usize)>,
}

impl Shelf {
    // Counts a call, which may fail.
    fn count(&mut self) -> Result<(), Failed>
        ensures cause { HasCause self.old.faults self.new.faults result }
        ensures ends { self.new.ends ≡ self.old.ends }
    {
        let fails = self.call >= self.room || self.fails.contains(&self.call);
        self.call = self.call.saturating_add(1);
        if fails {
            self.faults = self.faults.saturating_add(1);
            return Err(Failed);
        }
        Ok(())
    }
}

impl Store for Shelf {
    ghost state = { λ s. record { held = None; pieces = None; faults = s.faults; ends = s.ends } };

    fn size(&mut self) -> Result<u64, Failed> {
        self.count()?;
        Ok(self.bytes.len() as u64)
    }

    fn read_at(&mut self, at: u64, buf: &mut [u8]) -> Result<usize, Failed> {
        self.count()?;
        let held = &self.bytes[..self.bytes.len().min(self.end)];
        let rest = &held[held.len().min(at as usize)..];
        let count = rest.len().min(buf.len()).min(self.piece);
        buf[..count].copy_from_slice(&rest[..count]);
        if count == 0 && !buf.is_empty() {
            self.ends = self.ends.saturating_add(1);
        }
        if self.places.push((at, count)).is_err() {
            self.faults = self.faults.saturating_add(1);
            return Err(Failed);
        }
        Ok(count)
    }
}
