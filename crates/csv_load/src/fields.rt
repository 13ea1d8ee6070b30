//! The fields of one record: parts of its text, or copies where one has a quote inside.

ghost use Rattle.std.specs.Prelude.{◌≡◌, ◌<◌, ◌++◌, ◌∷◌, [], length, slice_index_or, OnOk};

use std::alloc::{AllocError, Global};
use std::marker::Model;

// A field as it stands in the text, or from one place to another of the copies.
#[derive(Clone, Copy)]
enum Part<'t> {
    InText(&'t [u8]),
    Apart(usize, usize),
}

/// The fields of one record, in order.
#[derive(Drop)]
pub(crate) struct RecordFields<'t> {
    parts: Vec<Part<'t>>,
    copies: Vec<u8>,
}

impl<'t> Model for RecordFields<'t> {
    ghost use Rattle.std.specs.Prelude.{All, length, map};
    ghost use Rattle.csv_load.specs.Parts.{IsPart, part_of};
    ghost use Rattle.csv_load.specs.Records.{Fields};

    ghost Value = { Fields };

    ghost view = { λ f. map (part_of f.copies.items) f.parts.items };

    ghost invariant = { λ f. All (IsPart (length f.copies.items)) f.parts.items };
}

impl<'t> RecordFields<'t> {
    /// No fields.
    pub(crate) fn new(alloc: Global) -> RecordFields<'t>
        ensures { result ≡ [] }
    {
        RecordFields {
            parts: Vec::new(alloc),
            copies: Vec::new(alloc),
        }
    }

    /// Removes all fields.
    pub(crate) fn clear(&mut self)
        ensures { self.new ≡ [] }
    {
        self.parts.clear();
        self.copies.clear();
    }

    /// How many there are.
    pub(crate) fn len(&self) -> usize
        ensures { result ≡ length self.now }
    {
        self.parts.len()
    }

    /// The field at that place.
    pub(crate) fn get(&self, place: usize) -> &[u8]
        requires { place < length self.now }
        ensures { result.now ≡ slice_index_or self.now place [] }
    {
        match self.parts[place] {
            Part::InText(field) => field,
            Part::Apart(from, to) => &self.copies[from..to],
        }
    }

    /// Adds a field that stands in the text.
    pub(crate) fn push(&mut self, field: &'t [u8]) -> Result<(), AllocError>
        ensures { OnOk result (self.new ≡ self.old ++ field.now ∷ []) }
    {
        self.parts.push(Part::InText(field))?;
        Ok(())
    }

    /// Adds a copy of a field.
    pub(crate) fn push_apart(&mut self, field: &[u8]) -> Result<(), AllocError>
        ensures { OnOk result (self.new ≡ self.old ++ field.now ∷ []) }
    {
        self.parts.reserve(1)?;
        let from = self.copies.len();
        self.copies.extend_from_slice(field)?;
        self.parts
            .push_reserved(Part::Apart(from, self.copies.len()));
        Ok(())
    }
}
