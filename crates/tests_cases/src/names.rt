//! What has a name: bytes, tables, and cases that others are like.

use crate::entry::Case;
use std::alloc::{AllocError, Global};

/// Bytes, and the schema of the table that they are, if they are one.
#[derive(Drop)]
pub struct Named {
    pub name: String,
    pub bytes: Vec<u8>,
    pub schema: String,
}

/// All that has a name.
#[derive(Drop)]
pub struct Names {
    alloc: Global,
    bytes: Vec<Named>,
    bases: Vec<Case>,
}

impl Names {
    /// No names.
    pub fn new(alloc: Global) -> Names {
        Names {
            alloc,
            bytes: Vec::new(alloc),
            bases: Vec::new(alloc),
        }
    }

    /// The bytes of a name that were named last.
    pub fn find(&self, name: &str) -> Option<&Named> {
        let mut last = None;
        for named in self.bytes.iter() {
            if named.name.as_str() == name {
                last = Some(named);
            }
        }
        last
    }

    /// The base of a name that was named last.
    pub fn base(&self, name: &str) -> Option<&Case> {
        let mut last = None;
        for base in self.bases.iter() {
            if base.title.as_str() == name {
                last = Some(base);
            }
        }
        last
    }

    /// Names these bytes.
    pub fn keep(&mut self, name: &str, bytes: &[u8], schema: &str) -> Result<(), AllocError> {
        self.bytes.push(Named {
            name: String::from_str(self.alloc, name)?,
            bytes: bytes.to_vec(self.alloc)?,
            schema: String::from_str(self.alloc, schema)?,
        })?;
        Ok(())
    }

    /// Names this base by its title.
    pub fn keep_base(&mut self, base: Case) -> Result<(), AllocError> {
        self.bases.push(base)?;
        Ok(())
    }
}
