//! Records and versions, as the definitions have them.

ghost use Rattle.std.specs.Prelude.{◌≡◌};
ghost use Rattle.ov_model.specs.Records.{is_same_rec};

use crate::copies::Copies;
use ov_value::{Row, Txt};
use sqlite_items::Items;
use std::alloc::{AllocError, Global};
use std::marker::Model;

/// A row, with the version that first had it among those that it came down from.
#[derive(Drop)]
pub struct Rec {
    pub origin: u32,
    pub row: Row,
}

impl Model for Rec {
    ghost use Rattle.ov_model.specs.Records.{Rec as Known};

    ghost Value = { Known };

    ghost view = { λ r. record { origin = r.origin; row = r.row } };
}

impl Copies for Rec {
    fn copied(&self, alloc: Global) -> Result<Rec, AllocError> {
        Ok(Rec {
            origin: self.origin,
            row: self.row.copy(alloc)?,
        })
    }
}

impl Rec {
    /// Whether both are one record: an equal row of one origin.
    pub fn is_same(&self, other: &Rec) -> bool
        ensures { result ≡ is_same_rec self.now other.now }
    {
        self.origin == other.origin && self.row == other.row
    }
}

/// A version: its parents in the order in which they were listed, its message, and its rows in key order.
#[derive(Drop)]
pub struct Version {
    pub parents: Items<u32>,
    pub message: Txt,
    pub rows: Items<Row>,
}

impl Model for Version {
    ghost use Rattle.ov_model.specs.Book.{Version as Known};

    ghost Value = { Known };

    ghost view = { λ v. record { parents = v.parents; message = v.message; rows = v.rows } };
}

impl Copies for Version {
    fn copied(&self, alloc: Global) -> Result<Version, AllocError> {
        let parents = Items::from_slice(alloc, self.parents.as_slice())?;
        let message = self.message.copy(alloc)?;
        let rows = self.rows.copied(alloc)?;
        Ok(Version {
            parents,
            message,
            rows,
        })
    }
}
