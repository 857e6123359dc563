//! A World: the datasets, and the numbers of the store.

ghost use Rattle.std.specs.Prelude.{◌≡◌, IfSome};
ghost use Rattle.std.specs.Option.{option_copied};
ghost use Rattle.ov_model.specs.World.{empty_world, first_set, named, set_named};
ghost use Rattle.ov_plain_act.specs.Small.{AreSmall, IsSmallSet};

use ov_plain::{Copies, Dataset};
use ov_value::Txt;
use sqlite_items::Items;
use std::alloc::{AllocError, Global};
use std::marker::Model;

/// The live datasets in order of creation, the number that the next one gets, and the epoch, the number of records and the
/// format number of the journal.
#[derive(Drop)]
pub struct World {
    pub sets: Items<Dataset>,
    pub next: u32,
    pub epoch: u64,
    pub records: u64,
    pub format: u32,
}

impl Model for World {
    ghost use Rattle.ov_model.specs.World.{World as Known};

    ghost Value = { Known };

    ghost view = { λ w. record { sets = w.sets; next = w.next; epoch = w.epoch; records = w.records; format = w.format } };
}

impl World {
    /// A World of no datasets.
    pub fn empty(alloc: Global) -> World
        ensures { result ≡ empty_world }
    {
        World {
            sets: Items::new(alloc),
            next: 1,
            epoch: 1,
            records: 0,
            format: 2,
        }
    }
}

impl Copies for World {
    fn copied(&self, alloc: Global) -> Result<World, AllocError> {
        Ok(World {
            sets: self.sets.copied(alloc)?,
            next: self.next,
            epoch: self.epoch,
            records: self.records,
            format: self.format,
        })
    }
}

/// The first of these datasets that has the name.
pub fn first_named<'a>(sets: &'a [Dataset], name: &Txt) -> Option<&'a Dataset>
    requires { AreSmall sets.now }
    ensures is { option_copied result ≡ first_set (named name.now) sets.now }
    ensures small { IfSome result (λ set. IsSmallSet set.now) }
{
    match sets {
        [] => None,
        [set, rest @ ..] => {
            if set.cvd.name == *name {
                Some(set)
            } else {
                first_named(rest, name)
            }
        }
    }
}
