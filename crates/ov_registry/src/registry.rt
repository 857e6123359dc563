//! The two datasets.

ghost use Rattle.std.specs.Prelude.{◌≡◌, IfOk};
ghost use Rattle.ov_core.specs.AtWorld.{IsAtWorld};
ghost use Rattle.ov_host.specs.Host.{State};
ghost use Rattle.ov_model.specs.Registry.{is_foreign as is_foreign_of};
ghost use Rattle.ov_model.specs.World.{World, set_named};
ghost use Rattle.ov_store.specs.Scanning.{set_in};
ghost use Rattle.ov_registry.specs.Last.{is_foreign_in, name_of, schema_of};

use crate::columns::{is_same_schema, stage_schema, users_schema};
use ov_store::Store;
use ov_value::Schema;
use std::alloc::{AllocError, Global};

/// A dataset of the registry.
#[derive(Clone, Copy, PartialEq, Eq)]
pub enum Registry {
    /// `orpheus_users`: the users but `admin`.
    Users,
    /// `orpheus_stage`: the staged tables.
    Stage,
}

impl Registry {
    /// Its name.
    pub(crate) fn name(self) -> &'static str
        ensures { result.now ≡ name_of self }
    {
        match self {
            Registry::Users => "orpheus_users",
            Registry::Stage => "orpheus_stage",
        }
    }

    /// Its schema.
    pub(crate) fn schema(self, alloc: Global) -> Result<Schema, AllocError>
        ensures { IfOk result (λ made. made ≡ schema_of self) }
    {
        match self {
            Registry::Users => users_schema(alloc),
            Registry::Stage => stage_schema(alloc),
        }
    }
}

/// Whether the dataset is live with another schema. Nothing is read for it.
pub fn is_foreign(alloc: Global, store: &Store, which: Registry) -> Result<bool, AllocError>
    ensures numbers { IfOk result (λ foreign. foreign ≡ is_foreign_in (schema_of which) (set_in store.now.held.numbers (name_of which))) }
    ensures world { (w : World) (s : State) → IsAtWorld w store.now.held s
        → IfOk result (λ foreign. foreign ≡ is_foreign_of (schema_of which) (set_named w (name_of which))) }
{
    let own = which.schema(alloc)?;
    match store.catalog().cvd(which.name()) {
        Some(d) => Ok(!is_same_schema(&d.schema, &own)),
        None => Ok(false),
    }
}
