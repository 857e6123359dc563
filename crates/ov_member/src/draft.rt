//! A set in the making, from its least rid on.

ghost use Rattle.std.specs.Prelude.{◌≡◌, [], ◌∷◌, ◌++◌, OnOk, OnErr};
ghost use Rattle.ov_member.specs.Rids.{AreRids};

use crate::edges;
use crate::members::Members;
use std::alloc::{AllocError, Global};
use std::marker::Model;

/// A set in the making: its rids come one by one, ascending. Contracts see it as the list of those that came.
#[derive(Drop)]
pub struct MembersDraft {
    edges: Vec<u32>,
}

impl Model for MembersDraft {
    ghost use Rattle.std.specs.Prelude.{List, ℕ};
    ghost use Rattle.ov_member.specs.Edges.{AreEdges, rids_between};

    ghost Value = { List ℕ };

    ghost view = { λ m. rids_between m.edges.items };

    ghost invariant = { λ m. AreEdges m.edges.items };
}

impl MembersDraft {
    /// No rid came yet. Takes no memory.
    pub fn new(alloc: Global) -> MembersDraft
        ensures { result ≡ [] }
    {
        MembersDraft {
            edges: Vec::new(alloc),
        }
    }

    /// One more rid, above all that came. It takes memory only where it begins a range.
    pub fn push(&mut self, rid: u32) -> Result<(), AllocError>
        requires { AreRids (self.old ++ rid ∷ []) }
        ensures put { OnOk result (self.new ≡ self.old ++ rid ∷ []) }
        ensures unchanged { OnErr result (self.new ≡ self.old) }
    {
        edges::push_rid(&mut self.edges, rid)
    }

    /// The set of the rids that came.
    pub fn done(self) -> Members
        ensures set { AreRids result }
        ensures same { result ≡ self }
    {
        Members::kept_by(self.edges)
    }
}
