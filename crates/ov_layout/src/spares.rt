//! Lists kept ready, so that a change takes no memory.

ghost use Rattle.std.specs.Prelude.{◌≡◌, ◌≤◌, [], OnOk};
ghost use Rattle.ov_layout.specs.Spares.{AreEmpty, AreGrown, FitsPart, HaveRoom};

use crate::part::Part;
use ov_host::Extent;
use std::alloc::{AllocError, Global};

/// The lists of a partition, empty, with room.
#[derive(Drop)]
pub struct Spares {
    pub versions: Vec<u32>,
    pub holds: Vec<u32>,
    pub segments: Vec<Extent>,
}

impl Spares {
    /// Lists without room.
    pub fn new(alloc: Global) -> Spares
        ensures { AreEmpty result }
    {
        Spares {
            versions: Vec::new(alloc),
            holds: Vec::new(alloc),
            segments: Vec::new(alloc),
        }
    }

    /// Makes room for so many items.
    pub fn make_room(
        &mut self,
        versions: usize,
        holds: usize,
        segments: usize,
    ) -> Result<(), AllocError>
        requires { AreEmpty self.old }
        ensures room { OnOk result (HaveRoom versions holds segments self.new) }
        ensures grown { AreGrown self.old self.new }
        ensures empty { AreEmpty self.new }
    {
        self.versions.reserve(versions)?;
        self.holds.reserve(holds)?;
        self.segments.reserve(segments)?;
        Ok(())
    }

    /// Makes room for the lists of a partition and one item more. They get twice the room that it takes, so that a
    /// list that is moved here isn't full again soon.
    pub fn make_room_beside(&mut self, part: &Part) -> Result<(), AllocError>
        requires { AreEmpty self.old }
        ensures room { OnOk result (FitsPart self.new part.now) }
        ensures grown { AreGrown self.old self.new }
        ensures empty { AreEmpty self.new }
    {
        let versions = part.versions.as_slice().len();
        let holds = part.holds.as_slice().len();
        let segments = part.segments.as_slice().len();
        self.make_room(2 * versions + 2, 2 * holds + 2, 2 * segments + 2)
    }
}
