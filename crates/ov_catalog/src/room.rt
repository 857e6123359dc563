//! Room for an event.

use crate::cvd::{Plan, Version};
use ov_event::Placed;
use ov_layout::Layout;
use ov_value::{Schema, Txt};

/// What a dataset begins with: the message of its first version, its schema, and room for that version.
#[derive(Drop)]
pub struct Spare {
    pub message: Txt,
    pub schema: Schema,
    pub versions: Vec<Version>,
    pub layout: Layout,
}

/// For which event there is room.
#[derive(Drop)]
pub enum Room {
    Nothing,
    /// For an Init with this schema.
    Init(Spare),
    /// For a Commit to the dataset with this number, at this place.
    Commit {
        cvd: u32,
        place: Placed,
    },
    /// For a Wide to this dataset, at this place, which leaves it this schema.
    Wide {
        cvd: u32,
        place: Placed,
        schema: Schema,
    },
    /// For a Plan of this dataset, which is ready here.
    Plan {
        cvd: u32,
        plan: Plan,
    },
    /// For a Copy in this dataset.
    Copy {
        cvd: u32,
    },
    /// For a Flip in this dataset, of a target with these versions.
    Flip {
        cvd: u32,
        versions: Vec<u32>,
    },
}
