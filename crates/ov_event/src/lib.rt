//! The events of the journal, and the bytes of each: one spelling for each event.
#![tactic(auto)]

mod commit;
mod dataset;
mod event;
mod field;
mod fitting;
mod laws;
mod list;
mod plan;
mod reading;
mod schema;
mod stop;
mod whole;
mod writing;

pub use event::{Event, Placed, PlanTarget, RawSchema};
pub use fitting::whole_fits;
pub use laws::one_event;
pub use ov_items::Items;
pub use reading::read_event;
pub use whole::{RawPart, RawPlan, RawTarget, RawVersion, Whole};
pub use writing::bytes_of;
