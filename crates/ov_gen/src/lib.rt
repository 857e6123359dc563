//! The generator of datasets: a seed and a number of rows give the first version's rows, and each later version's parent and
//! rows, one after the other.
//!
//! What each call gives is what the definitions of `ov_model` say (`specs/Generator.antt`), and so is the state after it. No
//! call copies the rows that it is given: a version is made of its parent's rows in place.
#![tactic(auto)]

mod drawing;
mod generating;
mod laws;
mod rows;
mod schema;

pub use generating::Gen;
pub use laws::{ascending_rows_are_in_order, grown_rows_are_few_and_whole, rows_stay_grown};
pub use schema::generate_schema;
