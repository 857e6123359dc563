//! From the tokens of a text to the query or the join that they spell.
//!
//! The grammar is a relation between queries or joins and symbols, which says nothing of how they are read: `Grammar` and `JoinGrammar` of `ov_model`. Here
//! each token is turned into the symbol that it says, and the symbols are read from left to right, as `Reading` and `JoinReading` of `ov_model` do.
#![tactic(auto)]

mod cond;
mod join;
mod keywords;
mod list;
mod parsing;
mod part;
mod query;
mod say;
mod scope;
mod side;
mod stop;
mod symbols;
mod term;

pub use parsing::{ParseErr, parse, parse_join};
