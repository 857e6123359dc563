//! Tests of the plain programs of the model on what the program `plain` doesn't print: splits beside those of the shipped
//! program, the numbers of records and how many of them versions share, placements, refusals of rows that no command has yet, and
//! queries.
#![tactic(auto)]

#[cfg(test)]
mod people;
#[cfg(test)]
mod queries;
#[cfg(test)]
mod records;
#[cfg(test)]
mod refusals;
#[cfg(test)]
mod splits;
