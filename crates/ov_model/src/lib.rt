//! The definitions: what datasets, versions, records, checkouts, lines, replies and a whole run of a script are, apart from
//! the code that meets them.
//!
//! They stand in `specs/`; docs/definitions.md says where to begin. The laws that show that they are what they are meant to
//! be are the contracts of functions that do nothing. The types here are those that commands and replies have in every crate.
#![tactic(auto)]

mod answer;
mod asking;
mod budget;
mod command;
mod conditions;
mod course;
mod examples;
mod formed;
mod given;
mod join_laws;
mod limits;
mod line;
mod lineages;
mod merge;
mod plan_examples;
mod query;
mod query_texts;
mod records;
mod refusal;
mod replies;
mod reply;
mod round_trip;
mod sizes;
mod users;

pub use answer::{Answer, Cell};
pub use asking::{an_answer_is_of_the_book, lineages_by_cases};
pub use budget::the_choice_is_the_cheapest;
pub use command::Command;
pub use conditions::{comparisons_by_cases, truth_by_cases};
pub use course::{
    a_checkout_is_of_the_book, a_checkpoint_changes_no_reply, a_course_ends_at_its_moves,
    a_course_goes_on, due_never_falls, each_version_is_in_one_partition,
    no_reply_of_a_run_is_empty, partitions_have_their_versions_records, whole_lines_stand_alone,
    worlds_are_one_move_apart,
};
pub use examples::{
    worked_budgets, worked_columns, worked_examples, worked_joins, worked_queries,
    worked_registries, worked_texts, worked_users,
};
pub use formed::lines_ask_what_forms_read;
pub use given::{Given, Reading};
pub use join_laws::{a_join_is_of_the_book, join_conditions_by_cases};
pub use limits::{
    FILE_BYTES, LINE_BYTES, MESSAGE_BYTES, MOST_CVDS, MOST_JOINED, MOST_RECORDS, MOST_ROWS,
    MOST_STAGED_VIDS, MOST_VERSIONS,
};
pub use line::a_line_is_one_thing;
pub use lineages::{
    parents_are_earlier, queries_are_known_by_numbers, relatives_are_known_by_parents,
    relatives_are_the_transitive_closure,
};
pub use merge::merge_takes_the_first_of_each_key;
pub use plan_examples::{
    a_checkpoint_has_its_records, a_copy_brings_256_records_at_most,
    a_flipped_target_stays_as_it_was,
};
pub use query::{
    Col, Cond, Fixed, Items, JoinQuery, Key, LineageKind, Operand, Query, Side, Sign, Src, Symbol,
    Term,
};
pub use query_texts::{
    a_text_asks_one_thing, a_text_asks_what_is_computed, no_query_is_a_join, one_join, one_query,
};
pub use records::{
    assignment_gives_the_rids, own_rows_are_no_new_records, rids_have_no_gap,
    single_parents_count_records, versions_keep_earlier_rids,
};
pub use refusal::Refusal;
pub use replies::a_reply_is_not_empty;
pub use reply::{BudgetLine, CvdLine, LogLine, PartLine, PlanLine, Reply, TableLine};
pub use round_trip::what_is_written_reads_back;
pub use sizes::{
    a_commit_keeps_to_the_limits, a_join_matches_a_million_pairs_at_most,
    a_registry_keeps_to_the_limits,
};
pub use sqlite_items::{Boxed, Items as Seq};
pub use users::{
    a_staged_table_is_its_owners, another_schema_is_foreign, rules_decide_who_may,
    tables_are_the_users_own, the_least_rule_denies, the_registry_changes_by_one_move,
};
