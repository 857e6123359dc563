//! The laws.

ghost use Rattle.std.specs.Prelude.{◌≡◌, ℕ, List, map};
ghost use Rattle.std.specs.List.{All};
ghost use Rattle.std.specs.Option.{option_map};
ghost use Rattle.ov_member.specs.Rids.{AreRids};
ghost use Rattle.ov_model.specs.Budget as model;
ghost use Rattle.ov_model.specs.Plans.{nodes_of_set};
ghost use Rattle.ov_model.specs.World.{Dataset};
ghost use Rattle.law_partitions.specs.Pieces.{HaveNoRowTwice};
ghost use Rattle.ov_budget.specs.Choices.{choice, is_worth, least_of};
ghost use Rattle.ov_budget.specs.Tables.{table};
ghost use Rattle.ov_budget.specs.declared.thresholds.Line.{Line as ALine};
ghost use Rattle.law_budget.specs.Told.{lists_of, told, told_best};

/// Of a dataset no version of which has a row twice, and whose rids are within their bound, the table by its reduced tree and the rids
/// of its versions is the one that is told.
pub fn the_table_is_the_datasets()
    ensures { (d : Dataset) → HaveNoRowTwice d.cvd.versions → All AreRids (lists_of d)
        → map told (table (nodes_of_set d) (lists_of d)) ≡ model.table d }
{}

/// From lines and from what is told of them the same is chosen, with the same least, and the same is worth it.
pub fn the_same_is_chosen()
    ensures choice { (budget : ℕ) (lines : List ALine) → model.choice budget (map told lines) ≡ option_map told_best (choice budget lines) }
    ensures least { (lines : List ALine) → model.least_of (map told lines) ≡ least_of lines }
    ensures worth { (a b present best : ℕ) → model.is_worth a b present best ≡ is_worth a b present best }
{}
