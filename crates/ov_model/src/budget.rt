// Laws of the storage budget.
ghost use Rattle.std.specs.Prelude.{◌≡◌, ◌≢◌, ◌<◌, ℕ, List, [], length, Some, None};
ghost use Rattle.ov_model.specs.Budget.{IsBest, IsLeast, IsLine, choice, least_of, table};
ghost use Rattle.ov_model.specs.World.{Dataset};
ghost use Rattle.ov_model.specs.declared.reply.BudgetLine.{BudgetLine as ALine};

/// The threshold that is chosen stores no more than the budget, and no threshold that does costs less; of those that cost as
/// much it stores least, and of those that store as much too it is the first. None is chosen exactly where each stores more,
/// and the least that one stores is then told.
pub fn the_choice_is_the_cheapest()
    ensures chosen { (budget : ℕ) (lines : List ALine) (p : ℕ) (line : ALine) → choice budget lines ≡ Some (p, line) → IsBest budget 1 lines p line }
    ensures none { (budget : ℕ) (lines : List ALine) → choice budget lines ≡ None → (k : ℕ) (other : ALine) → IsLine 1 lines k other → budget < other.stored }
    ensures least { (lines : List ALine) → lines ≢ [] → IsLeast lines (least_of lines) }
    ensures hundred { (d : Dataset) → length (table d) ≡ 100 }
{}
