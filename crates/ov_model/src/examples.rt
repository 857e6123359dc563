// Worked examples.
ghost use Rattle.std.specs.Prelude.{◌≡◌, Some, codes, ◌++◌};
ghost use Rattle.ov_model.specs.BudgetExamples.{AllWithin};
ghost use Rattle.ov_model.specs.ColumnExamples.{AllOld, AllWiden};
ghost use Rattle.ov_model.specs.JoinExamples.{AllJoined};
ghost use Rattle.ov_model.specs.AskedTexts.{AllAsk, asked_texts, AllPrint as AllTextsPrint, printed_texts, lineage_texts};
ghost use Rattle.ov_model.specs.Questions.{AllAnswered};
ghost use Rattle.ov_model.specs.Examples.{AllPrint, examples, people, plan_examples, printed_behind, served_all};
ghost use Rattle.ov_model.specs.RegistryExamples.{AllByHand, AllForeign, AllFull};
ghost use Rattle.ov_model.specs.UserExamples.{user_examples, query_examples, AllStaged};

/// The worked examples print what was worked out by hand: init, commit, checkout, log, ls and drop with their refusals, and
/// optimize, migrate, layout, checkpoint and generate; a
/// checkout into a file leaves its text there; and a commit that adds a column gives it to the versions before.
pub fn worked_examples()
    ensures print { AllPrint examples }
    ensures plans { AllPrint plan_examples }
    ensures file { (served_all (people ++ codes "checkout people -v 1,2 -f out.csv\n")).session.files (codes "out.csv")
        ≡ Some (codes "id,name,score\n1,ann,10\n2,bob,20\n3,cy,30\n") }
    ensures wide { printed_behind people (codes "commit people -v 2 -f wide.csv -m wide -a team:text") ≡ codes "people: version 3 (3 rows, 2 new)\n" }
    ensures repeated { printed_behind people (codes "commit people -v 2 -f wide.csv -m wide -a id:int") ≡ codes "error 64: column id is repeated\n" }
{}

/// The worked examples of queries without conditions print what was worked out by hand: grouped ones, those that are refused,
/// NULL, and lineages.
pub fn worked_queries()
    ensures { AllAnswered }
{}

/// The worked examples of joins print what was worked out by hand: NULL is equal to nothing, and refusals come in their order.
pub fn worked_joins()
    ensures { AllJoined }
{}

/// The worked examples of the storage budget give what was worked out by hand: the table of 100 thresholds, the one that is chosen,
/// and whether a regrouping is worth it.
pub fn worked_budgets()
    ensures { AllWithin }
{}

/// The worked texts of queries and joins ask what was worked out by hand, and queries, with conditions
/// and lineages too, print it.
pub fn worked_texts()
    ensures ask { AllAsk asked_texts }
    ensures print { AllTextsPrint printed_texts }
    ensures lineages { AllTextsPrint lineage_texts }
{}

/// The worked examples of users and staged tables print what was worked out by hand: who is denied what, by the least rule and
/// before all else, and what is staged, committed from a staged table and taken off; a query or join is denied by the names in
/// its text; and the file of a staged table has the merge of its versions.
pub fn worked_users()
    ensures print { AllPrint user_examples }
    ensures queries { AllPrint query_examples }
    ensures files { AllStaged }
{}

/// In stores whose registry was made by hand, or that are full, each command of users says what was worked out by hand: 76 comes
/// behind 63 and before what the store has, 77 before 10, 74 where a table names what isn't there, and 20 and 22 where a
/// registry's first change would make a dataset.
pub fn worked_registries()
    ensures foreign { AllForeign }
    ensures by_hand { AllByHand }
    ensures full { AllFull }
{}

/// Added columns print what was worked out by hand: names that are refused, a plan whose records are as many as they were, and a
/// store of format 1, which takes neither columns nor NULL until a checkpoint.
pub fn worked_columns()
    ensures widen { AllWiden }
    ensures old { AllOld }
{}
