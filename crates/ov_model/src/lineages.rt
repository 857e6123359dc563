// Laws of lineages, and of what the store's numbers know of a query or join.
ghost use Rattle.std.specs.Prelude.{◌≡◌, ◌≤◌, ◌↔◌, ℕ, List, length, Option, None, Some, Ok};
ghost use Rattle.std.specs.List.{flat_map};
ghost use Rattle.std.specs.Option.{option_map};
ghost use Rattle.ov_value.specs.declared.column.Kind.{Kind};
ghost use Rattle.ov_model.specs.Act.{Session, refuses, tells};
ghost use Rattle.ov_model.specs.Answers.{answer_text, pairs, pairs_of};
ghost use Rattle.ov_model.specs.Asking.{answer_rows, query_by};
ghost use Rattle.ov_model.specs.Joins.{join_kinds, join_over, side_in};
ghost use Rattle.ov_model.specs.declared.query.JoinQuery.{JoinQuery as AJoin};
ghost use Rattle.ov_model.specs.declared.query.Query.{Query as AQuery};
ghost use Rattle.ov_model.specs.declared.refusal.Refusal.{Refusal};
ghost use Rattle.ov_model.specs.declared.reply.Reply.TheVariants as says;
ghost use Rattle.ov_model.specs.Book.{Cvd};
ghost use Rattle.ov_model.specs.Descent.{AreEarlier, HaveEarlierParents, IsRelated};
ghost use Rattle.ov_model.specs.Known.{cvd_like, join_off_by, known_of, query_off_by, vids_read_by};
ghost use Rattle.ov_model.specs.Lineages.{relatives};
ghost use Rattle.ov_model.specs.Lists.{IsIn};
ghost use Rattle.ov_model.specs.Moves.{Move, moved};
ghost use Rattle.ov_model.specs.Placed.{NamesParents};
ghost use Rattle.ov_model.specs.World.{World, empty_world};
ghost use Rattle.ov_model.specs.declared.query.LineageKind.{LineageKind};

/// The relatives of a version are those versions to which it has this relation: ancestors are the transitive closure of parents, and
/// descendants its converse. It asks that each version's parents are before it.
pub fn relatives_are_the_transitive_closure()
    ensures { (cvd : Cvd) (kind : LineageKind) (vid other : ℕ) → AreEarlier 1 cvd.versions
        → IsIn (relatives cvd kind vid) other ↔ ((1 ≤ other) × (other ≤ length cvd.versions) × IsRelated cvd.versions kind vid other) }
{}

/// Each version's parents are before it, and stay so with every move whose commit names parents that are there.
pub fn parents_are_earlier()
    ensures start { HaveEarlierParents empty_world.sets }
    ensures kept { (m : Move) (w : World) → NamesParents m w → HaveEarlierParents w.sets → HaveEarlierParents (moved m w).sets }
{}

/// Relatives hang on the parents of the versions alone.
pub fn relatives_are_known_by_parents()
    ensures { (cvd : Cvd) (kind : LineageKind) (vid : ℕ) → relatives (cvd_like (known_of cvd)) kind vid ≡ relatives cvd kind vid }
{}

/// The numbers refuse a query for what it is refused for, and it reads the rows of the versions that they name. So of a join, but
/// for 46.
pub fn queries_are_known_by_numbers()
    ensures refused { (s : Session) (query : AQuery) (cvd : Cvd) (refusal : Refusal) → query_off_by query (Some (known_of cvd)) ≡ Some refusal
        → query_by s query (Some cvd) ≡ refuses s refusal }
    ensures answered { (s : Session) (query : AQuery) (cvd : Cvd) → query_off_by query (Some (known_of cvd)) ≡ None
        → (kinds : List Kind) × (query_by s query (Some cvd) ≡ tells s (says.Answer (answer_text kinds (answer_rows query cvd)) (length (answer_rows query cvd)))) }
    ensures read { (query : AQuery) (cvd : Cvd)
        → pairs (relatives cvd) cvd query.source ≡ flat_map (pairs_of cvd) (vids_read_by query (Some (known_of cvd))) }
    ensures join_refused { (s : Session) (join : AJoin) (left right : Option Cvd) (refusal : Refusal)
        → join_off_by join (option_map known_of left) (option_map known_of right) ≡ Some refusal
        → join_over s join (side_in join.left left) (side_in join.right right) ≡ refuses s refusal }
    ensures joined { (join : AJoin) (left right : Option Cvd) → join_off_by join (option_map known_of left) (option_map known_of right) ≡ None
        → (l : Cvd) × (r : Cvd) × (kinds : List Kind) × (side_in join.left left ≡ Ok l) × (side_in join.right right ≡ Ok r) × (join_kinds join l.schema r.schema ≡ Ok kinds) }
{}
