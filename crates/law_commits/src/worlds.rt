// Records of a dataset's versions.

ghost use Rattle.std.specs.Prelude.{◌≡◌, ℕ, List, []};
ghost use Rattle.ov_segment.specs.declared.numbered.Record.{Record};
ghost use Rattle.ov_model.specs.Assigned.{stored_parents};
ghost use Rattle.ov_model.specs.Book.{Version};
ghost use Rattle.ov_model.specs.Lists.{joined};
ghost use Rattle.ov_model.specs.Records.{recs, order_of, AllRise};
ghost use Rattle.ov_model.specs.World.{Dataset};
ghost use Rattle.ov_records.specs.Records.{lists_of};
ghost use Rattle.ov_catalog.specs.Shown.{shown_set};
ghost use Rattle.law_commits.specs.Agreeing.{ParentsAgree};
ghost use Rattle.law_commits.specs.Differing.{NoneDiffer};

/// Among the records of a dataset's versions no rid has different rows, and they agree with the dataset's numbers.
pub fn records_of_versions_agree()
    ensures none_differ { (versions : List Version) (vids : List ℕ) (parents : List (List Record))
        → lists_of parents ≡ stored_parents vids (recs versions []) (order_of versions) → NoneDiffer (joined (lists_of parents)) }
    ensures numbers { (d : Dataset) (vids : List ℕ) (parents : List (List Record)) → AllRise d.cvd.schema d.cvd.versions
        → lists_of parents ≡ stored_parents vids (recs d.cvd.versions []) (order_of d.cvd.versions) → ParentsAgree (shown_set d) vids parents }
{}
