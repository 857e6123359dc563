// Relatives hang on the parents of the versions alone.
ghost use Rattle.std.specs.Prelude.{◌≡◌, ℕ, map};
ghost use Rattle.ov_model.specs.Book.{Cvd};
ghost use Rattle.ov_model.specs.Known.{Known, cvd_like};
ghost use Rattle.ov_model.specs.Lineages.{relatives};
ghost use Rattle.ov_model.specs.declared.query.LineageKind.{LineageKind};
ghost use Rattle.ov_lineage.specs.Related.{relatives_by};

/// The relatives by the parents are those in the dataset, and those by what the store's numbers know of it.
pub fn relatives_are_by_parents()
    ensures in_dataset { (cvd : Cvd) (kind : LineageKind) (vid : ℕ) → relatives_by (map (λ v. v.parents) cvd.versions) kind vid ≡ relatives cvd kind vid }
    ensures by_numbers { (known : Known) (kind : LineageKind) (vid : ℕ) → relatives_by known.parents kind vid ≡ relatives (cvd_like known) kind vid }
{}
