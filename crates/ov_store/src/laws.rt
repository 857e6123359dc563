// Laws of refusals, of scans and of what a commit reads, each the contract of a function that does nothing.
ghost use Rattle.std.specs.Prelude.{◌≡◌, ℕ, List, [], true, Option, Some, None, map, length, find};
ghost use Rattle.ov_host.specs.declared.area.Extent.{Extent};
ghost use Rattle.ov_model.specs.Act.{init_refusal, vids_refusal};
ghost use Rattle.ov_model.specs.World.{World, Dataset, set_named};
ghost use Rattle.ov_catalog.specs.Applying.{is_named};
ghost use Rattle.ov_catalog.specs.Numbers.{Numbers};
ghost use Rattle.ov_catalog.specs.Stands.{Readings, seen, asked};
ghost use Rattle.ov_fetch.specs.declared.errors.FetchErr.TheVariants as fetch;
ghost use Rattle.ov_fetch.specs.Extents.{page_bytes};
ghost use Rattle.ov_host.specs.Host.{State};
ghost use Rattle.ov_segment.specs.declared.numbered.Record.{Record};
ghost use Rattle.ov_parents.specs.Parents.{RefusesParents};
ghost use Rattle.ov_new_version.specs.Joined.{RefusesJoined, joined_of};
ghost use Rattle.ov_store.specs.Changes.{Bringing};
ghost use Rattle.ov_store.specs.Committing.{AreRead, IsCommitBy, Set, Wish, asked_of};
ghost use Rattle.ov_store.specs.Refusals.{refused, new_off, vids_off};
ghost use Rattle.ov_store.specs.Scanning.{all_off, all_vids, scan_off, set_in};

/// What is refused by the catalog's numbers is refused by the World that they are of, and for the same.
pub fn refusals_are_the_worlds()
    ensures new { (r : Readings) (n : Numbers Extent Extent) (w : World) (name : List ℕ) → seen r n ≡ asked w
        → refused name (new_off n name) ≡ init_refusal w name }
    ensures vids { (name : List ℕ) (count : ℕ) (before vids : List ℕ)
        → refused name (vids_off count before vids) ≡ vids_refusal count before vids }
{}

/// Where a host tells, what was read of a commit's parents is not damaged, whatever the commit answers, and neither is the
/// partition that a version joins which is ready to be stored. So `TooManyRecords`, `Full` and `JournalFull` come only where
/// no parent is damaged, and these two and Ok only where the partition isn't.
pub fn what_a_commit_reads_is_whole()
    ensures parents { (s : Set) (wish : Wish) (t : State) (parents : List (List Record)) (page : ℕ) → t.tells ≡ true → AreRead s wish t parents
        → RefusesParents (fetch.Damaged page) (page_bytes t) s wish.vids → ⊥ }
    ensures joined { (s : Set) (wish : Wish) (t : State) (b : Bringing) (fresh page : ℕ) (by : IsCommitBy s wish t b fresh) → t.tells ≡ true
        → RefusesJoined (fetch.Damaged page) s (page_bytes t) (joined_of (asked_of s wish by.parents)) → ⊥ }
{}

/// A scan of all versions that a dataset has is refused for none of them: it is refused only where the dataset isn't there.
pub fn all_versions_are_there()
    ensures { (n : Numbers Extent Extent) (name : List ℕ) → scan_off n name (all_vids (set_in n name)) ≡ all_off (set_in n name) }
{}
