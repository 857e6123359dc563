// Laws of the pages behind runs, each the contract of a function that does nothing.
ghost use Rattle.std.specs.Prelude.{◌≡◌, ◌<◌, ◌≤◌, ◌+◌, ◌*◌, ℕ, List, [], ◌∷◌, length, take, drop};
ghost use Rattle.ov_host.specs.declared.area.Area.TheVariants.{Pages};
ghost use Rattle.ov_host.specs.Host.{State, bytes_of};
ghost use Rattle.ov_journal.specs.Held.{Numbers};
ghost use Rattle.ov_publish.specs.declared.run.Run.{Run};
ghost use Rattle.ov_publish.specs.Pages.{range_of, whole_pages, with_run, AreOff, AreThere, SameOn};
ghost use Rattle.ov_publish.specs.Puts.{PagesAtRest};
ghost use Rattle.ov_publish.specs.Steps.{IsAdded, with_runs, ranges_of};

/// A run reads from its page on, and all of its pages are there.
pub fn a_run_is_read()
    ensures bytes { (page : ℕ) (bytes old : List ℕ) → take (length bytes) (drop (page * 4096) (with_run page bytes old)) ≡ bytes }
    ensures there { (page : ℕ) (bytes old : List ℕ) → 0 < length bytes
        → page * 4096 + whole_pages (length bytes) ≤ length (with_run page bytes old) }
{}

/// Ranges off a run's pages stay, and the area gets no shorter.
pub fn a_run_leaves_the_rest()
    ensures same { (page : ℕ) (bytes old : List ℕ) (live : List (ℕ × ℕ)) → AreThere live old
        → AreOff (range_of page bytes ∷ []) live → SameOn live old (with_run page bytes old) }
    ensures longer { (page : ℕ) (bytes old : List ℕ) → length old ≤ length (with_run page bytes old) }
{}

/// Both runs read from their pages on, where they are off each other, and all of their pages are there.
pub fn both_runs_are_read()
    ensures list { (list segment : Run) (old : List ℕ)
        → AreOff (range_of segment.page segment.bytes.now ∷ []) (range_of list.page list.bytes.now ∷ [])
        → take (length list.bytes.now) (drop (list.page * 4096) (with_runs list segment old)) ≡ list.bytes.now }
    ensures segment { (list segment : Run) (old : List ℕ)
        → take (length segment.bytes.now) (drop (segment.page * 4096) (with_runs list segment old)) ≡ segment.bytes.now }
    ensures list_there { (list segment : Run) (old : List ℕ) → 0 < length list.bytes.now
        → list.page * 4096 + whole_pages (length list.bytes.now) ≤ length (with_runs list segment old) }
    ensures segment_there { (list segment : Run) (old : List ℕ) → 0 < length segment.bytes.now
        → segment.page * 4096 + whole_pages (length segment.bytes.now) ≤ length (with_runs list segment old) }
{}

/// Ranges off both runs' pages stay, and the area gets no shorter.
pub fn both_runs_leave_the_rest()
    ensures same { (list segment : Run) (old : List ℕ) (live : List (ℕ × ℕ)) → AreThere live old
        → AreOff (ranges_of list segment) live → SameOn live old (with_runs list segment old) }
    ensures longer { (list segment : Run) (old : List ℕ) → length old ≤ length (with_runs list segment old) }
{}

/// After a step nothing is pending in the pages, and they are known; so another one may follow.
pub fn a_step_may_follow()
    ensures rest { (payloads : List (List ℕ)) (final printed : List ℕ) (numbers : Numbers) (s : State)
        → IsAdded payloads final printed numbers s → PagesAtRest s }
    ensures pages { (payloads : List (List ℕ)) (final printed : List ℕ) (numbers : Numbers) (s : State)
        → IsAdded payloads final printed numbers s → bytes_of Pages s ≡ final }
{}
