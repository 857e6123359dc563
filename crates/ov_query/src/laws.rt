// What a scan shows, as a law.

ghost use Rattle.std.specs.Prelude.{◌≡◌, ℕ, List, map};
ghost use Rattle.ov_fetch.specs.Scans.{rows_at};
ghost use Rattle.ov_fetch.specs.declared.scan.Scan.{Scan};
ghost use Rattle.ov_model.specs.Answers.{Related, pairs, source_vids};
ghost use Rattle.ov_model.specs.Book.{Cvd};
ghost use Rattle.ov_model.specs.Records.{rows_at as rows_of};
ghost use Rattle.ov_model.specs.declared.query.Src.{Src};
ghost use Rattle.ov_terms.specs.Standing.{pairs_shown};

/// The pairs of a scan that has a dataset's rows of the versions that a query reads are the pairs that the query is answered
/// over.
pub fn a_scan_shows_the_pairs()
    ensures { (scan : Scan) (cvd : Cvd) (src : Src) (related : Related) → scan.vids ≡ source_vids related cvd src
        → map (rows_at scan.records) scan.picks ≡ map (rows_of cvd.versions) (source_vids related cvd src)
        → pairs_shown scan ≡ pairs related cvd src }
{}
