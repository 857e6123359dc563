//! Laws of the definitions: each is the contract of a function that does nothing.

ghost use Rattle.std.specs.Prelude.{◌≡◌, ◌++◌, [], List, ℕ, true};
ghost use Rattle.ov_value.specs.Shapes.{Shape};
ghost use Rattle.ov_segment.specs.declared.next.Next.{Next as Answer};
ghost use Rattle.ov_segment.specs.declared.next.Next.TheVariants.{Bad};
ghost use Rattle.ov_segment.specs.declared.numbered.Record.{Record as RecordValue};
ghost use Rattle.ov_segment.specs.Segments.{AreRecords, segment_spelling};
ghost use Rattle.ov_segment.specs.Held.{Reader};
ghost use Rattle.ov_segment.specs.Reading.{fresh, Answers, WantsMore};
ghost use Rattle.ov_segment.specs.Runs.{Step, Run, Gives, fed, given};

/// A reader has one answer, and one state after it: so each answer comes exactly where its cause stands.
pub fn one_answer()
    ensures { (schema : Shape) (old x y : Reader) (a b : Answer)
        → Answers schema old a x → Answers schema old b y → (a ≡ b) × (x ≡ y) }
{}

/// Whatever the cuts, a new reader that is fed the front of a segment gives its first records and never
/// answers Bad; and where it was fed all of it and wants more, it has given all of them and holds nothing.
pub fn any_cuts()
    ensures front { (schema : Shape) (steps : List Step) (new : Reader) (records : List RecordValue) (more : List ℕ)
        → Run schema fresh steps new → AreRecords schema 0 records
        → fed steps ++ more ≡ segment_spelling records → Gives schema steps new more records }
    ensures whole { (schema : Shape) (steps : List Step) (new : Reader) (records : List RecordValue)
        → Run schema fresh steps new → AreRecords schema 0 records
        → fed steps ≡ segment_spelling records → WantsMore new.last new.held
        → (given steps ≡ records) × (new.held ≡ []) }
{}

/// After a Bad every answer is Bad.
pub fn bad_stays()
    ensures { (schema : Shape) (old new : Reader) (answer : Answer)
        → old.over ≡ true → Answers schema old answer new → (answer ≡ Bad) × (new ≡ old) }
{}
