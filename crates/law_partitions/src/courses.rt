// Laws of partitions in a whole run.
ghost use Rattle.std.specs.Prelude.{ℕ, List};
ghost use Rattle.ov_model.specs.Act.{Session};
ghost use Rattle.ov_model.specs.Course.{Space, course, world_at};
ghost use Rattle.ov_model.specs.Forms.{Form};
ghost use Rattle.ov_model.specs.World.{World, empty_world};
ghost use Rattle.law_partitions.specs.Courses.{AllDue, HasPartitions, IsBegun};
ghost use Rattle.law_partitions.specs.Sound.{AllNameVersions};

/// At the World in which it is made, each move of a run meets what keeps partitions right: a commit's parents are there, a new
/// version's rows rise by their keys, a copy finds a record missing and a flip none, and a plan begins where none runs.
pub fn moves_of_a_course_are_due()
    ensures { (forms : List Form) (steps : ℕ) (w : World) (s : Session) (lines : List (List ℕ)) (space : Space) → AllNameVersions forms lines → IsBegun w
        → AllDue w (course forms steps w s lines space).items }
{}

/// In every World of a run each version is in exactly one partition, which keeps all its records.
pub fn worlds_of_a_course_keep_their_partitions()
    ensures start { HasPartitions empty_world }
    ensures kept { (forms : List Form) (steps : ℕ) (w : World) (s : Session) (lines : List (List ℕ)) (space : Space) → AllNameVersions forms lines → HasPartitions w
        → (k : ℕ) → HasPartitions (world_at w (course forms steps w s lines space).items k) }
{}
