// Laws of a whole run.
ghost use Rattle.std.specs.Prelude.{◌≡◌, ◌≤◌, ◌+◌, ℕ, List, [], ◌∷◌, ◌++◌, length, slice_get, Option, Some, None};
ghost use Rattle.ov_model.specs.Act.{Session};
ghost use Rattle.ov_model.specs.Deed.{deed};
ghost use Rattle.ov_model.specs.Course.{Item, Space, Served, SaysSome, after, course, due, moves_of, play, world_after, world_at};
ghost use Rattle.ov_model.specs.Forms.{Form};
ghost use Rattle.ov_model.specs.Moves.{Move, Checkpoint, moved};
ghost use Rattle.ov_model.specs.declared.command.Command.{Command};
ghost use Rattle.ov_model.specs.declared.command.Command.TheVariants.{Checkout};
ghost use Rattle.ov_model.specs.Holding.{AreHeld, MayFlip};
ghost use Rattle.ov_model.specs.Placed.{ArePlaced, NamesParents};
ghost use Rattle.ov_model.specs.Words.{lines_of};
ghost use Rattle.ov_model.specs.World.{World, AllBegun, book, empty_world};

/// The course of a script's lines is that of the first of them and then that of the others, from the World and the session
/// that the first ones leave, with the space that they leave. So is the play.
pub fn a_course_goes_on()
    ensures course { (forms : List Form) (steps : ℕ) (w : World) (s : Session) (a b : List (List ℕ)) (space : Space)
        → course forms steps w s (a ++ b) space
        ≡ after (course forms steps w s a space).items
        (course forms steps (course forms steps w s a space).world (course forms steps w s a space).session b (course forms steps w s a space).left) }
    ensures play { (a b : List Item) → play (a ++ b) ≡ play a ++ play b }
{}

/// A text of whole lines, each ended by a line feed, and then more: its lines are those of both.
pub fn whole_lines_stand_alone()
    ensures { (a b : List ℕ) → lines_of ((a ++ 10 ∷ []) ++ b) ≡ lines_of (a ++ 10 ∷ []) ++ lines_of b }
{}

/// The World after a course is the one after its moves.
pub fn a_course_ends_at_its_moves()
    ensures { (forms : List Form) (steps : ℕ) (w : World) (s : Session) (lines : List (List ℕ)) (space : Space)
        → (course forms steps w s lines space).world ≡ world_after w (course forms steps w s lines space).items }
{}

/// `World(k + 1)` is one move after `World(k)`, and the last of them is the World after all.
pub fn worlds_are_one_move_apart()
    ensures next { (w : World) (items : List Item) (k : ℕ) (m : Move) → slice_get (moves_of items) k ≡ Some m
        → world_at w items (k + 1) ≡ moved m (world_at w items k) }
    ensures last { (w : World) (items : List Item) → world_at w items (length (moves_of items)) ≡ world_after w items }
{}

/// What is due before a reply is due before the next one.
pub fn due_never_falls()
    ensures next { (j : ℕ) (items : List Item) → due j items ≤ due (j + 1) items }
    ensures all { (j : ℕ) (items : List Item) → due j items ≤ length (moves_of items) }
{}

/// No reply of a run from an empty store is empty, nor one of a run from a World whose datasets each have a version, as all
/// have.
pub fn no_reply_of_a_run_is_empty()
    ensures says { (forms : List Form) (steps : ℕ) (w : World) (s : Session) (lines : List (List ℕ)) (space : Space) → AllBegun w.sets
        → SaysSome (course forms steps w s lines space).items }
    ensures start { AllBegun empty_world.sets }
    ensures kept { (w : World) (m : Move) → AllBegun w.sets → AllBegun (moved m w).sets }
{}

/// In a store of format 2 a checkpoint changes no reply.
pub fn a_checkpoint_changes_no_reply()
    ensures { (w : World) (s : Session) (command : Command) → w.format ≡ 2
        → (deed (moved Checkpoint w) s command).reply ≡ (deed w s command).reply }
{}

/// What a checkout says, and puts into a file, depends on the book, the files and the line alone: on no partition, plan or
/// number of the store.
pub fn a_checkout_is_of_the_book()
    ensures { (w v : World) (s : Session) (vids : List ℕ) (file : Option (List ℕ)) (name : List ℕ) → book w ≡ book v
        → deed w s (Checkout name vids file None) ≡ deed v s (Checkout name vids file None) }
{}

/// Each version is in exactly one partition, and stays so with every move whose commit names parents that are there. With it
/// stays what that rests on: numbers of partitions are given once, and a plan's targets have versions that are there.
pub fn each_version_is_in_one_partition()
    ensures start { ArePlaced empty_world.sets }
    ensures kept { (m : Move) (w : World) → NamesParents m w → ArePlaced w.sets → ArePlaced (moved m w).sets }
{}

/// Each partition keeps all records of each version that it serves, and stays so with every move, a flip at which no record is
/// missing among them.
pub fn partitions_have_their_versions_records()
    ensures start { AreHeld empty_world.sets }
    ensures kept { (m : Move) (w : World) → MayFlip m w → ArePlaced w.sets → AreHeld w.sets → AreHeld (moved m w).sets }
{}
