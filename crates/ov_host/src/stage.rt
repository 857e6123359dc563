// The stage: named files that commands read and write.
ghost use Rattle.std.specs.Prelude.{◌≡◌, ◌<◌, ◌≤◌, true, false, [], length, is_ok, IfOk, OnOk, OnErr};
ghost use Rattle.ov_host.specs.Source.{Gives};
ghost use Rattle.ov_host.specs.Stage.{Staged, Attends, KeepsWriting, OthersStay, was_found, Finds, Starts, Appends, Finishes};

use crate::{Failed, Found};

/// Files by their names. One file at a time is read, and one is written.
pub trait Stage {
    /// All that contracts see of the stage.
    ghost staged: { Self → Staged };

    /// Looks for a file, and starts to read it where it is there. Changes no file.
    fn find(&mut self, name: &str) -> Result<Found, Failed>
        ensures call { Attends (is_ok result) (staged self.old) (staged self.new) }
        ensures files { (staged self.new).files ≡ (staged self.old).files }
        ensures writing { KeepsWriting (staged self.old) (staged self.new) }
        ensures reading { (staged self.new).reading ≡ was_found result }
        ensures found { Finds name.now result (staged self.old) (staged self.new) };

    /// Reads on in the file found last: the next bytes, at least one where any are left, and how many; 0 at its end.
    /// The last `find` answered `Yes`, and no `create` was called since; the buffer isn't empty. Changes no file.
    fn read(&mut self, buf: &mut [u8]) -> Result<usize, Failed>
        requires some { 0 < length buf.old }
        requires found { (staged self.old).reading ≡ true }
        ensures call { Attends (is_ok result) (staged self.old) (staged self.new) }
        ensures files { (staged self.new).files ≡ (staged self.old).files }
        ensures writing { KeepsWriting (staged self.old) (staged self.new) }
        ensures reading { (staged self.new).reading ≡ true }
        ensures within { IfOk result (λ n. n ≤ length buf.old) }
        ensures bytes { IfOk result (λ n. (staged self.old).tells ≡ true
            → Gives n (staged self.old).left (staged self.new).left buf.new) }
        ensures failed { OnErr result ((staged self.old).tells ≡ true → (staged self.new).left ≡ (staged self.old).left) };

    /// Starts a new file under this name. No file changes until it is finished; after `Failed` the named file may be absent
    /// or hold anything, and all others stay.
    fn create(&mut self, name: &str) -> Result<(), Failed>
        ensures call { Attends (is_ok result) (staged self.old) (staged self.new) }
        ensures reading { (staged self.new).reading ≡ false }
        ensures writing { (staged self.new).writing ≡ is_ok result }
        ensures started { OnOk result ((staged self.old).tells ≡ true → Starts name.now (staged self.old) (staged self.new)) }
        ensures failed { OnErr result ((staged self.old).tells ≡ true → OthersStay name.now (staged self.old) (staged self.new)) };

    /// Appends to the file that was created and not finished since. After `Failed` as `create`.
    fn write(&mut self, bytes: &[u8]) -> Result<(), Failed>
        requires { (staged self.old).writing ≡ true }
        ensures call { Attends (is_ok result) (staged self.old) (staged self.new) }
        ensures reading { (staged self.new).reading ≡ (staged self.old).reading }
        ensures writing { (staged self.new).writing ≡ true }
        ensures appended { OnOk result ((staged self.old).tells ≡ true → Appends bytes.now (staged self.old) (staged self.new)) }
        ensures failed { OnErr result ((staged self.old).tells ≡ true
            → OthersStay (staged self.old).name (staged self.old) (staged self.new)) };

    /// Puts the file that was created and not finished since into the map under its name. After `Failed` as `create`.
    fn finish(&mut self) -> Result<(), Failed>
        requires { (staged self.old).writing ≡ true }
        ensures call { Attends (is_ok result) (staged self.old) (staged self.new) }
        ensures reading { (staged self.new).reading ≡ (staged self.old).reading }
        ensures writing { (staged self.new).writing ≡ false }
        ensures finished { OnOk result ((staged self.old).tells ≡ true → Finishes (staged self.old) (staged self.new)) }
        ensures failed { OnErr result ((staged self.old).tells ≡ true
            → OthersStay (staged self.old).name (staged self.old) (staged self.new)) };
}
