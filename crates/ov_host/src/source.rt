// The source of a script.
ghost use Rattle.std.specs.Prelude.{◌≡◌, ◌<◌, ◌≤◌, true, length, is_ok, IfOk};
ghost use Rattle.ov_host.specs.Source.{Script, Asks, Gives};

use crate::Failed;

/// The bytes of a script, one after another.
pub trait Source {
    /// Whether the source tells its bytes, what is left of them, and its count of faults.
    ghost script: { Self → Script };

    /// Reads the next bytes, at least one where any are left, and answers how many; 0 at the end. The buffer isn't empty.
    /// After `Failed` what is left stays.
    fn read(&mut self, buf: &mut [u8]) -> Result<usize, Failed>
        requires { 0 < length buf.old }
        ensures call { Asks (is_ok result) (script self.old) (script self.new) }
        ensures within { IfOk result (λ n. n ≤ length buf.old) }
        ensures bytes { IfOk result (λ n. (script self.old).tells ≡ true
            → Gives n (script self.old).left (script self.new).left buf.new) };
}
