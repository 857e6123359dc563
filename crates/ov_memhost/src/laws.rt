// Laws of stops, each the contract of a function that does nothing.
ghost use Rattle.std.specs.Prelude.{◌≡◌, ◌≤◌, ℕ, List, slice_index};
ghost use Rattle.ov_host.specs.Disk.{Disk, Image};
ghost use Rattle.ov_host.specs.Tape.{fresh, left_since};
ghost use Rattle.ov_memhost.specs.Kept.{Kept, replayed};
ghost use Rattle.ov_memhost.specs.Picked.{IsNamed};
ghost use Rattle.ov_memhost.specs.Sound.{AreSound};
ghost use Rattle.ov_memhost.specs.Stopped.{StopIn, stopped, moments_before};

/// A stop in the call of some number is one that the model of a disk knows, since each moment up to the clock as that
/// call began.
pub fn stops_in_a_call_are_since_it_began()
    ensures { (kept : List Kept) (call moment : ℕ) (start : Disk) (c : Image)
        → StopIn kept call start c → moment ≤ moments_before kept call → left_since (replayed kept (fresh start)) moment c }
{}

/// The image that the arguments of a crash name is one that a stop in that call may leave.
pub fn named_images_are_left_by_stops()
    ensures { (kept : List Kept) (call cut pages journal : ℕ) (pick : List ℕ) (start : Disk) (c : Image)
        → AreSound start → IsNamed (stopped kept call cut start) pages journal pick c → StopIn kept call start c }
{}

/// The arguments of a crash name no two images.
pub fn one_image_is_named()
    ensures { (d : Disk) (pages journal : ℕ) (pick : List ℕ) (b c : Image)
        → IsNamed d pages journal pick b → IsNamed d pages journal pick c → b ≡ c }
{}
