// Laws of the model, each the contract of a function that does nothing.
ghost use Rattle.std.specs.Prelude.{◌≤◌, Bool};
ghost use Rattle.ov_host.specs.Disk.{Image, MayLeave};
ghost use Rattle.ov_host.specs.Tape.{Call, Tape, During, PartlyDone, Plays, clock};
ghost use Rattle.ov_host.specs.Disk.{Disk};

/// No call sets the clock back.
pub fn clock_never_goes_back()
    ensures { (call : Call) (ok : Bool) (old new : Tape) → Plays call ok old new → clock old ≤ clock new }
{}

/// A stop in a call may leave all that a stop directly before it, or after its failure, may leave.
pub fn stops_in_a_call_include_its_failures()
    ensures before { (call : Call) (d : Disk) (c : Image) → MayLeave d c → During call d c }
    ensures after { (call : Call) (d e : Disk) (c : Image) → PartlyDone call d e → MayLeave e c → During call d c }
{}
