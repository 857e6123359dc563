// Laws of the Worlds that moves reach.
ghost use Rattle.ov_model.specs.Moves.{Move};
ghost use Rattle.ov_model.specs.World.{World};
ghost use Rattle.law_partitions.specs.Sound.{IsSound, MayMove};
ghost use Rattle.ov_catalog.specs.Reached.{Fits, Reached};

/// A move that fits may be made, and what the laws say of a World holds in each that such moves reach.
pub fn reached_worlds_are_sound()
    ensures may { (m : Move) (w : World) → Reached w → Fits m w → MayMove m w }
    ensures sound { (w : World) → Reached w → IsSound w }
{}
