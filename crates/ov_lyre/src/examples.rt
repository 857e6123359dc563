// Worked splits.
ghost use Rattle.ov_lyre.specs.Examples.{AllSplit, worked};

/// Small trees are split by the definition as was worked out apart from it: chains, stars, and random trees with light and
/// heavy edges.
pub fn worked_splits()
    ensures { AllSplit worked }
{}
