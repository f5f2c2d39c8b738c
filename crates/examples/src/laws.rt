//! Laws of chains: each function does nothing, and its contract is the law.

ghost use Rattle.examples.specs.Exchange.{ReachesAlike, LeavesAlike, ClearsAlike, RestIsRest, CurvatureAtRest, DistanceAtRest, IndexAtRest, IndexFreeKeeps, BoxHoldsLens, LensAtRest};
ghost use Rattle.examples.specs.ChainLaws.{ReachesBefore, LeavesBefore, WholeReaches, WholeLeaves, ReachesNext, CurvatureWritten, DistanceWritten, IndexWritten, DirectionStays, TurnsAtMirrors, StaysElsewhere, MirrorsKeepMedium, MirrorsKeepIndex, VignettedExcludes, OutsideExcludes, TirExcludes};

/// A chain to a surface is a chain to each surface before it, and past it.
pub fn chain_fronts()
    ensures reaches { ReachesBefore }
    ensures leaves { LeavesBefore }
    ensures whole_reaches { WholeReaches }
    ensures whole_leaves { WholeLeaves }
    ensures next { ReachesNext }
{}

/// Without a box the values are the written decimals.
pub fn written_values()
    ensures curvature { CurvatureWritten }
    ensures distance { DistanceWritten }
    ensures index { IndexWritten }
{}

/// Between equal media the direction stays.
pub fn equal_media_keep_direction()
    ensures { DirectionStays }
{}

/// A mirror turns the sign of travel, and nothing else does; behind it is the medium before it, with
/// the same index.
pub fn mirrors_turn_travel()
    ensures turns { TurnsAtMirrors }
    ensures stays { StaysElsewhere }
    ensures medium { MirrorsKeepMedium }
    ensures index { MirrorsKeepIndex }
{}

/// The words `vignetted`, `outside` and `tir` exclude the word `passes` of a whole chain.
pub fn words_exclude_passes()
    ensures vignetted { VignettedExcludes }
    ensures outside { OutsideExcludes }
    ensures tir { TirExcludes }
{}

/// Equal fractions may stand for one another, however they are written, and those past a surface
/// don't matter to it.
pub fn fractions_exchange()
    ensures reaches { ReachesAlike }
    ensures leaves { LeavesAlike }
    ensures clears { ClearsAlike }
{}

/// With every symbol 0 the values of a setup with a box are those of the setup without it.
pub fn values_at_rest()
    ensures rest { RestIsRest }
    ensures curvature { CurvatureAtRest }
    ensures distance { DistanceAtRest }
    ensures index { IndexAtRest }
{}

/// A box holds the lens without it: its chains are those with every symbol 0, where the box leaves
/// equal media equal, as each box without a tolerance on index does.
pub fn box_holds_lens()
    ensures keeps { IndexFreeKeeps }
    ensures holds { BoxHoldsLens }
    ensures only { LensAtRest }
{}
