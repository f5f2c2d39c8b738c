//! Small lenses, jobs and spots on which the definitions are worked out: each function does
//! nothing, and its contract says what the definitions give.

ghost use Rattle.examples.specs.DoubletExamples.{DoubletFirst, StopAtObject, StopAtImage, ManginFirst, BlockedFirst, HighRays, DoubletSums, HighSums, ManginSums};
ghost use Rattle.examples.specs.ExactChains.{FirstChainMeets, FirstChainHeld, SumsChainMeets, SumsChainHeld};
ghost use Rattle.examples.specs.JobFiles.{JobFaults, ReadJob, MostRays, BoxFaults, ReadBox};
ghost use Rattle.examples.specs.JoiningExamples.{Wavelengths, Glasses, Tolerances, WideTolerance};
ghost use Rattle.examples.specs.LaunchExamples.{FanOfTwo, GridOfOne};
ghost use Rattle.examples.specs.LaunchLaws.{CountIs, FanAlongY, FanAlongX, GridAt};
ghost use Rattle.examples.specs.LensFiles.{LineFaults, WholeFaults, ReadLens};
ghost use Rattle.examples.specs.ParaxialExamples.{PlaneInAir, GlassSphere, MirrorFocus, SphereSums, ParaboloidSums};
ghost use Rattle.examples.specs.PrescriptionExamples.{WideZone, SmallZone, NoZones, Norms, Faults, CoefficientBound, FoldedLens, EqualMedia};
ghost use Rattle.examples.specs.SetupExamples.{MirrorIsWellFormed, AirIndices, Widths, Residuals, Sides, Places, Rims};
ghost use Rattle.examples.specs.SpotExamples.{GridStatistics, MixedStatistics, FarStatistics};

/// What lens files say, and why others are refused.
pub fn lens_files()
    ensures lines { LineFaults }
    ensures whole { WholeFaults }
    ensures lens { ReadLens }
{}

/// What jobs and tolerance boxes say, and why others are refused.
pub fn job_files()
    ensures faults { JobFaults }
    ensures job { ReadJob }
    ensures most { MostRays }
    ensures box_faults { BoxFaults }
    ensures box_read { ReadBox }
{}

/// The rays of a job: a line asks for as many as its count says, and each is known by its place.
pub fn asked_rays()
    ensures count { CountIs }
    ensures along_y { FanAlongY }
    ensures along_x { FanAlongX }
    ensures grid { GridAt }
    ensures fan_of_two { FanOfTwo }
    ensures grid_of_one { GridOfOne }
{}

/// Zones of semi-diameters, and the powers of ten that they are brought to.
pub fn zones()
    ensures wide { WideZone }
    ensures small { SmallZone }
    ensures none { NoZones }
    ensures norms { Norms }
{}

/// Faults of a prescription as a whole, each in its place in the order; the bound of coefficients.
pub fn whole_faults()
    ensures faults { Faults }
    ensures bound { CoefficientBound }
{}

/// Signs of travel, owners of media, and equal media.
pub fn media()
    ensures folded { FoldedLens }
    ensures equal { EqualMedia }
{}

/// A setup that is well formed, an index without room for its tolerance, ranges at their ends, and
/// rims: a tie clears.
pub fn setups()
    ensures mirror { MirrorIsWellFormed }
    ensures air { AirIndices }
    ensures widths { Widths }
    ensures residuals { Residuals }
    ensures sides { Sides }
    ensures places { Places }
    ensures rims { Rims }
{}

/// Lenses, books, jobs and boxes put together: each cross check in its place.
pub fn joined_setups()
    ensures wavelengths { Wavelengths }
    ensures glasses { Glasses }
    ensures tolerances { Tolerances }
    ensures wide { WideTolerance }
{}

/// First-order values of a plane, of a sphere with glass behind it, of a mirror, of two surfaces with
/// the stop at the second, at the object and at the image, of a mirror in glass, of a lens of which
/// two rows are lost, and of rays too high for the greater scales.
pub fn first_order_values()
    ensures plane { PlaneInAir }
    ensures sphere { GlassSphere }
    ensures mirror { MirrorFocus }
    ensures doublet { DoubletFirst }
    ensures no_stop { StopAtObject }
    ensures last_stop { StopAtImage }
    ensures mangin { ManginFirst }
    ensures blocked { BlockedFirst }
    ensures high { HighRays }
{}

/// Seidel sums of a sphere with glass behind it, of a paraboloid that reflects, of two surfaces, and
/// of a mirror in glass.
pub fn seidel_sums()
    ensures sphere { SphereSums }
    ensures paraboloid { ParaboloidSums }
    ensures doublet { DoubletSums }
    ensures high { HighSums }
    ensures mangin { ManginSums }
{}

/// Statistics of a grid, of rows at three scales, and of a row whose square passes the cap.
pub fn spots()
    ensures grid { GridStatistics }
    ensures mixed { MixedStatistics }
    ensures far { FarStatistics }
{}

/// A paraxial chain and a Seidel chain of two surfaces, in exact fractions: they meet the equations,
/// and lie in the intervals of the rows.
pub fn exact_chains()
    ensures first { FirstChainMeets }
    ensures first_held { FirstChainHeld }
    ensures sums { SumsChainMeets }
    ensures sums_held { SumsChainHeld }
{}
