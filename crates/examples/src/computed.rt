//! Rows of worked setups, number for number: each function does nothing, and its contract says
//! what the definitions of the rows give.

ghost use Rattle.examples.specs.ComputedAspheres.{SphericalHeight, BentHeight, PastZone, AtZone, BowlLost, BowlRoot, BowlAsConic, LastCell, ConicAsphere, ZoneSquare, AsphereEdge};
ghost use Rattle.examples.specs.ComputedBoxes.{ThicknessBox, PlateBox, FlatIndex, HeavyIndex, CrownIndex};
ghost use Rattle.examples.specs.ComputedEdges.{BoundMet, BoundPassed, ImageTie, ImageRim, EqualGlass, EqualInBox, TolerantBefore, TolerantBehind, RimLeastMet, RimLeastPassed, RimGreatestMet};
ghost use Rattle.examples.specs.ComputedFolds.{FoldedRay, FoldedBox, FoldedCoarse};
ghost use Rattle.examples.specs.ComputedForms.{EmptyBox, PlaneInForms, AsphereInForms, OutsideInForms, ReflectedInForms, VignettedInForms, TieInForms, FormDifference, FormQuotient, FormProduct};
ghost use Rattle.examples.specs.ComputedRounds.{BentParts, FrontParts, SkewParts, SkewRow, SteepRounds};
ghost use Rattle.examples.specs.ComputedRows.{SlantedPlane, NearObject, SphereHeight, GlassAxis, MirrorFocus, PastSphere, BehindEquator, TotalReflection, OutsideRim, InsideRim, FanRay, AimedRay};
ghost use Rattle.examples.specs.ComputedSides.{SteepMirror, TwoMirrors, GrazingCoarse};
ghost use Rattle.examples.specs.ComputedTies.{Touching, AtZero, OfWindow};
ghost use Rattle.examples.specs.ComputedWidths.{WidePath, WideX, WideY, WideZ, WideL, WideM, WideN};
ghost use Rattle.examples.specs.ComputedScales.{RimTie, WideBeforeUndecided, VignettedBeforeWide, FinerPasses, SphereEdge, GrazingRay, FarImage, FarthestImage, FinestResidual, LessFarImage, FartherImage, FinestPasses, CoarseResidual, FineResidual, StartLost};

/// Rays that reach the image: through a plane, whatever the object's distance, through a sphere in air, along the axis of a sphere
/// of glass, and by a mirror.
pub fn rays_pass()
    ensures plane { SlantedPlane }
    ensures near { NearObject }
    ensures sphere { SphereHeight }
    ensures glass { GlassAxis }
    ensures mirror { MirrorFocus }
{}

/// Rays that end before the image: past the edge of a sphere, behind its equator, and past the
/// critical angle.
pub fn rays_end()
    ensures outside { PastSphere }
    ensures behind { BehindEquator }
    ensures reflected { TotalReflection }
{}

/// Rays by their point in the pupil plane: at a fraction of its radius, and at a decimal.
pub fn pupil_rays()
    ensures fan { FanRay }
    ensures aimed { AimedRay }
{}

/// A ray outside a rim is vignetted, one inside passes, and one that meets the rim itself is
/// decided at no scale.
pub fn rims_decide()
    ensures outside { OutsideRim }
    ensures inside { InsideRim }
    ensures tie { RimTie }
{}

/// The order of the words: vignetted comes before wide, and wide before undecided. A ray that is
/// wide at the first scale passes at the second.
pub fn words_in_order()
    ensures vignetted { VignettedBeforeWide }
    ensures wide { WideBeforeUndecided }
    ensures finer { FinerPasses }
{}

/// A row is that of the first scale where it is definite, else of the greatest scale that isn't
/// lost, and where all are lost of the greatest.
pub fn scales_in_order()
    ensures first_alone { FartherImage }
    ensures up_to_second { FarImage }
    ensures up_to_third { LessFarImage }
    ensures last_alone { FinestPasses }
    ensures farthest { FarthestImage }
    ensures edge { SphereEdge }
    ensures grazing { GrazingRay }
    ensures start { StartLost }
{}

/// The residual in units of the scales, and a ray that passes by its smallness.
pub fn residuals()
    ensures coarse { CoarseResidual }
    ensures fine { FineResidual }
    ensures finest { FinestResidual }
{}

/// Even aspheres: one that is a sphere, one that is bent, rays past the zone and at it, and a bowl
/// whose steep ray is lost, though it crosses the same bowl as a conic; a crossing in the last cell,
/// a conic constant far from 0, a zone whose square isn't one number, and the edge of a sphere.
pub fn aspheres()
    ensures spherical { SphericalHeight }
    ensures bent { BentHeight }
    ensures zone { PastZone }
    ensures at_zone { AtZone }
    ensures bowl { BowlLost }
    ensures root { BowlRoot }
    ensures conic { BowlAsConic }
    ensures last_cell { LastCell }
    ensures far_conic { ConicAsphere }
    ensures zone_square { ZoneSquare }
    ensures edge { AsphereEdge }
{}

/// Rays through a box, in linear arithmetic.
pub fn rays_in_box()
    ensures thickness { ThicknessBox }
    ensures index { PlateBox }
{}

/// A skew ray through even aspheres, conics, glass and mirrors, forwards and backwards: in
/// intervals, with a box in linear arithmetic, and with a residual of a hundred units.
pub fn folded_rays()
    ensures intervals { FoldedRay }
    ensures forms { FoldedBox }
    ensures coarse { FoldedCoarse }
{}

/// Indices by both formulas.
pub fn indices()
    ensures flat { FlatIndex }
    ensures schott { HeavyIndex }
    ensures sellmeier { CrownIndex }
{}

/// A bound on widths is passed by what is wider, and not by what is as wide.
pub fn bounds_turn()
    ensures met { BoundMet }
    ensures passed { BoundPassed }
{}

/// A rim whose square isn't one number at scale 6: rho that ends where it begins, rho that ends
/// within it, and rho that begins where it ends.
pub fn rims_turn()
    ensures least { RimLeastMet }
    ensures within { RimLeastPassed }
    ensures greatest { RimGreatestMet }
{}

/// Each of the intervals of a place and of a heading alone makes a row wide.
pub fn widths_turn()
    ensures path { WidePath }
    ensures x { WideX }
    ensures y { WideY }
    ensures z { WideZ }
    ensures l { WideL }
    ensures m { WideM }
    ensures n { WideN }
{}

/// A rim at the image: its words name the image.
pub fn image_rims()
    ensures tie { ImageTie }
    ensures rim { ImageRim }
{}

/// Between equal glasses the heading stays, unless a tolerance stands on one of their indices.
pub fn equal_glasses()
    ensures stays { EqualGlass }
    ensures boxed { EqualInBox }
    ensures before { TolerantBefore }
    ensures behind { TolerantBehind }
{}

/// Linear arithmetic of one form: the symbol leaves its difference and its quotient.
pub fn form_values()
    ensures difference { FormDifference }
    ensures quotient { FormQuotient }
    ensures product { FormProduct }
{}

/// The words in linear arithmetic, which a box, even an empty one, asks for.
pub fn words_in_forms()
    ensures empty { EmptyBox }
    ensures plane { PlaneInForms }
    ensures asphere { AsphereInForms }
    ensures outside { OutsideInForms }
    ensures reflected { ReflectedInForms }
    ensures vignetted { VignettedInForms }
    ensures tie { TieInForms }
{}

/// The parts of a meeting with an even asphere: the window, what the cells leave of it, the sag over
/// that, and the slope rounds.
pub fn meetings()
    ensures bent { BentParts }
    ensures front { FrontParts }
    ensures skew { SkewParts }
    ensures skew_row { SkewRow }
    ensures steep { SteepRounds }
{}

/// Where a step of a meeting turns: intervals that touch, bounds at 0, and the cells of a window.
pub fn ties()
    ensures touching { Touching }
    ensures at_zero { AtZero }
    ensures of_window { OfWindow }
{}

/// Rays on the wrong side: a mirror that sends a ray on, and one that sends it back once more; and a
/// ray nearly along a plane.
pub fn sides()
    ensures mirror { SteepMirror }
    ensures mirrors { TwoMirrors }
    ensures grazing { GrazingCoarse }
{}
