//! What is wrong with a lens as a whole.

ghost use Rattle.std.specs.Prelude.{◌≡◌, ◌-◌, ◌≤◌, length, drop};
ghost use Rattle.std.specs.List.{All};
ghost use Rattle.lensmodel.specs.Files.Causes.{first_fault};
ghost use Rattle.lensmodel.specs.Setup.WellFormed.{IsWrittenSurface};
ghost use Rattle.lensmodel.specs.Setup.WholeFaults as faults;

use lensmodel::fault::ZmxFault;
use lensmodel::prescription::Prescription;
use lensmodel::surface::Surface;
use prescript::asphere::asphere_fault;

/// What is wrong with surface `j`, by the number of the image.
fn surface_fault(image: u32, j: u32, f: &Surface) -> Option<ZmxFault>
    requires { IsWrittenSurface f.now }
    ensures { result ≡ first_fault (faults.surface_faults image j f.now) }
{
    if f.thick.is_none() && j != image {
        return Some(ZmxFault::InnerInfinity { surface: j });
    }
    asphere_fault(f, j)
}

/// What is wrong with the first surface behind the object that is at fault.
fn inner_fault(surfaces: &[Surface]) -> Option<ZmxFault>
    requires some { 1 ≤ length surfaces.now }
    requires few { length surfaces.now ≤ 64 }
    requires written { All IsWrittenSurface surfaces.now }
    ensures { result ≡ first_fault
        (faults.faults_from (length surfaces.now - 1) 1 (drop 1 surfaces.now)) }
{
    let image = surfaces.len() as u32 - 1;
    for j in 1..surfaces.len() {
        let fault = surface_fault(image, j as u32, &surfaces[j]);
        if fault.is_some() {
            return fault;
        }
    }
    None
}

/// The first whole fault of a lens.
#[tactic(auto, unfolding(lensmodel::specs::Setup::WholeFaults::whole_fault))]
pub fn whole_fault(lens: &Prescription) -> Option<ZmxFault>
    requires { All IsWrittenSurface lens.now.surfaces.items }
    ensures { result ≡ faults.whole_fault lens.now }
{
    let surfaces = lens.surfaces.as_slice();
    if surfaces.len() < 3 {
        return Some(ZmxFault::TooFewSurfaces);
    }
    if lens.stop as usize >= surfaces.len() {
        return Some(ZmxFault::StopCount);
    }
    if surfaces[0].mirror {
        return Some(ZmxFault::MirrorAtObject);
    }
    inner_fault(surfaces)
}
