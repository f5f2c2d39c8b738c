//! The glasses that a lens names, found in a book.

ghost use Rattle.std.specs.Prelude.{◌≡◌, ◌<◌, ◌≤◌, length, map, is_none, unwrap_or};
ghost use Rattle.lensmodel.specs.Files.Causes.{each_from, first_fault, ok_unless};
ghost use Rattle.lensmodel.specs.Files.Joining as joining;
ghost use Rattle.lensmodel.specs.declared.glass.Medium.TheVariants.{Air};
ghost use Rattle.dispers.specs.Checks as checks;

use crate::pick::is_used;
use arrayvec::ArrayVec;
use glassbook::book::GlassBook;
use lensmodel::fault::CrossFault;
use lensmodel::glass::Medium;
use lensmodel::prescription::Prescription;
use lensmodel::surface::Surface;

/// The surfaces before the image, from the object on.
pub(crate) fn before_image(lens: &Prescription) -> &[Surface]
    requires { 0 < length lens.now.surfaces.items }
    ensures { result.now ≡ joining.before_image lens.now }
{
    let surfaces = lens.surfaces.as_slice();
    &surfaces[..surfaces.len() - 1]
}

/// The medium behind a surface, air at a mirror; None where the book hasn't the glass.
fn medium_behind(surface: &Surface, book: &GlassBook) -> Option<Medium>
    ensures { result ≡ joining.medium_behind book.now surface.now }
{
    match &surface.glass {
        Some(name) if !surface.mirror => {
            let glass = book.find(name)?;
            Some(Medium::Of(glass.copy()))
        }
        _ => Some(Medium::Air),
    }
}

/// The media behind some surfaces, of which there are at most 64; NoGlass at the first whose glass
/// the book hasn't.
pub(crate) fn media(
    surfaces: &[Surface],
    book: &GlassBook,
) -> Result<ArrayVec<Medium, 64>, CrossFault>
    requires { length surfaces.now ≤ 64 }
    ensures { result ≡ ok_unless
        (first_fault (each_from (checks.glass_fault book.now) 0 surfaces.now))
        (record {
          items = map
              (λ f. unwrap_or (joining.medium_behind book.now f) Air) surfaces.now;
        }) }
{
    let mut media: ArrayVec<Medium, 64> = ArrayVec::new();
    for (j, surface) in surfaces.iter().enumerate() {
        match medium_behind(surface, book) {
            Some(medium) => media.push(medium),
            None => return Err(CrossFault::NoGlass { surface: j as u32 }),
        }
    }
    Ok(media)
}

/// Whether the formula of a medium is used.
fn has_used_formula(medium: &Medium) -> bool
    ensures { result ≡ joining.has_used_formula medium.now }
{
    match medium {
        Medium::Air => true,
        Medium::Of(glass) => is_used(glass.formula),
    }
}

/// Formula at the first medium whose formula isn't used.
pub(crate) fn check_formulas(media: &[Medium]) -> Result<(), CrossFault>
    requires { length media.now ≤ 64 }
    ensures { result ≡ ok_unless (first_fault (each_from checks.formula_fault 0 media.now)) tt }
{
    for (j, medium) in media.iter().enumerate() {
        if !has_used_formula(medium) {
            return Err(CrossFault::Formula { surface: j as u32 });
        }
    }
    Ok(())
}
