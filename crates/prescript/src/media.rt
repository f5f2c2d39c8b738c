//! Media: whether a surface lies between equal ones.

ghost use Rattle.std.specs.Prelude.{◌≡◌, ◌+◌, ◌-◌, ◌<◌, ◌≤◌, length, map};
ghost use Rattle.lensmodel.specs.Setup.Media as media;
ghost use Rattle.lensmodel.specs.Setup.Values as values;
ghost use Rattle.lensmodel.specs.Setup.WellFormed.{IsWellFormed};

use arrayvec::ArrayVec;
use lensmodel::glass::Medium;
use lensmodel::name::Name;
use lensmodel::setup::Setup;
use lensmodel::tolerance::{Tol, TolBox, TolKind};

/// Whether surface `j` reflects: it is a mirror and isn't the image.
fn reflects(s: &Setup, j: u32) -> bool
    requires { j < length s.now.lens.surfaces.items }
    ensures { result ≡ values.reflects s.now j }
{
    let surfaces = s.lens.surfaces.as_slice();
    surfaces[j as usize].mirror && (j as usize) < surfaces.len() - 1
}

/// The surface that owns the medium behind surface `j`: the last one up to `j` that doesn't reflect.
fn owner(s: &Setup, j: u32) -> u32
    requires { j < length s.now.lens.surfaces.items }
    ensures value { result ≡ values.owner s.now j }
    ensures before { result ≤ j }
{
    let mut last = j;
    while last > 0 && reflects(s, last) {
        last -= 1;
    }
    last
}

/// The medium behind surface `j`, which isn't the image.
fn medium(s: &Setup, j: u32) -> &Medium
    requires surface { j + 1 < length s.now.lens.surfaces.items }
    requires media { length s.now.media.items + 1 ≡ length s.now.lens.surfaces.items }
    ensures { result.now ≡ media.medium_at s.now j }
{
    &s.media.as_slice()[owner(s, j) as usize]
}

/// A unit with the ASCII letters in upper case.
fn upper(unit: u16) -> u16
    ensures { result ≡ media.upper unit }
{
    if 97 <= unit && unit <= 122 {
        unit - 32
    } else {
        unit
    }
}

/// A name in upper case.
fn upper_name(name: &Name) -> Name
    ensures { result.items ≡ map media.upper name.now.items }
{
    let mut key: Name = ArrayVec::new();
    for unit in name.as_slice() {
        key.push(upper(*unit));
    }
    key
}

/// Whether two names are equal after ASCII upper-casing.
fn same_name(a: &Name, b: &Name) -> bool
    ensures { result ≡ media.same_name a.now.items b.now.items }
{
    upper_name(a) == upper_name(b)
}

/// Whether two media are the same: both air, or glasses of one name.
pub(crate) fn same_medium(a: &Medium, b: &Medium) -> bool
    ensures { result ≡ media.same_medium a.now b.now }
{
    match (a, b) {
        (Medium::Air, Medium::Air) => true,
        (Medium::Of(g), Medium::Of(h)) => same_name(&g.name, &h.name),
        _ => false,
    }
}

/// The tolerances of a setup: none without a box.
fn tolerances(toler: &Option<TolBox>) -> &[Tol]
    ensures { result.now ≡ values.tolerances toler.now }
{
    match toler {
        Some(list) => list.list.as_slice(),
        None => &[],
    }
}

/// Whether a tolerance stands on the index behind surface `j`.
pub(crate) fn has_index_tolerance(list: &[Tol], j: u32) -> bool
    ensures { result ≡ media.has_tolerance list.now TolKind.Indx j }
{
    for t in list {
        if t.kind == TolKind::Indx && t.surface == j {
            return true;
        }
    }
    false
}

/// Whether surface `j`, from 1 to the one before the image, lies between equal media: it doesn't
/// reflect, both sides are air or a glass of one name, and no tolerance on index stands on either.
/// There a ray goes straight on.
pub fn equal_media(s: &Setup, j: u32) -> bool
    requires well { IsWellFormed s.now }
    requires low { 1 ≤ j }
    requires high { j < values.image s.now }
    ensures { result ≡ media.is_between_equal_media s.now j }
{
    let toler = tolerances(&s.toler);
    !reflects(s, j)
        && same_medium(medium(s, j - 1), medium(s, j))
        && !has_index_tolerance(toler, owner(s, j - 1))
        && !has_index_tolerance(toler, j)
}
