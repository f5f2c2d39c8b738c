//! What stands where in a setup: surfaces, mirrors, and the media that surfaces own.

ghost use Rattle.std.specs.Prelude.{◌≡◌, ◌+◌, ◌<◌, ◌≤◌, length};
ghost use Rattle.lensmodel.specs.Setup.Media as media;
ghost use Rattle.lensmodel.specs.Setup.Values as values;

use lensmodel::glass::Medium;
use lensmodel::setup::Setup;
use lensmodel::surface::Surface;

/// Surface `j`, counted from the object, which is 0.
pub fn surface(s: &Setup, j: u32) -> &Surface
    requires { j < length s.now.lens.surfaces.items }
    ensures { result.now ≡ values.surface_at s.now j }
{
    &s.lens.surfaces.as_slice()[j as usize]
}

/// Whether surface `j` reflects: it is a mirror and isn't the image.
pub fn reflects(s: &Setup, j: u32) -> bool
    requires { j < length s.now.lens.surfaces.items }
    ensures { result ≡ values.reflects s.now j }
{
    surface(s, j).mirror && (j as usize) < s.lens.surfaces.len() - 1
}

/// The surface that owns the medium behind surface `j`: the last one up to `j` that doesn't reflect.
pub fn owner(s: &Setup, j: u32) -> u32
    requires { j < length s.now.lens.surfaces.items }
    ensures value { result ≡ values.owner s.now j }
    ensures before { result ≤ j }
{
    let mut last = j;
    while last > 0 && reflects(s, last) {
        last -= 1;
    }
    last
}

/// The sign of travel behind surface `j`: 1 along the axis, -1 against it. Each mirror turns it.
pub fn travel(s: &Setup, j: u32) -> i32
    requires { j < length s.now.lens.surfaces.items }
    ensures { result ≡ values.travel s.now j }
{
    let mut onward = true;
    for i in 0..j {
        if reflects(s, i + 1) {
            onward = !onward;
        }
    }
    if onward { 1 } else { -1 }
}

/// The medium behind surface `j`, which isn't the image.
pub fn medium(s: &Setup, j: u32) -> &Medium
    requires surface { j + 1 < length s.now.lens.surfaces.items }
    requires media { length s.now.media.items + 1 ≡ length s.now.lens.surfaces.items }
    ensures { result.now ≡ media.medium_at s.now j }
{
    &s.media.as_slice()[owner(s, j) as usize]
}
