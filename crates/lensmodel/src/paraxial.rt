//! First-order values and Seidel sums.

ghost use Rattle.std.specs.Prelude.{◌≡◌};

use arrayvec::ArrayVec;
use fixdec::span::Span;
use fixdec::step::Step;

/// First-order values, each lost or an interval at one scale, in lens units.
#[derive(Debug, PartialEq, Eq, Drop)]
pub struct FirstOut {
    /// The scale: 6, 9, 12 or 15.
    pub scale: u32,
    /// The effective focal length.
    pub efl: Step<Span>,
    /// The back focal length, from the last vertex before the image.
    pub bfl: Step<Span>,
    /// The front focal length, from vertex 1.
    pub ffl: Step<Span>,
    /// The front principal point, from vertex 1.
    pub front: Step<Span>,
    /// The back principal point, from the last vertex before the image.
    pub back: Step<Span>,
    /// The entrance pupil, from vertex 1.
    pub enp: Step<Span>,
    /// The height and the slope of the asked ray, at each surface from 1 on.
    pub trail: ArrayVec<(Step<Span>, Step<Span>), 64>,
}

impl FirstOut {
    /// The same values, copied without taking memory.
    pub fn copy(&self) -> FirstOut
        ensures { result ≡ self.now }
    {
        let mut trail: ArrayVec<(Step<Span>, Step<Span>), 64> = ArrayVec::new();
        let _ = trail.try_extend_from_slice(self.trail.as_slice());
        FirstOut {
            scale: self.scale,
            efl: self.efl,
            bfl: self.bfl,
            ffl: self.ffl,
            front: self.front,
            back: self.back,
            enp: self.enp,
            trail,
        }
    }
}

/// The five Seidel sums: spherical aberration, coma, astigmatism, Petzval curvature, distortion.
#[derive(Clone, Copy, Debug, PartialEq, Eq, Default)]
pub struct Five {
    /// Spherical aberration.
    pub s1: Step<Span>,
    /// Coma.
    pub s2: Step<Span>,
    /// Astigmatism.
    pub s3: Step<Span>,
    /// Petzval curvature.
    pub s4: Step<Span>,
    /// Distortion.
    pub s5: Step<Span>,
}

/// Seidel sums of each surface and of the whole lens, at one scale.
#[derive(Debug, PartialEq, Eq, Drop)]
pub struct SeidelOut {
    /// The scale: 6, 9, 12 or 15.
    pub scale: u32,
    /// The sums of each surface from 1 to the one before the image.
    pub per: ArrayVec<Five, 64>,
    /// The sums of the whole lens.
    pub whole: Five,
}

impl SeidelOut {
    /// The same sums, copied without taking memory.
    pub fn copy(&self) -> SeidelOut
        ensures { result ≡ self.now }
    {
        let mut per: ArrayVec<Five, 64> = ArrayVec::new();
        let _ = per.try_extend_from_slice(self.per.as_slice());
        SeidelOut {
            scale: self.scale,
            per,
            whole: self.whole,
        }
    }
}
