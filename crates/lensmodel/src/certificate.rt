//! Certificates made elsewhere, and what a check says of them.

use crate::fault::TextFault;
use fixdec::dec::Dec;
use fixdec::step::Why;
use std::marker::Model;
use thiserror::Error;

/// What a certificate claims of a ray.
#[derive(Clone, Copy, Debug, PartialEq, Eq)]
pub enum Claim {
    /// Every chain clears every rim.
    Passes,
    /// No chain clears the surface.
    Vignetted(u32),
    /// No chain reaches the surface.
    Outside(u32),
    /// No chain leaves the surface.
    Tir(u32),
    /// The places alone.
    Places,
}

/// The claimed intervals at one surface.
#[derive(Clone, Copy, Debug, PartialEq, Eq)]
pub struct CertPlace {
    /// The least and greatest rho, x, y, z and path, in this order.
    pub at: [Dec; 10],
    /// The least and greatest L, M and N of the heading, where one is claimed.
    pub to: Option<[Dec; 6]>,
}

/// The part of a certificate that speaks of one ray.
#[derive(Clone, Copy, Debug, PartialEq, Eq)]
pub struct RayCert {
    /// The number of the ray in the job, counted from 1.
    pub ray: u32,
    /// What is claimed.
    pub claim: Claim,
    /// The number of the ray's first place among all places.
    pub first: u32,
    /// How many places the ray has.
    pub count: u32,
}

/// A certificate.
#[derive(Debug, Drop)]
pub struct Cert {
    /// The scale: 6, 9, 12 or 15.
    pub scale: u32,
    /// The parts, in order.
    pub parts: Vec<RayCert>,
    /// The places of all parts, in order.
    pub places: Vec<CertPlace>,
}

impl Model for Cert {
    ghost use Rattle.lensmodel.specs.Files.CertValue.{CertValue};

    ghost Value = { CertValue };

    ghost view = { λ c. record { scale = c.scale; parts = c.parts.items; places = c.places.items } };
}

/// Why a claim is not shown at a surface.
#[derive(Clone, Copy, Debug, PartialEq, Eq)]
pub enum Cause {
    /// The arithmetic is lost, and why.
    Lost(Why),
    /// No chain goes on.
    Empty,
    /// A chain may cross though none is claimed to.
    Crossing,
    /// A chain may leave though none is claimed to.
    Bending,
    /// The rim isn't cleared, or isn't missed, as claimed.
    Rim,
    /// A value leaves its claimed interval: rho, x, y, z, path, L, M or N, counted from 0.
    Name(u32),
}

/// What the check of one part answers.
#[derive(Clone, Copy, Debug, PartialEq, Eq)]
pub enum Verdict {
    /// The claim holds.
    Yes,
    /// The claim is not shown: the surface and the cause.
    No(u32, Cause),
}

/// Why a certificate is refused.
#[derive(Clone, Copy, Debug, PartialEq, Eq, Drop, Error)]
pub enum CertFault {
    /// The text itself is at fault.
    #[error("{0}")]
    Text(TextFault),
    /// Other words, or another count of them.
    #[error("line {line}: word")]
    Word { line: u32 },
    /// A word is no number of the form that its place needs.
    #[error("line {line}: bad number")]
    BadNumber { line: u32 },
    /// The ray is not above the one before, or not one of the job.
    #[error("line {line}: no ray")]
    NoRay { line: u32 },
    /// A least end is above its greatest.
    #[error("line {line}: order")]
    Order { line: u32 },
    /// An end passes the greatest number that is kept.
    #[error("line {line}: range")]
    Range { line: u32 },
    /// A line stands where another is due.
    #[error("line {line}: place")]
    Place { line: u32 },
    /// There was no memory.
    #[error("out of memory")]
    Memory,
}
