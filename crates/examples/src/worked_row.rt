//! The row that is printed of a worked ray.

ghost use Rattle.std.specs.Prelude.{◌≡◌};
ghost use Rattle.lensmodel.specs.Claims.RowClaims.{RowHolds};
ghost use Rattle.examples.specs.Worked.{plane_setup, slanted_ray};
ghost use Rattle.examples.specs.WorkedRow.{slanted_row};

use arrayvec::ArrayVec;
use fixdec::span::Span;
use lensmodel::row::{Heading, Place, Row, Word};

/// The row that is printed of the slanted ray: its intervals hold every chain, and its word holds.
pub fn slanted_plane_row() -> Row
    ensures row { result ≡ slanted_row }
    ensures holds { RowHolds plane_setup slanted_ray result }
{
    let vertex = Place {
        rho: Span { lo: 0, hi: 2 },
        x: Span { lo: -3, hi: 3 },
        y: Span { lo: -3, hi: 3 },
        z: Span { lo: -1, hi: 1 },
        path: Span { lo: -4, hi: 4 },
        heading: Some(Heading {
            l: Span { lo: -1, hi: 1 },
            m: Span {
                lo: 599_998,
                hi: 600_002,
            },
            n: Span {
                lo: 799_999,
                hi: 800_001,
            },
        }),
    };
    let image = Place {
        rho: Span {
            lo: 8_999_862,
            hi: 9_000_140,
        },
        x: Span { lo: -14, hi: 14 },
        y: Span {
            lo: 2_999_977,
            hi: 3_000_023,
        },
        z: Span { lo: -1, hi: 1 },
        path: Span {
            lo: 4_999_985,
            hi: 5_000_016,
        },
        heading: None,
    };
    let mut places: ArrayVec<Place, 64> = ArrayVec::new();
    places.push(vertex);
    places.push(image);
    Row {
        scale: 6,
        word: Word::Passes,
        places,
    }
}
