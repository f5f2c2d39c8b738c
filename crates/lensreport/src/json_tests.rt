//! Lines of rays as JSON, with texts written by hand.

use crate::json::json_row;
use arrayvec::ArrayVec;
use fixdec::span::Span;
use fixdec::step::Why;
use lensmodel::row::{Heading, Place, Row, Word};
use serde_json::Value;
use std::str;
use std::test::Fail;

/// A place at scale 6, with a direction.
fn place() -> Place {
    let heading = Heading {
        l: Span { lo: 0, hi: 1 },
        m: Span {
            lo: -100_000,
            hi: 100_000,
        },
        n: Span {
            lo: 900_000,
            hi: 1_000_000,
        },
    };
    Place {
        rho: Span { lo: 0, hi: 250_000 },
        x: Span {
            lo: -500_000,
            hi: 500_000,
        },
        y: Span { lo: 0, hi: 0 },
        z: Span { lo: 1, hi: 2 },
        path: Span {
            lo: 12_000_000,
            hi: 12_000_001,
        },
        heading: Some(heading),
    }
}

#[test]
fn passes(rt: HostRuntime) -> Result<(), Fail> {
    let mut places: ArrayVec<Place, 64> = ArrayVec::new();
    places.push(place());
    places.push(Place::default());
    let row = Row {
        scale: 6,
        word: Word::Passes,
        places,
    };
    let line = json_row(rt.alloc(), 3, &row)?;
    assert_eq!(rt;
        str::from_utf8(&line)?,
        "{\"ray\":3,\"scale\":6,\"surfaces\":[{\"L\":[\"0.000000\",\"0.000001\"],\"M\":[\"-0.100000\",\"0.100000\"],\"N\":[\"0.900000\",\"1.000000\"],\"path\":[\"12.000000\",\"12.000001\"],\"rho\":[\"0.000000\",\"0.250000\"],\"x\":[\"-0.500000\",\"0.500000\"],\"y\":[\"0.000000\",\"0.000000\"],\"z\":[\"0.000001\",\"0.000002\"]},{\"path\":[\"0.000000\",\"0.000000\"],\"rho\":[\"0.000000\",\"0.000000\"],\"x\":[\"0.000000\",\"0.000000\"],\"y\":[\"0.000000\",\"0.000000\"],\"z\":[\"0.000000\",\"0.000000\"]}],\"word\":\"passes\"}\n"
    );
    Ok(())
}

#[test]
fn undecided(rt: HostRuntime) -> Result<(), Fail> {
    let rho = Span {
        lo: 24_999_999,
        hi: 25_000_001,
    };
    let rim2 = Span {
        lo: 25_000_000,
        hi: 25_000_000,
    };
    let row = Row {
        scale: 6,
        word: Word::Undecided(2, rho, rim2),
        places: ArrayVec::new(),
    };
    let line = json_row(rt.alloc(), 10, &row)?;
    assert_eq!(rt;
        str::from_utf8(&line)?,
        "{\"at\":2,\"ray\":10,\"rho\":[\"24.999999\",\"25.000001\"],\"rim2\":[\"25.000000\",\"25.000000\"],\"scale\":6,\"surfaces\":[],\"word\":\"undecided\"}\n"
    );
    Ok(())
}

#[test]
fn lost(rt: HostRuntime) -> Result<(), Fail> {
    let row = Row {
        scale: 15,
        word: Word::Lost(1, Why::Root),
        places: ArrayVec::new(),
    };
    let line = json_row(rt.alloc(), 1, &row)?;
    assert_eq!(rt;
        str::from_utf8(&line)?,
        "{\"at\":1,\"ray\":1,\"scale\":15,\"surfaces\":[],\"why\":\"root\",\"word\":\"lost\"}\n"
    );
    Ok(())
}

#[test]
fn reads_back(rt: HostRuntime) -> Result<(), Fail> {
    let mut places: ArrayVec<Place, 64> = ArrayVec::new();
    places.push(place());
    let row = Row {
        scale: 6,
        word: Word::Wide,
        places,
    };
    let line = json_row(rt.alloc(), 7, &row)?;
    let value = Value::from_str(rt.alloc(), str::from_utf8(&line)?)?;
    assert_eq!(rt; value.get("ray").and_then(Value::as_u64), Some(7));
    let low = value.pointer("/surfaces/0/M/0").and_then(Value::as_str);
    assert_eq!(rt; low.ok_or("no end")?, "-0.100000");
    Ok(())
}
