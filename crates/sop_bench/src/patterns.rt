// Patterns that select points, and patterns that are matched with a name.
ghost use Rattle.std.specs.Prelude.{◌<◌, ◌≤◌, length};
ghost use Rattle.sop_model.specs.Limits.{most_pattern_bytes};

use crate::checksum::added;
use crate::geometry::places;
use sop_model::{Class, Geo};
use sop_pattern::{Pattern, matches};
use std::alloc::Global;

/// How often points are selected, so that a run is long enough to be timed.
const SELECTIONS: u32 = 500;

/// The bytes of the pattern where the name grows.
const PATTERN: u32 = 512;

/// The most bytes of a pattern and of a name.
const LONGEST: u32 = 65_536;

/// What a pattern's word holds.
#[derive(Clone, Copy)]
pub enum Holding {
    /// Each thousandth point from 0 on.
    EachThousandth,
    /// Each second point from 0 on.
    EachSecond,
    /// All points.
    All,
}

impl Holding {
    fn word(self) -> &'static str
        ensures { length result.now ≤ most_pattern_bytes }
    {
        match self {
            Holding::EachThousandth => "0-999999:1000",
            Holding::EachSecond => "0-999999:2",
            Holding::All => "*",
        }
    }
}

/// How many of `size` points, at most 1,000,000, a word selects, asked 500 times; none where memory runs out.
pub fn sum_of_selections(alloc: Global, holding: Holding, size: u32) -> Option<u64> {
    let Ok(geo) = Geo::of_points(alloc, &places(alloc, size)?) else {
        return None;
    };
    let pattern = Pattern::read(alloc, holding.word()).ok()?;
    let mut sum = 0;
    let mut last = Vec::new(alloc);
    for time in 0..SELECTIONS {
        last = pattern.select(alloc, &geo, Class::Point).ok()?;
        sum = added(sum, u64::from(last.get(time as usize) == Some(&true)));
    }
    Some(added(sum, last.iter().filter(|flag| **flag).count() as u64))
}

/// A pattern of a star and letters `a` with a `b` behind them, and a name of letters `a` and another: what has as many
/// bytes as the size of the row.
#[derive(Clone, Copy)]
pub enum Growing {
    /// The name; the pattern has 512.
    Name,
    /// The pattern; the name has 65,536.
    Pattern,
    /// Both, with a star before each letter of the pattern.
    Stars,
}

impl Growing {
    fn pattern(self, alloc: Global, size: u32) -> Option<Vec<u8>> {
        match self {
            Growing::Name => with_stars(alloc, PATTERN, LONGEST),
            Growing::Pattern => with_stars(alloc, size, LONGEST),
            Growing::Stars => with_stars(alloc, size, 2),
        }
    }

    fn name(self, alloc: Global, size: u32) -> Option<Vec<u8>> {
        match self {
            Growing::Name | Growing::Stars => letters(alloc, size),
            Growing::Pattern => letters(alloc, LONGEST),
        }
    }

    /// How often they are matched, so that a run is long enough to be timed.
    fn calls(self) -> u32 {
        match self {
            Growing::Name | Growing::Pattern => 4,
            Growing::Stars => 100_000,
        }
    }
}

/// A checksum of whether a pattern matches a name, asked again and again; none where memory runs out. With one star a try of
/// almost the whole pattern begins at almost each byte of the name: the most work that two such lengths give. The name ends
/// with a `b` each second time, and is matched only then.
pub fn sum_of_matches(alloc: Global, growing: Growing, size: u32) -> Option<u64> {
    let pattern = growing.pattern(alloc, size)?;
    let mut name = growing.name(alloc, size)?;
    let mut sum = 0;
    for time in 0..growing.calls() {
        if let Some(last) = name.last_mut() {
            *last = if time % 2 == 0 { b'b' } else { b'c' };
        }
        sum = added(sum, u64::from(matches(&pattern, &name)) + 1);
    }
    Some(sum)
}

/// So many letters `a`, at most 65,536.
fn letters(alloc: Global, length: u32) -> Option<Vec<u8>> {
    vec![in alloc; b'a'; length.min(LONGEST) as usize].ok()
}

/// A `b` behind letters `a`, with a star in place of each letter whose place `apart` divides.
fn with_stars(alloc: Global, length: u32, apart: u32) -> Option<Vec<u8>>
    requires { 0 < apart }
{
    let mut pattern = letters(alloc, length.saturating_sub(1))?;
    for (i, b) in pattern.iter_mut().enumerate() {
        if i % apart as usize == 0 {
            *b = b'*';
        }
    }
    pattern.push(b'b').ok()?;
    Some(pattern)
}
