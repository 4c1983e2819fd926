// The rows by their names.
use crate::geometry::sum_of_points;
use crate::jobs::sum_of_jobs;
use crate::neighbors::{Search, sum_of_neighbors};
use crate::operations::{Operation, checksum};
use crate::pages::{sum_of_copies, sum_of_sets};
use crate::patterns::{Growing, Holding, sum_of_matches, sum_of_selections};
use crate::tokens::{Filling, sum_of_tokens};
use crate::vaults::{Making, Telling, sum_of_making, sum_of_shared_sets};
use std::alloc::Global;
use std::thread::Threads;

/// A row of a measurement: what a run does.
#[derive(Clone, Copy)]
pub enum Row {
    /// Nothing, for the time of an empty run.
    Nothing,
    /// Operations on numbers.
    Numbers(Operation),
    /// Equal jobs by workers.
    Gather,
    /// Tokens of a text.
    Tokens(Filling),
    /// Cells that are set in pages of one place each.
    SetCells,
    /// Pages that are copied by the first write.
    CopyPages,
    /// A geometry of points.
    MakePoints,
    /// Points that a pattern selects.
    Select(Holding),
    /// A pattern that is matched with a name.
    Match(Growing),
    /// The points near each point.
    FindNeighbors(Search),
    /// A geometry in a vault.
    Make(Making),
    /// A geometry in a vault that is shared, and each of whose points is set then.
    SetShared(Telling),
}

/// Each row's name.
const ROWS: [(&str, Row); 36] = [
    ("none", Row::Nothing),
    ("mul", Row::Numbers(Operation::Mul)),
    ("div", Row::Numbers(Operation::Div)),
    ("rem", Row::Numbers(Operation::Rem)),
    ("sqrt", Row::Numbers(Operation::Sqrt)),
    ("length", Row::Numbers(Operation::Length)),
    ("gather", Row::Gather),
    ("tokens-quotes", Row::Tokens(Filling::Quotes)),
    ("tokens-slashes", Row::Tokens(Filling::Slashes)),
    ("tokens-digits", Row::Tokens(Filling::Digits)),
    ("tokens-pluses", Row::Tokens(Filling::Pluses)),
    ("tokens-letters", Row::Tokens(Filling::Letters)),
    ("tokens-spaces", Row::Tokens(Filling::Spaces)),
    ("pages-set", Row::SetCells),
    ("pages-copy", Row::CopyPages),
    ("points", Row::MakePoints),
    ("select-thousandth", Row::Select(Holding::EachThousandth)),
    ("select-second", Row::Select(Holding::EachSecond)),
    ("select-all", Row::Select(Holding::All)),
    ("wildcard-name", Row::Match(Growing::Name)),
    ("wildcard-pattern", Row::Match(Growing::Pattern)),
    ("wildcard-stars", Row::Match(Growing::Stars)),
    ("near", Row::FindNeighbors(Search::Cells)),
    ("near-scan", Row::FindNeighbors(Search::Scan)),
    ("vault-points", Row::Make(Making::Points)),
    ("vault-quads", Row::Make(Making::Quads)),
    ("vault-grid", Row::Make(Making::Grid)),
    ("vault-grids", Row::Make(Making::Grids)),
    ("vault-append", Row::Make(Making::Merged)),
    ("vault-share", Row::Make(Making::Shared)),
    ("vault-set", Row::Make(Making::Set)),
    ("vault-set-again", Row::Make(Making::SetAgain)),
    ("vault-set-shared", Row::SetShared(Telling::Sum)),
    ("vault-set-pages", Row::SetShared(Telling::Pages)),
    ("vault-keep", Row::Make(Making::Kept)),
    ("vault-reorder", Row::Make(Making::Reordered)),
];

impl Row {
    /// The row of this name.
    pub fn named(name: &str) -> Option<Row> {
        for (known, row) in &ROWS {
            if *known == name {
                return Some(*row);
            }
        }
        None
    }

    /// The checksum of a run, or none where memory or a number's range doesn't suffice.
    pub fn run<R: Threads + Sync>(self, rt: &R, alloc: Global, size: u32) -> Option<u64> {
        match self {
            Row::Nothing => Some(0),
            Row::Numbers(operation) => checksum(operation, size).ok(),
            Row::Gather => sum_of_jobs(rt, alloc, size),
            Row::Tokens(filling) => sum_of_tokens(alloc, filling, size),
            Row::SetCells => sum_of_sets(alloc, size),
            Row::CopyPages => sum_of_copies(alloc, size),
            Row::MakePoints => sum_of_points(alloc, size),
            Row::Select(holding) => sum_of_selections(alloc, holding, size),
            Row::Match(growing) => sum_of_matches(alloc, growing, size),
            Row::FindNeighbors(search) => sum_of_neighbors(alloc, search, size),
            Row::Make(making) => sum_of_making(alloc, making, size),
            Row::SetShared(telling) => sum_of_shared_sets(alloc, telling, size),
        }
    }
}
