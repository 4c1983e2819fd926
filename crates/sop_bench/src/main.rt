//! Runs one row of a measurement: the words ROW SIZE print a checksum of what it computed.
//!
//! - `none` does nothing, for the time of an empty run.
//! - `mul`, `div`, `rem`, `sqrt` and `length` do SIZE operations on numbers.
//! - `gather` runs a thousand equal jobs by SIZE workers, at least 1 and at most 64.
//! - `tokens-quotes`, `tokens-slashes`, `tokens-digits`, `tokens-pluses`, `tokens-letters` and `tokens-spaces` cut a text
//!   of SIZE such bytes into tokens, again and again.
//! - `pages-set` sets SIZE cells of pages that one place holds, 20 times each; `pages-copy` writes SIZE times into a page
//!   that two places hold.
//! - `points` makes a geometry of SIZE points, the same one as the rows `select-..` and `near..` make.
//! - `select-thousandth`, `select-second` and `select-all` select points by a pattern, again and again.
//! - `wildcard-name` matches a pattern with a name of SIZE bytes, `wildcard-pattern` a pattern of SIZE bytes with a name, and
//!   `wildcard-stars` a pattern of many stars with a name, both of SIZE bytes, again and again.
//! - `near` finds the points near each of the points, and `near-scan` does so by a look at all of them.
//! - `vault-points` makes a geometry of SIZE points in a vault, `vault-quads` one of SIZE points and SIZE quads, `vault-grid`
//!   a grid, whose points have places of their own besides, and `vault-grids` two of them.
//! - `vault-append` merges two grids into a third one, 21 times; `vault-share` shares a grid and drops the copy, 1,000 times;
//!   `vault-keep` takes every second point of one away, and `vault-reorder` puts the points of one in a random order.
//! - `vault-set` makes SIZE points and sets the place of each, and `vault-set-again` does so 20 times. `vault-set-shared` shares
//!   a grid and sets the place of each of the copy's points, and `vault-set-pages` prints how many pages that adds.
//!
//! It reads no clock: it is timed from outside. The status is 2 where the words have another form, and 1 where there is no
//! result.
#![tactic(auto)]

mod checksum;
mod geometry;
mod grids;
mod jobs;
mod neighbors;
mod numbers;
mod operations;
mod pages;
mod patterns;
mod reads;
mod row;
mod tokens;
mod vaults;

use row::Row;
use std::process::ExitCode;
use std::rt::Env;
use std::{env, io};

/// The row and the size that the words ask for, or none where they have another form.
fn request<E: Env + Alloc>(rt: &E) -> io::Result<Option<(Row, u32)>> {
    let mut words = env::args(rt)?.skip(1);
    let (Some(name), Some(size), None) = (words.next(), words.next(), words.next()) else {
        return Ok(None);
    };
    match (Row::named(name.as_str()), size.parse::<u32>()) {
        (Some(row), Ok(size)) => Ok(Some((row, size))),
        _ => Ok(None),
    }
}

fn main(rt: HostRuntime) -> io::Result<ExitCode> {
    let Some((row, size)) = request(&rt)? else {
        eprintln!(rt; "sop_bench: the words are ROW SIZE")?;
        return Ok(ExitCode::from(2));
    };
    let Some(sum) = row.run(&rt, rt.alloc(), size) else {
        eprintln!(rt; "sop_bench: no result")?;
        return Ok(ExitCode::FAILURE);
    };
    println!(rt; "{sum}")?;
    Ok(ExitCode::SUCCESS)
}
