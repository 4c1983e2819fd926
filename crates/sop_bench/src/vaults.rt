// What is done with geometries in a vault.
ghost use Rattle.std.specs.Prelude.{◌≡◌, ◌≢◌, ℕ, ◌<◌, ◌≤◌, None, IfOk, IfSome, IsSomeAnd, IsPermutation};
ghost use Rattle.std.specs.List.{range_with_len};
ghost use Rattle.sop_model.specs.Geometry.{IsReadable};
ghost use Rattle.sop_model.specs.Limits.{most_points};
ghost use Rattle.sop_model.specs.Sweep.{AreMarksOf};
ghost use Rattle.sop_vault.specs.Keyed.{at, IsLive};
ghost use Rattle.sop_bench.specs.Vaults.{HasPlaces, Makes};

use crate::checksum::added;
use crate::grids::{grid, place_points, with_points, with_quads};
use crate::numbers::Numbers;
use crate::reads::sum_of_reads;
use sop_model::limits::MOST_POINTS;
use sop_model::{Class, GeoView};
use sop_rows::Marks;
use sop_sheets::GeoRef;
use sop_vault::{GeoKey, Vault};
use std::alloc::{AllocError, Global};

/// How often each point is set again, so that little but these sets is timed.
const ROUNDS: u32 = 20;

/// How often a geometry is shared and dropped.
const SHARES: u32 = 1000;

/// How often two geometries are merged and what comes is dropped.
const MERGES: u32 = 20;

/// What a run makes in a vault. A grid has points at places of their own and as many quads.
#[derive(Clone, Copy)]
pub enum Making {
    /// Points.
    Points,
    /// Points and quads.
    Quads,
    /// A grid.
    Grid,
    /// Two grids.
    Grids,
    /// Two grids that are merged into a third one again and again.
    Merged,
    /// A grid that is shared and dropped again and again.
    Shared,
    /// Points that are set.
    Set,
    /// Points that are set again and again.
    SetAgain,
    /// A grid without every second point.
    Kept,
    /// A grid whose points have another order.
    Reordered,
}

impl Making {
    fn make(self, alloc: Global, vault: &mut Vault<'_>, size: u32) -> Option<GeoKey>
        requires some { 0 < size }
        requires few { size ≤ most_points }
        ensures { IfSome result (λ key. IsLive vault.new.geos key) }
    {
        match self {
            Making::Points => with_points(vault, size),
            Making::Quads => with_quads(vault, size),
            Making::Grid => grid(vault, size),
            Making::Grids => Some(grids(vault, size)?.0),
            Making::Merged => merged_again(vault, size),
            Making::Shared => shared(vault, size),
            Making::Set => set(vault, size, 1),
            Making::SetAgain => set(vault, size, ROUNDS),
            Making::Kept => kept(alloc, vault, size),
            Making::Reordered => reordered(alloc, vault, size),
        }
    }
}

/// A checksum of a geometry of `size` points, at least 1 and at most 1,000,000, or of two together; none where memory runs out.
pub fn sum_of_making(alloc: Global, making: Making, size: u32) -> Option<u64> {
    let mut vault = Vault::new(alloc);
    let key = making.make(alloc, &mut vault, size.clamp(1, MOST_POINTS as u32))?;
    Some(sum_of_reads(&vault.view(key)))
}

/// What is told of a grid that is shared, and each of whose points is set then.
#[derive(Clone, Copy)]
pub enum Telling {
    /// A checksum.
    Sum,
    /// How many pages the sets added.
    Pages,
}

/// What is asked of such a grid of `size` points, at least 1 and at most 1,000,000; none where memory runs out.
pub fn sum_of_shared_sets(alloc: Global, telling: Telling, size: u32) -> Option<u64> {
    let mut vault = Vault::new(alloc);
    let points = size.clamp(1, MOST_POINTS as u32);
    let key = grid(&mut vault, points)?;
    let before = vault.pages();
    let copy = share_and_set(&mut vault, key, points)?;
    let pages = vault.pages().saturating_sub(before);
    Some(match telling {
        Telling::Sum => added(sum_of_reads(&vault.view(copy)), pages),
        Telling::Pages => pages,
    })
}

fn share_and_set(vault: &mut Vault<'_>, key: GeoKey, points: u32) -> Option<GeoKey>
    requires { IsSomeAnd (at vault.old.geos key) (HasPlaces points) }
    ensures { IfSome result (λ key. IsLive vault.new.geos key) }
{
    let copy = vault.share(key).ok()?;
    place_points(vault, copy, points, 1)?;
    Some(copy)
}

/// Points, each of which is set in each round.
fn set(vault: &mut Vault<'_>, points: u32, rounds: u32) -> Option<GeoKey>
    ensures { IfSome result (λ key. IsLive vault.new.geos key) }
{
    let key = with_points(vault, points)?;
    for round in 0..rounds {
        place_points(vault, key, points, round)?;
    }
    Some(key)
}

fn shared(vault: &mut Vault<'_>, points: u32) -> Option<GeoKey>
    requires { points ≤ most_points }
    ensures { IfSome result (λ key. IsLive vault.new.geos key) }
{
    let key = grid(vault, points)?;
    for _ in 0..SHARES {
        share_once(vault, key)?;
    }
    Some(key)
}

fn share_once(vault: &mut Vault<'_>, key: GeoKey) -> Option<()>
    requires { IsLive vault.old.geos key }
    ensures { IfSome result (λ done. IsLive vault.new.geos key) }
{
    let copy = vault.share(key).ok()?;
    vault.drop_geo(copy);
    Some(())
}

fn grids(vault: &mut Vault<'_>, points: u32) -> Option<(GeoKey, GeoKey)>
    requires { points ≤ most_points }
    ensures first { IfSome result (λ keys. IsLive vault.new.geos keys.0) }
    ensures second { IfSome result (λ keys. IsLive vault.new.geos keys.1) }
{
    let first = grid(vault, points)?;
    let second = grid(vault, points)?;
    Some((first, second))
}

fn merged_again(vault: &mut Vault<'_>, points: u32) -> Option<GeoKey>
    requires { points ≤ most_points }
    ensures { IfSome result (λ key. IsLive vault.new.geos key) }
{
    let (first, second) = grids(vault, points)?;
    for _ in 0..MERGES {
        merge_and_drop(vault, first, second)?;
    }
    merged(vault, first, second)
}

fn merge_and_drop(vault: &mut Vault<'_>, first: GeoKey, second: GeoKey) -> Option<()>
    requires first { IsLive vault.old.geos first }
    requires second { IsLive vault.old.geos second }
    ensures first { IfSome result (λ done. IsLive vault.new.geos first) }
    ensures second { IfSome result (λ done. IsLive vault.new.geos second) }
{
    let both = merged(vault, first, second)?;
    vault.drop_geo(both);
    Some(())
}

/// A new key of the second geometry behind the first.
fn merged(vault: &mut Vault<'_>, first: GeoKey, second: GeoKey) -> Option<GeoKey>
    requires first { IsLive vault.old.geos first }
    requires second { IsLive vault.old.geos second }
    ensures free { IfSome result (λ key. at vault.old.geos key ≡ None) }
    ensures live { IfSome result (λ key. IsLive vault.new.geos key) }
    ensures others { IfSome result (λ key. (other : ℕ) → other ≢ key → at vault.new.geos other ≡ at vault.old.geos other) }
{
    let both = vault.share(first).ok()?;
    vault.append(both, second).ok()?;
    Some(both)
}

fn kept(alloc: Global, vault: &mut Vault<'_>, points: u32) -> Option<GeoKey>
    requires { points ≤ most_points }
    ensures { IfSome result (λ key. IsLive vault.new.geos key) }
{
    let key = grid(vault, points)?;
    let marks = every_second(alloc, &vault.view(key))?;
    vault.keep(key, &marks).ok()?;
    Some(key)
}

/// Marks on every second point, from point 1 on.
fn every_second(alloc: Global, view: &GeoRef<'_>) -> Option<Marks>
    requires { IsReadable view.now }
    ensures { IfSome result (λ marks. AreMarksOf view.now marks) }
{
    let mut marks = Marks::for_view(alloc, view).ok()?;
    for pair in 0..view.count(Class::Point) / 2 {
        marks.mark_point(2 * pair + 1);
    }
    Some(marks)
}

fn reordered(alloc: Global, vault: &mut Vault<'_>, points: u32) -> Option<GeoKey>
    requires { points ≤ most_points }
    ensures { IfSome result (λ key. IsLive vault.new.geos key) }
{
    let key = grid(vault, points)?;
    let order = random_order(alloc, points).ok()?;
    vault.reorder(key, Class::Point, &order).ok()?;
    Some(key)
}

/// The numbers from 0 to before `count`, at random places.
fn random_order(alloc: Global, count: u32) -> Result<Vec<u32>, AllocError>
    ensures { IfOk result (λ order. IsPermutation (range_with_len 0 count) order.items) }
{
    let mut numbers = Numbers::new();
    let mut order = numbers_below(alloc, count)?;
    for place in 0..count {
        order.swap(place as usize, numbers.index_below(count) as usize);
    }
    Ok(order)
}

fn numbers_below(alloc: Global, count: u32) -> Result<Vec<u32>, AllocError>
    ensures { IfOk result (λ numbers. numbers.items ≡ range_with_len 0 count) }
{
    (0..count).collect(alloc)
}
