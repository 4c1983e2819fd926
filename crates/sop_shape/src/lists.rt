//! Lists made from lists of numbers.
ghost use Rattle.std.specs.Prelude.{◌≡◌, ◌<◌, ◌^◌, ◌++◌, ◌∷◌, [], if◌then◌else◌, ℕ, length, All, IfOk, OnOk};
ghost use Rattle.std.specs.List.{range_with_len};
ghost use Rattle.sop_model.specs.Rows.{picked, place_in, IsOrderOf};
ghost use Rattle.sop_model.specs.Sweep.{is_marked, kept};
ghost use Rattle.sop_shape.specs.Tests.{AreCounts, number_at};

use std::alloc::{AllocError, Global};

/// The items at these places.
pub(crate) fn pick<T: Copy>(
    alloc: Global,
    items: &[T],
    places: &[u32],
) -> Result<Vec<T>, AllocError>
    requires { All (λ n. n < length items.now) places.now }
    ensures { IfOk result (λ made. (d : T) → made.items ≡ picked items.now d places.now) }
{
    let mut made = Vec::with_capacity(alloc, places.len())?;
    for place in places {
        made.push(items[*place as usize])?;
    }
    Ok(made)
}

/// For each number the place where it stands in an order.
pub(crate) fn places_in(alloc: Global, perm: &[u32]) -> Result<Vec<u32>, AllocError>
    requires order { IsOrderOf (length perm.now) perm.now }
    requires few { length perm.now < 2 ^ 32 }
    ensures long { IfOk result (λ places. length places.items ≡ length perm.now) }
    ensures each { IfOk result (λ places. (n : ℕ) → n < length perm.now → number_at places.items n ≡ place_in perm.now n) }
{
    let mut places = vec![in alloc; 0; perm.len()]?;
    let mut left = perm.len();
    while left > 0 {
        left -= 1;
        places[perm[left] as usize] = left as u32;
    }
    Ok(places)
}

/// The places of the flags that are set, in order.
pub(crate) fn set_places(alloc: Global, flags: &[bool]) -> Result<Vec<u32>, AllocError>
    requires { length flags.now < 2 ^ 32 }
    ensures { IfOk result (λ places. places.items ≡ kept (is_marked flags.now) 0 (range_with_len 0 (length flags.now))) }
{
    let mut places = Vec::new(alloc);
    for (place, flag) in flags.iter().enumerate() {
        push_if(&mut places, place as u32, *flag)?;
    }
    Ok(places)
}

/// Puts a number behind others, where this is told.
fn push_if(numbers: &mut Vec<u32>, number: u32, on: bool) -> Result<(), AllocError>
    ensures { OnOk result (numbers.new.items ≡ numbers.old.items ++ (if on then number ∷ [] else [])) }
{
    if on {
        numbers.push(number)?;
    }
    Ok(())
}

/// How many flags are set before each place, and before the end.
pub(crate) fn counts_before(alloc: Global, flags: &[bool]) -> Result<Vec<u32>, AllocError>
    requires { length flags.now < 2 ^ 32 }
    ensures { IfOk result (λ counts. AreCounts flags.now counts.items) }
{
    let mut counts = Vec::with_capacity(alloc, flags.len() + 1)?;
    let mut count = 0;
    counts.push(count)?;
    for flag in flags {
        count += one_if(*flag);
        counts.push(count)?;
    }
    Ok(counts)
}

/// One where this is told, else none.
fn one_if(on: bool) -> u32
    ensures { result ≡ (if on then 1 else 0) }
{
    if on { 1 } else { 0 }
}
