// Numbers in a row.
ghost use Rattle.std.specs.Prelude.{◌≡◌, ◌-◌, ◌≤◌, IfOk};
ghost use Rattle.std.specs.List.{range_with_len};

use std::alloc::{AllocError, Global};

/// The numbers from `first` on that are below `end`.
pub fn numbers_between(alloc: Global, first: u32, end: u32) -> Result<Vec<u32>, AllocError>
    requires { first ≤ end }
    ensures { IfOk result (λ numbers. numbers.items ≡ range_with_len first (end - first)) }
{
    let mut numbers = Vec::with_capacity(alloc, (end - first) as usize)?;
    for number in first..end {
        numbers.push(number)?;
    }
    Ok(numbers)
}
