//! A column of flags, held twice.
use crate::BitColumn;
use sop_cells::Shelf;
use std::test::Fail;

#[test]
fn flags_of_a_copy(rt: HostRuntime) -> Result<(), Fail> {
    let mut shelf = Shelf::new(rt.alloc());
    let mut flags = BitColumn::empty(rt.alloc());
    flags.set(&mut shelf, 1, true)?;
    let copy = flags.copy()?;
    copy.hold(&mut shelf);
    assert!(rt; !flags.get(&shelf, 0));
    assert!(rt; flags.get(&shelf, 1));
    assert!(rt; !copy.get(&shelf, 0));
    assert!(rt; copy.get(&shelf, 1));
    Ok(())
}
