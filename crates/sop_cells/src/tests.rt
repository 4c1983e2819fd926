//! Calls on a shelf, each once.
use crate::{Cells, Shelf};
use sop_pages::Cell;
use std::test::Fail;

#[test]
fn a_column_grows(rt: HostRuntime) -> Result<(), Fail> {
    let mut shelf = Shelf::new(rt.alloc());
    let column = Cells::filled(rt.alloc(), Cell::Name(1), 1030, &mut shelf)?;
    let longer = column.extended(&mut shelf, Cell::Name(2), 1031)?;
    assert_eq!(rt; shelf.pages(), 3);
    assert_eq!(rt; longer.get(&shelf, 1029), Cell::Name(1));
    assert_eq!(rt; longer.get(&shelf, 1030), Cell::Name(2));
    let pages = longer
        .into_pages(1031, &mut shelf)
        .map_err(|(_, error)| error)?;
    assert_eq!(rt; pages.len(), 2);
    assert_eq!(rt; shelf.pages(), 2);
    Ok(())
}

#[test]
fn a_column_is_joined_to_itself(rt: HostRuntime) -> Result<(), Fail> {
    let mut shelf = Shelf::new(rt.alloc());
    let mut column = Cells::filled(rt.alloc(), Cell::Name(1), 1025, &mut shelf)?;
    column.set(&mut shelf, 1024, Cell::Name(2))?;
    let twice = column.appended(1024, &mut shelf, &column, 1025)?;
    assert_eq!(rt; shelf.pages(), 2);
    assert_eq!(rt; twice.get(&shelf, 1023), Cell::Name(1));
    assert_eq!(rt; twice.get(&shelf, 2048), Cell::Name(2));
    Ok(())
}

#[test]
fn cells_are_picked(rt: HostRuntime) -> Result<(), Fail> {
    let mut shelf = Shelf::new(rt.alloc());
    let mut column = Cells::filled(rt.alloc(), Cell::Name(1), 5, &mut shelf)?;
    column.set(&mut shelf, 4, Cell::Name(2))?;
    let picked = column.picked(&mut shelf, &[4, 0])?;
    assert_eq!(rt; picked.get(&shelf, 0), Cell::Name(2));
    assert_eq!(rt; picked.get(&shelf, 1), Cell::Name(1));
    Ok(())
}
