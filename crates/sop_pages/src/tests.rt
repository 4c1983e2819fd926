use crate::{Cell, MOST_CELLS, Page, PageList, PageStore};
use sop_fixed::{Int, Real, Vec3};
use std::test::Fail;

#[test]
fn pages_hold_cells(rt: HostRuntime) -> Result<(), Fail> {
    let half = Real::of_millionths(500_000).expect(&rt, "in range");
    let (x, y, z) = (half, half, half);
    let seven = Cell::Int(Int::of(7).expect(&rt, "in range"));
    let real = Cell::Real(half);
    let vector = Cell::Vector(Vec3 { x, y, z });
    let mut page = Page::filled(rt.alloc(), seven, MOST_CELLS)?;
    page.put(0, vector);
    page.put_run(1022, &[Cell::Many(3), Cell::Name(4)]);
    assert_eq!(rt; page.len(), MOST_CELLS);
    assert_eq!(rt; page.get(0), vector);
    assert_eq!(rt; page.get(1021), seven);
    assert_eq!(rt; page.get(1023), Cell::Name(4));
    page.put(0, real);
    page.shorten(2);
    page.lengthen(&[Cell::Many(5)])?;
    let same = Page::from_vec(page.into_vec());
    assert_eq!(rt; same.len(), 3);
    assert_eq!(rt; same.get(0), real);
    assert_eq!(rt; same.get(2), Cell::Many(5));
    Ok(())
}

#[test]
fn a_shared_page_is_copied_once(rt: HostRuntime) -> Result<(), Fail> {
    let mut store = PageStore::new(rt.alloc());
    let page = Page::filled(rt.alloc(), Cell::Name(5), 3)?;
    let id = store.put(page).map_err(|(_, error)| error)?;
    store.share(id);
    assert_eq!(rt; store.pages(), 1);
    let own = store.set(id, 0, Cell::Name(6))?;
    assert!(rt; own != id);
    assert_eq!(rt; store.pages(), 2);
    assert_eq!(rt; store.cell(id, 0), Cell::Name(5));
    assert!(rt; store.set_run(own, 1, &[Cell::Many(7)])? == own);
    assert!(rt; store.lengthen(own, &[Cell::Name(8), Cell::Name(9)])? == own);
    assert!(rt; store.shorten(own, 4)? == own);
    let page = store.take(own);
    assert!(rt;
        page.cells() == [Cell::Name(6), Cell::Many(7), Cell::Name(5), Cell::Name(8)].as_slice()
    );
    let copy = store.copy(id)?;
    assert!(rt; copy.cells() == store.cells(id));
    store.release(id);
    assert_eq!(rt; store.pages(), 0);
    let mut pages = PageList::new(rt.alloc());
    pages.add(copy)?;
    pages.add(page)?;
    let ids = store.put_all(pages).map_err(|(_, error)| error)?;
    assert_eq!(rt; ids.len(), 2);
    assert_eq!(rt; store.pages(), 2);
    Ok(())
}
