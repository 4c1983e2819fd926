//! A table of two elements, one of which enters a group.
use crate::Table;
use sop_cells::Shelf;
use sop_columns::Names;
use sop_model::HeadSet;
use sop_outside::Text;
use std::test::Fail;

#[test]
fn one_enters_a_group(rt: HostRuntime) -> Result<(), Fail> {
    let mut shelf = Shelf::new(rt.alloc());
    let mut names = Names::new(rt.alloc());
    let set = HeadSet::position(rt.alloc())?;
    let mut table = Table::new(rt.alloc(), set, 2, &mut shelf, &mut names)?;
    table.add_group(Text::from_str(rt.alloc(), "g")?)?;
    table.set_member(0, 1, true, &mut shelf, &names)?;
    assert!(rt; !table.member(&shelf, &names, 0, 0));
    assert!(rt; table.member(&shelf, &names, 0, 1));
    table.release(&mut shelf);
    assert_eq!(rt; shelf.pages(), 0);
    Ok(())
}
