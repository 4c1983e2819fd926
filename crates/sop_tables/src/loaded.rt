//! The table of a class of a geometry that is read through a view.
ghost use Rattle.std.specs.Prelude.{◌≡◌, ◌+◌, ◌*◌, ◌<◌, ◌≤◌, [], false, length, take, drop, All, IfOk, OnOk, OnErr};
ghost use Rattle.sop_model.specs.declared.geo.Head.{Head as AnyHead};
ghost use Rattle.sop_model.specs.Geometry.{heads_of, rows_of, count_of, IsReadable};
ghost use Rattle.sop_model.specs.Rows.{column_of};
ghost use Rattle.sop_pages.specs.declared.page.TheConstants.{MOST_CELLS as most_cells};
ghost use Rattle.sop_cells.specs.Shelves.{joined, IsPaged, Shifts};
ghost use Rattle.sop_columns.specs.Names.{Grows};
ghost use Rattle.sop_columns.specs.Fitted.{StandsFor};
ghost use Rattle.sop_columns.specs.Bits.{flag, placed, AreBits, AreJoined};
ghost use Rattle.sop_tables.specs.Tables.{rows, IsTableMade, IsNoStep};
ghost use Rattle.sop_tables.specs.Changes.{IsNewColumn, AreNewColumns, IsNewMembers, AreNewMembers};
ghost use Rattle.sop_tables.specs.Loaded.{columns_of, is_member, members_of};

use crate::lots;
use crate::table::Table;
use sop_cells::Shelf;
use sop_columns::{BitColumn, Column, Names};
use sop_model::{Class, GeoView, Head, HeadList, HeadSet};
use sop_outside::{Text, TextList};
use sop_pages::{Cell, MOST_CELLS, Page, PageList};
use std::alloc::{AllocError, Global};

impl Table {
    /// The table of a class of a geometry that is read: its attributes, its groups and the rows of its elements. Other
    /// tables stay as they are. `Err` for want of memory: then only names may have come.
    pub fn of_view<V: GeoView>(
        alloc: Global,
        view: &V,
        class: Class,
        shelf: &mut Shelf<'_>,
        names: &mut Names,
    ) -> Result<Table, AllocError>
        requires readable { IsReadable (V.geo view.now) }
        ensures set { IfOk result (λ t. t.set ≡ heads_of (V.geo view.now) class) }
        ensures rows { IfOk result (λ t. rows shelf.new names.new t ≡ rows_of (V.geo view.now) class) }
        ensures made { IfOk result (IsTableMade shelf.old shelf.new names.old names.new) }
        ensures err { OnErr result (IsNoStep shelf.old shelf.new names.old names.new) }
    {
        let heads = heads_in(alloc, view, class)?;
        let groups = groups_in(alloc, view, class)?;
        let columns = columns_in(alloc, view, class, shelf, names)?;
        match members_in(alloc, view, class, shelf) {
            Ok(members) => Ok(Table {
                set: HeadSet { heads, groups },
                columns,
                members,
                count: view.count(class),
                alloc,
            }),
            Err(error) => {
                lots::release_columns(columns, shelf);
                Err(error)
            }
        }
    }
}

// The attributes of a class.
fn heads_in<V: GeoView>(alloc: Global, view: &V, class: Class) -> Result<HeadList, AllocError>
    requires { IsReadable (V.geo view.now) }
    ensures { IfOk result (λ heads. heads ≡ (heads_of (V.geo view.now) class).heads) }
{
    let count = view.heads(class);
    let mut heads = HeadList::new(alloc);
    for head in 0..count {
        let name = Text::from_str(alloc, view.head_name(class, head))?;
        let kind = view.head_kind(class, head);
        heads.add(Head { name, kind })?;
    }
    Ok(heads)
}

// The names of the groups of a class.
fn groups_in<V: GeoView>(alloc: Global, view: &V, class: Class) -> Result<TextList, AllocError>
    requires { IsReadable (V.geo view.now) }
    ensures { IfOk result (λ groups. groups ≡ (heads_of (V.geo view.now) class).groups) }
{
    let count = view.groups(class);
    let mut groups = TextList::new(alloc);
    for group in 0..count {
        groups.add(Text::from_str(alloc, view.group_name(class, group))?)?;
    }
    Ok(groups)
}

// A column for each attribute of a class. For want of memory none is left.
fn columns_in<V: GeoView>(
    alloc: Global,
    view: &V,
    class: Class,
    shelf: &mut Shelf<'_>,
    names: &mut Names,
) -> Result<Vec<Column>, AllocError>
    requires readable { IsReadable (V.geo view.now) }
    ensures made { IfOk result (λ made. AreNewColumns shelf.old shelf.new names.old names.new (count_of (V.geo view.now) class) (heads_of (V.geo view.now) class).heads
        (columns_of (V.geo view.now) class (length (heads_of (V.geo view.now) class).heads)) made.items) }
    ensures err { OnErr result (IsNoStep shelf.old shelf.new names.old names.new) }
{
    let heads = view.heads(class);
    let mut made = Vec::with_capacity(alloc, heads as usize)?;
    for head in 0..heads {
        match column_in(alloc, view, class, head, shelf, names) {
            Ok(column) => made.push_reserved(column),
            Err(error) => {
                lots::release_columns(made, shelf);
                return Err(error);
            }
        }
    }
    Ok(made)
}

// The column of an attribute.
fn column_in<V: GeoView>(
    alloc: Global,
    view: &V,
    class: Class,
    head: u32,
    shelf: &mut Shelf<'_>,
    names: &mut Names,
) -> Result<Column, AllocError>
    requires readable { IsReadable (V.geo view.now) }
    requires head { head < length (heads_of (V.geo view.now) class).heads }
    ensures made { (any : AnyHead) → IfOk result (IsNewColumn shelf.old shelf.new names.old names.new (count_of (V.geo view.now) class) any (column_of (V.geo view.now) class head)) }
    ensures err { OnErr result (IsNoStep shelf.old shelf.new names.old names.new) }
{
    let pages = pages_in(alloc, view, class, head, names)?;
    match Column::from_pages(alloc, pages, shelf) {
        Ok(column) => Ok(column),
        Err(_) => Err(AllocError),
    }
}

// The values of an attribute as pages, each but the last of 1,024 cells.
fn pages_in<V: GeoView>(
    alloc: Global,
    view: &V,
    class: Class,
    head: u32,
    names: &mut Names,
) -> Result<PageList, AllocError>
    requires readable { IsReadable (V.geo view.now) }
    requires head { head < length (heads_of (V.geo view.now) class).heads }
    ensures stands { IfOk result (λ pages. StandsFor names.new (joined pages) (column_of (V.geo view.now) class head)) }
    ensures paged { IfOk result IsPaged }
    ensures grows { Grows names.old names.new }
{
    let count = view.count(class);
    let mut pages = full_pages_in(alloc, view, class, head, count / MOST_CELLS, names)?;
    let start = MOST_CELLS * (count / MOST_CELLS);
    if start == count {
        return Ok(pages);
    }
    let cells = cells_in(alloc, view, class, head, start, count - start, names)?;
    pages.add(Page::from_vec(cells))?;
    Ok(pages)
}

// The first `count` pages of the values of an attribute, which are full.
fn full_pages_in<V: GeoView>(
    alloc: Global,
    view: &V,
    class: Class,
    head: u32,
    count: u32,
    names: &mut Names,
) -> Result<PageList, AllocError>
    requires readable { IsReadable (V.geo view.now) }
    requires head { head < length (heads_of (V.geo view.now) class).heads }
    requires within { most_cells * count ≤ count_of (V.geo view.now) class }
    ensures stands { IfOk result (λ pages. StandsFor names.new (joined pages) (take (most_cells * count) (column_of (V.geo view.now) class head))) }
    ensures full { IfOk result (λ pages. All (λ page. length page ≡ most_cells) pages) }
    ensures grows { Grows names.old names.new }
{
    let mut pages = PageList::new(alloc);
    for page in 0..count {
        let cells = cells_in(
            alloc,
            view,
            class,
            head,
            MOST_CELLS * page,
            MOST_CELLS,
            names,
        )?;
        pages.add(Page::from_vec(cells))?;
    }
    Ok(pages)
}

// The cells of `count` values of an attribute, from the element with the number `start` on.
fn cells_in<V: GeoView>(
    alloc: Global,
    view: &V,
    class: Class,
    head: u32,
    start: u32,
    count: u32,
    names: &mut Names,
) -> Result<Vec<Cell>, AllocError>
    requires readable { IsReadable (V.geo view.now) }
    requires head { head < length (heads_of (V.geo view.now) class).heads }
    requires within { start + count ≤ count_of (V.geo view.now) class }
    ensures stands { IfOk result (λ cells. StandsFor names.new cells.items (take count (drop start (column_of (V.geo view.now) class head)))) }
    ensures len { IfOk result (λ cells. length cells.items ≡ count) }
    ensures grows { Grows names.old names.new }
{
    let mut cells = Vec::with_capacity(alloc, count as usize)?;
    for k in 0..count {
        let value = view.value(class, head, start + k).to_value(alloc)?;
        cells.push(names.cell(&value)?)?;
    }
    Ok(cells)
}

// The members of each group of a class. For want of memory none are left.
fn members_in<V: GeoView>(
    alloc: Global,
    view: &V,
    class: Class,
    shelf: &mut Shelf<'_>,
) -> Result<Vec<BitColumn>, AllocError>
    requires readable { IsReadable (V.geo view.now) }
    ensures made { IfOk result (λ made. AreNewMembers shelf.old shelf.new (count_of (V.geo view.now) class) (length (heads_of (V.geo view.now) class).groups)
        (members_of (V.geo view.now) class (length (heads_of (V.geo view.now) class).groups)) made.items) }
    ensures err { OnErr result (Shifts shelf.old shelf.new [] []) }
{
    let groups = view.groups(class);
    let mut made = Vec::with_capacity(alloc, groups as usize)?;
    for group in 0..groups {
        match group_in(alloc, view, class, group, shelf) {
            Ok(members) => made.push_reserved(members),
            Err(error) => {
                lots::release_members(made, shelf);
                return Err(error);
            }
        }
    }
    Ok(made)
}

// The members of a group.
fn group_in<V: GeoView>(
    alloc: Global,
    view: &V,
    class: Class,
    group: u32,
    shelf: &mut Shelf<'_>,
) -> Result<BitColumn, AllocError>
    requires readable { IsReadable (V.geo view.now) }
    requires group { group < length (heads_of (V.geo view.now) class).groups }
    ensures made { IfOk result (IsNewMembers shelf.old shelf.new (count_of (V.geo view.now) class) (is_member (V.geo view.now) class group)) }
    ensures err { OnErr result (Shifts shelf.old shelf.new [] []) }
{
    let mut made = BitColumn::empty(alloc);
    match fill_group(&mut made, view, class, group, shelf) {
        Ok(()) => Ok(made),
        Err(error) => {
            made.release(shelf);
            Err(error)
        }
    }
}

// Turns the flags of `made`, which are all off, on for the members of a group.
fn fill_group<V: GeoView>(
    made: &mut BitColumn,
    view: &V,
    class: Class,
    group: u32,
    shelf: &mut Shelf<'_>,
) -> Result<(), AllocError>
    requires readable { IsReadable (V.geo view.now) }
    requires group { group < length (heads_of (V.geo view.now) class).groups }
    requires bare { made.old ≡ [] }
    ensures flags { OnOk result (AreJoined (flag shelf.new made.new) (λ _. false) 0 (is_member (V.geo view.now) class group) (count_of (V.geo view.now) class)) }
    ensures few { length made.new ≤ 31 }
    ensures bits { AreBits shelf.new made.new }
    ensures shifts { Shifts shelf.old shelf.new [] (placed made.new) }
{
    let count = view.count(class);
    for element in 0..count {
        let on = view.member(class, group, element);
        made.set(shelf, element, on)?;
    }
    Ok(())
}
