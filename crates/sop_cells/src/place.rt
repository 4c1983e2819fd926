//! Places of a column.
use sop_outside::Items;
use sop_pages::PageId;

/// A page that a place of a column holds: one of the shelf's own store, or one of its base.
#[derive(Clone, Copy, Debug)]
pub enum Place {
    /// A page of the shelf's own store, where this place is counted.
    Own(PageId),
    /// A page of the base, which never changes. Nobody counts it here.
    Base(PageId),
}

/// A list of places.
pub type PlaceList = Items<Place>;
