//! A shelf: counted pages of its own, over those of another shelf or over none.
ghost use Rattle.std.specs.Prelude.{◌≡◌, ℕ, ◌∷◌, ◌++◌, ◌+◌, ◌^◌, ◌<◌, ◌≤◌, [], ◌==◌, if◌then◌else◌, length, map, slice_index_or, slice_set, vec_len, vec_capacity, Ok, IfOk, IfErr, OnOk, OnErr};
ghost use Rattle.sop_pages.specs.Cells.{IsPage};
ghost use Rattle.sop_pages.specs.Moves.{times};
ghost use Rattle.sop_pages.specs.Pages.{AreCounted, count, live_pages};
ghost use Rattle.sop_pages.specs.declared.page.TheConstants.{MOST_CELLS};
ghost use Rattle.sop_cells.specs.declared.place.Place.{Place};
ghost use Rattle.sop_cells.specs.declared.place.Place.TheVariants.{Own};
ghost use Rattle.sop_cells.specs.Places.{own, AreBased};
ghost use Rattle.sop_cells.specs.Shelves.{IsHere, count_at, cells_at, blocks, Shifts, IsPutBehind};

use crate::place::{Place, PlaceList};
use sop_outside::Items;
use sop_pages::{Cell, Page, PageId, PageList, PageStore};
use std::alloc::{AllocError, Global};
use std::marker::Model;

/// Pages of its own, each with the number of places that hold it, over the pages of another shelf or over none.
/// The base stays as it is while this shelf stands over it, and its pages aren't counted here. Contracts see both stores.
#[derive(Drop)]
pub struct Shelf<'b> {
    own: PageStore,
    base: Option<&'b PageStore>,
    alloc: Global,
}

impl<'b> Model for Shelf<'b> {
    ghost use Rattle.sop_cells.specs.Shelves.{ShelfPages, base_store};

    ghost Value = { ShelfPages };

    ghost view = { λ s. record { own = s.own; base = base_store s.base } };
}

impl<'b> Shelf<'b> {
    /// A shelf without pages and without a base. It takes memory from `alloc` when it grows.
    pub fn new(alloc: Global) -> Shelf<'b>
        ensures own { result.own ≡ [] }
        ensures base { result.base ≡ [] }
    {
        Shelf {
            own: PageStore::new(alloc),
            base: None,
            alloc,
        }
    }

    /// A shelf without own pages over the own pages of `base`, whose base must hold none of its columns.
    pub fn over(alloc: Global, base: &'b Shelf<'_>) -> Shelf<'b>
        ensures own { result.own ≡ [] }
        ensures base { result.base ≡ base.now.own }
    {
        let store = &base.own;
        Shelf {
            own: PageStore::new(alloc),
            base: Some(store),
            alloc,
        }
    }

    /// The number of own pages. A page counts once, however many places hold it.
    pub fn pages(&self) -> u64
        ensures { result ≡ live_pages self.now.own }
    {
        self.own.pages()
    }

    /// The cells of a place's page, in order.
    pub fn cells(&self, place: Place) -> &[Cell]
        requires { IsHere self.now place }
        ensures value { result.now ≡ cells_at self.now place }
        ensures size { IsPage (cells_at self.now place) }
    {
        match place {
            Place::Own(id) => self.own.cells(id),
            Place::Base(id) => self.base_pages().cells(id),
        }
    }

    /// The cell with the number `i`, from 0, of a place's page.
    pub fn cell(&self, place: Place, i: u32) -> Cell
        requires live { IsHere self.now place }
        requires within { i < length (cells_at self.now place) }
        ensures { result ≡ slice_index_or (cells_at self.now place) i result }
    {
        self.cells(place)[i as usize]
    }

    /// Keeps new own pages at places of their own, or hands all of them back for want of memory. The places come in the
    /// order of the pages.
    pub fn put_all(&mut self, pages: PageList) -> Result<PlaceList, (PageList, AllocError)>
        ensures shifts { IfOk result (λ places. Shifts self.old self.new [] places) }
        ensures fresh { IfOk result (λ places. (id : ℕ) → 1 ≤ times id (own places) → count self.old.own id ≡ 0) }
        ensures cells { IfOk result (λ places. blocks self.new places ≡ pages) }
        ensures based { IfOk result (λ places. AreBased self.new.base places) }
        ensures pages { OnOk result (live_pages self.new.own ≡ live_pages self.old.own + length pages) }
        ensures err { IfErr result (λ e. (self.new ≡ self.old) × (e.0 ≡ pages)) }
    {
        let none = Vec::new(self.alloc);
        match self.put_behind(none, pages) {
            Ok(places) => Ok(Items::from_vec(places)),
            Err(back) => Err(back),
        }
    }

    /// Keeps new own pages, and sets their places behind others, or hands the pages back for want of memory.
    pub(crate) fn put_behind(
        &mut self,
        mut places: Vec<Place>,
        pages: PageList,
    ) -> Result<Vec<Place>, (PageList, AllocError)>
        ensures put { IfOk result (λ after. IsPutBehind self.old self.new places.items pages after.items) }
        ensures pages { OnOk result (live_pages self.new.own ≡ live_pages self.old.own + length pages) }
        ensures err { IfErr result (λ e. (self.new ≡ self.old) × (e.0 ≡ pages)) }
    {
        if places.reserve(pages.len()).is_err() {
            return Err((pages, AllocError));
        }
        let ids = match self.own.put_all(pages) {
            Ok(ids) => ids,
            Err(back) => return Err(back),
        };
        push_own(&mut places, ids.as_slice());
        Ok(places)
    }

    /// Makes `cell` the cell with the number `i`, from 0, of the page of a place, and answers what the place holds from
    /// now on. An own page that no other place holds is changed in place, which takes no memory. Otherwise the place gets
    /// a changed own copy, and lets go of the old page, which stays as it was.
    pub fn set(&mut self, place: Place, i: u32, cell: Cell) -> Result<Place, AllocError>
        requires live { IsHere self.old place }
        requires within { i < length (cells_at self.old place) }
        ensures shifts { IfOk result (λ new. Shifts self.old self.new (place ∷ []) (new ∷ [])) }
        ensures cells { IfOk result (λ new. cells_at self.new new ≡ slice_set (cells_at self.old place) i cell) }
        ensures single { count_at self.old place ≡ 1 → result ≡ Ok place }
        ensures alone { IfOk result (λ new. count_at self.new new ≡ 1) }
        ensures pages { OnOk result (live_pages self.new.own
            ≡ live_pages self.old.own + (if count_at self.old place == 1 then 0 else 1)) }
        ensures err { OnErr result (self.new ≡ self.old) }
    {
        match place {
            Place::Own(id) => {
                let new = self.own.set(id, i, cell)?;
                Ok(Place::Own(new))
            }
            Place::Base(_) => {
                let mut page = self.copy(place)?;
                page.put(i, cell);
                self.put(page)
            }
        }
    }

    /// Sets `more` cells behind the last of the page of a place, where there is room for them, as `set` changes one.
    pub fn lengthen(&mut self, place: Place, more: &[Cell]) -> Result<Place, AllocError>
        requires live { IsHere self.old place }
        requires room { length (cells_at self.old place) + length more.now ≤ MOST_CELLS }
        ensures shifts { IfOk result (λ new. Shifts self.old self.new (place ∷ []) (new ∷ [])) }
        ensures cells { IfOk result (λ new. cells_at self.new new ≡ cells_at self.old place ++ more.now) }
        ensures single { count_at self.old place ≡ 1 → IfOk result (λ new. new ≡ place) }
        ensures alone { IfOk result (λ new. count_at self.new new ≡ 1) }
        ensures pages { OnOk result (live_pages self.new.own
            ≡ live_pages self.old.own + (if count_at self.old place == 1 then 0 else 1)) }
        ensures err { OnErr result (self.new ≡ self.old) }
    {
        match place {
            Place::Own(id) => {
                let new = self.own.lengthen(id, more)?;
                Ok(Place::Own(new))
            }
            Place::Base(_) => {
                let mut page = self.copy(place)?;
                page.lengthen(more)?;
                self.put(page)
            }
        }
    }

    /// One more place holds the page of `place`. The count of an own page, a u128, must have room. It takes no memory.
    pub fn share(&mut self, place: Place)
        requires live { IsHere self.old place }
        requires room { count_at self.old place + 1 < 2 ^ 128 }
        ensures shifts { Shifts self.old self.new [] (place ∷ []) }
        ensures pages { live_pages self.new.own ≡ live_pages self.old.own }
    {
        if let Place::Own(id) = place {
            self.own.share(id);
        }
    }

    /// One place less holds the page of `place`; an own page goes when none is left. It takes no memory.
    pub fn release(&mut self, place: Place)
        requires { IsHere self.old place }
        ensures shifts { Shifts self.old self.new (place ∷ []) [] }
        ensures pages { live_pages self.new.own + (if count_at self.old place == 1 then 1 else 0) ≡ live_pages self.old.own }
    {
        if let Place::Own(id) = place {
            self.own.release(id);
        }
    }

    /// Whether the place holds an own page that no other place holds, so that it can be taken out.
    pub fn is_held_once(&self, place: Place) -> bool
        requires { IsHere self.now place }
        ensures { result ≡ (count_at self.now place == 1) }
    {
        match place {
            Place::Own(id) => self.own.is_held_once(id),
            Place::Base(_) => false,
        }
    }

    /// Takes an own page out that no other place holds, without a copy. It takes no memory.
    pub fn take(&mut self, place: Place) -> Page
        requires { count_at self.old place ≡ 1 }
        ensures cells { result ≡ cells_at self.old place }
        ensures shifts { Shifts self.old self.new (place ∷ []) [] }
        ensures pages { live_pages self.new.own + 1 ≡ live_pages self.old.own }
    {
        let Place::Own(id) = place else {
            unreachable!()
        };
        self.own.take(id)
    }

    /// A page of the same cells as the page of a place, which is not kept on the shelf.
    pub fn copy(&self, place: Place) -> Result<Page, AllocError>
        requires { IsHere self.now place }
        ensures { IfOk result (λ page. page ≡ cells_at self.now place) }
    {
        match place {
            Place::Own(id) => self.own.copy(id),
            Place::Base(id) => self.base_pages().copy(id),
        }
    }

    /// A law: a place that is here holds a page of 1 to `MOST_CELLS` cells.
    pub fn each_is_a_page(&self)
        ensures { (place : Place) → IsHere self.now place → IsPage (cells_at self.now place) }
    {
        self.own.each_is_a_page();
        if let Some(base) = self.base {
            base.each_is_a_page();
        }
    }

    /// A law: an own page that is there is held by a place or more.
    pub fn each_is_counted(&self)
        ensures { AreCounted self.now.own }
    {
        self.own.each_is_counted();
    }

    // The pages of the base, where a place holds one.
    fn base_pages(&self) -> &PageStore
        requires { 1 ≤ length self.now.base }
        ensures { result.now ≡ self.now.base }
    {
        let Some(base) = self.base else {
            unreachable!()
        };
        base
    }

    // Keeps a new own page at a place of its own.
    fn put(&mut self, page: Page) -> Result<Place, AllocError>
        ensures shifts { IfOk result (λ place. Shifts self.old self.new [] (place ∷ [])) }
        ensures cells { IfOk result (λ place. cells_at self.new place ≡ page) }
        ensures alone { IfOk result (λ place. count_at self.new place ≡ 1) }
        ensures pages { OnOk result (live_pages self.new.own ≡ live_pages self.old.own + 1) }
        ensures err { OnErr result (self.new ≡ self.old) }
    {
        let Ok(id) = self.own.put(page) else {
            return Err(AllocError);
        };
        Ok(Place::Own(id))
    }
}

// Sets own places behind others, where there is room for them.
fn push_own(places: &mut Vec<Place>, ids: &[PageId])
    requires { vec_len places.old + length ids.now ≤ vec_capacity places.old }
    ensures { places.new.items ≡ places.old.items ++ map Own ids.now }
{
    for id in ids {
        places.push_reserved(Place::Own(*id));
    }
}
