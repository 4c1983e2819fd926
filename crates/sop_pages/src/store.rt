//! The store of counted pages.
ghost use Rattle.std.specs.Prelude.{◌≡◌, ℕ, ◌∷◌, ◌++◌, ◌+◌, ◌^◌, ◌<◌, ◌≤◌, [], ◌==◌, ◌↔◌, if◌then◌else◌, length, map, take, slice_index_or, slice_set, vec_len, vec_capacity, IfOk, IfErr, OnOk, OnErr, Some, IsTrue};
ghost use Rattle.slab.specs.Slab.{HasRoomFor};
ghost use Rattle.sop_pages.specs.Pages.{page_at, IsLive, AreCounted, count, cells, live_pages};
ghost use Rattle.sop_pages.specs.Slots.{store_of, AllCounted};
ghost use Rattle.sop_pages.specs.Moves.{times, Moves};
ghost use Rattle.sop_pages.specs.Cells.{IsPage, with_run};

use crate::cell::Cell;
use crate::page::{MOST_CELLS, Page, PageList};
use slab::Slab;
use sop_outside::Items;
use std::alloc::{AllocError, Global};
use std::marker::Model;

/// Names a page in its store. Its holder says that it has one place more by `PageStore::share`.
#[derive(Clone, Copy, Debug, PartialEq, Eq)]
pub struct PageId {
    key: usize,
}

/// A list of ids of pages.
pub type PageIdList = Items<PageId>;

impl Model for PageId {
    ghost use Rattle.std.specs.Prelude.{ℕ};

    ghost Value = { ℕ };

    ghost view = { λ p. p.key };

    ghost inverse = { λ n. record { key = n } };
}

// A page, and the number of places that hold it.
#[derive(Drop)]
pub struct Counted {
    page: Page,
    count: u128,
}

/// Pages under ids, each with the number of places that hold it: its count. An id is live while its
/// page has a count of 1 or more.
#[derive(Drop)]
pub struct PageStore {
    pages: Slab<Counted>,
    alloc: Global,
}

impl Model for PageStore {
    ghost use Rattle.sop_pages.specs.Slots.{Store, store_of, AllCounted};

    ghost Value = { Store };

    ghost view = { λ s. store_of s.pages };

    ghost invariant = { λ s. AllCounted s.pages };
}

impl PageStore {
    /// The store of no pages. It takes memory from `alloc` when it grows.
    pub fn new(alloc: Global) -> PageStore
        ensures { result ≡ [] }
    {
        PageStore {
            pages: Slab::new(alloc),
            alloc,
        }
    }

    /// The number of pages. A page counts once, however many places hold it.
    #[tactic(auto, using(crate::proofs::StoreLemmas::live_len))]
    pub fn pages(&self) -> u64
        ensures { result ≡ live_pages self.now }
    {
        self.pages.len() as u64
    }

    /// Keeps a page under an id that was not live, with count 1, or hands it back for want of memory.
    pub fn put(&mut self, page: Page) -> Result<PageId, (Page, AllocError)>
        ensures moves { IfOk result (λ id. Moves self.old self.new [] (id ∷ [])) }
        ensures fresh { IfOk result (λ id. count self.old id ≡ 0) }
        ensures cells { IfOk result (λ id. cells self.new id ≡ page) }
        ensures pages { OnOk result (live_pages self.new ≡ live_pages self.old + 1) }
        ensures err { IfErr result (λ e. (self.new ≡ self.old) × (e.0 ≡ page)) }
    {
        if self.pages.reserve(1).is_err() {
            return Err((page, AllocError));
        }
        let key = self.pages.insert_reserved(Counted { page, count: 1 });
        Ok(PageId { key })
    }

    /// Keeps pages under ids that were not live, each with count 1, or hands all of them back for
    /// want of memory. The ids come in the order of the pages.
    pub fn put_all(&mut self, pages: PageList) -> Result<PageIdList, (PageList, AllocError)>
        ensures moves { IfOk result (λ ids. Moves self.old self.new [] ids) }
        ensures fresh { IfOk result (λ ids. (id : ℕ) → 1 ≤ times id ids → count self.old id ≡ 0) }
        ensures cells { IfOk result (λ ids. map (cells self.new) ids ≡ pages) }
        ensures pages { OnOk result (live_pages self.new ≡ live_pages self.old + length pages) }
        ensures err { IfErr result (λ e. (self.new ≡ self.old) × (e.0 ≡ pages)) }
    {
        let Ok(mut ids) = Vec::with_capacity(self.alloc, pages.len()) else {
            return Err((pages, AllocError));
        };
        if self.pages.reserve(pages.len()).is_err() {
            return Err((pages, AllocError));
        }
        put_reserved(&mut self.pages, &mut ids, pages.into_vec());
        Ok(Items::from_vec(ids))
    }

    /// One more place holds the page. Its count, a u128, must have room. It takes no memory.
    pub fn share(&mut self, id: PageId)
        requires live { IsLive self.old id }
        requires room { count self.old id + 1 < 2 ^ 128 }
        ensures moves { Moves self.old self.new [] (id ∷ []) }
        ensures pages { live_pages self.new ≡ live_pages self.old }
    {
        self.raise(id);
    }

    /// One place less holds the page, which goes when none is left. It takes no memory.
    pub fn release(&mut self, id: PageId)
        requires { IsLive self.old id }
        ensures moves { Moves self.old self.new (id ∷ []) [] }
        ensures pages { live_pages self.new + (if count self.old id == 1 then 1 else 0) ≡ live_pages self.old }
    {
        if self.is_held_once(id) {
            self.remove(id);
        } else {
            self.lower(id);
        }
    }

    /// The cell with the number `i`, from 0, of a page.
    pub fn cell(&self, id: PageId, i: u32) -> Cell
        requires live { IsLive self.now id }
        requires within { i < length (cells self.now id) }
        ensures { result ≡ slice_index_or (cells self.now id) i result }
    {
        let Some(held) = self.pages.get(id.key) else {
            unreachable!()
        };
        held.page.get(i)
    }

    /// The cells of a page, in order.
    pub fn cells(&self, id: PageId) -> &[Cell]
        requires { IsLive self.now id }
        ensures value { result.now ≡ cells self.now id }
        ensures size { IsPage (cells self.now id) }
    {
        let Some(held) = self.pages.get(id.key) else {
            unreachable!()
        };
        held.page.cells()
    }

    /// Makes `cell` the cell with the number `i`, from 0, of the page that one place holds by `id`,
    /// and answers the id by which this place holds it from now on. A page of count 1 is changed in
    /// place, which takes no memory. Otherwise this place gets a changed copy of its own, and the
    /// other places keep the old page as it was.
    pub fn set(&mut self, id: PageId, i: u32, cell: Cell) -> Result<PageId, AllocError>
        requires live { IsLive self.old id }
        requires within { i < length (cells self.old id) }
        ensures moves { IfOk result (λ new. Moves self.old self.new (id ∷ []) (new ∷ [])) }
        ensures cells { IfOk result (λ new. cells self.new new ≡ slice_set (cells self.old id) i cell) }
        ensures single { count self.old id ≡ 1 → result ≡ Ok id }
        ensures alone { IfOk result (λ new. count self.new new ≡ 1) }
        ensures pages { OnOk result (live_pages self.new ≡ live_pages self.old + (if count self.old id == 1 then 0 else 1)) }
        ensures err { OnErr result (self.new ≡ self.old) }
    {
        let Some(held) = self.pages.get_mut(id.key) else {
            unreachable!()
        };
        if held.count == 1 {
            held.page.put(i, cell);
            return Ok(id);
        }
        let mut page = held.page.copy(self.alloc)?;
        page.put(i, cell);
        self.part(id, page)
    }

    /// Makes the cells from number `start` on, counted from 0, those of `run`, as `set` does for one.
    pub fn set_run(&mut self, id: PageId, start: u32, run: &[Cell]) -> Result<PageId, AllocError>
        requires live { IsLive self.old id }
        requires within { start + length run.now ≤ length (cells self.old id) }
        ensures moves { IfOk result (λ new. Moves self.old self.new (id ∷ []) (new ∷ [])) }
        ensures cells { IfOk result (λ new. cells self.new new ≡ with_run (cells self.old id) start run.now) }
        ensures single { count self.old id ≡ 1 → result ≡ Ok id }
        ensures alone { IfOk result (λ new. count self.new new ≡ 1) }
        ensures pages { OnOk result (live_pages self.new ≡ live_pages self.old + (if count self.old id == 1 then 0 else 1)) }
        ensures err { OnErr result (self.new ≡ self.old) }
    {
        let Some(held) = self.pages.get_mut(id.key) else {
            unreachable!()
        };
        if held.count == 1 {
            held.page.put_run(start, run);
            return Ok(id);
        }
        let mut page = held.page.copy(self.alloc)?;
        page.put_run(start, run);
        self.part(id, page)
    }

    /// Sets `more` cells behind the last of the page that one place holds by `id`, where there is room
    /// for them, and answers the id by which this place holds it from now on. A page of count 1 is
    /// lengthened in place. Otherwise this place gets a longer copy of its own, and the other places
    /// keep the old page as it was.
    pub fn lengthen(&mut self, id: PageId, more: &[Cell]) -> Result<PageId, AllocError>
        requires live { IsLive self.old id }
        requires room { length (cells self.old id) + length more.now ≤ MOST_CELLS }
        ensures moves { IfOk result (λ new. Moves self.old self.new (id ∷ []) (new ∷ [])) }
        ensures cells { IfOk result (λ new. cells self.new new ≡ cells self.old id ++ more.now) }
        ensures single { count self.old id ≡ 1 → IfOk result (λ new. new ≡ id) }
        ensures alone { IfOk result (λ new. count self.new new ≡ 1) }
        ensures pages { OnOk result (live_pages self.new ≡ live_pages self.old + (if count self.old id == 1 then 0 else 1)) }
        ensures err { OnErr result (self.new ≡ self.old) }
    {
        let Some(held) = self.pages.get_mut(id.key) else {
            unreachable!()
        };
        if held.count == 1 {
            held.page.lengthen(more)?;
            return Ok(id);
        }
        let page = held.page.longer(self.alloc, more)?;
        self.part(id, page)
    }

    /// Cuts the page that one place holds by `id` to its first `len` cells, as `set` changes one.
    pub fn shorten(&mut self, id: PageId, len: u32) -> Result<PageId, AllocError>
        requires live { IsLive self.old id }
        requires some { 1 ≤ len }
        requires within { len ≤ length (cells self.old id) }
        ensures moves { IfOk result (λ new. Moves self.old self.new (id ∷ []) (new ∷ [])) }
        ensures cells { IfOk result (λ new. cells self.new new ≡ take len (cells self.old id)) }
        ensures single { count self.old id ≡ 1 → result ≡ Ok id }
        ensures alone { IfOk result (λ new. count self.new new ≡ 1) }
        ensures pages { OnOk result (live_pages self.new ≡ live_pages self.old + (if count self.old id == 1 then 0 else 1)) }
        ensures err { OnErr result (self.new ≡ self.old) }
    {
        let Some(held) = self.pages.get_mut(id.key) else {
            unreachable!()
        };
        if held.count == 1 {
            held.page.shorten(len);
            return Ok(id);
        }
        let page = held.page.shorter(self.alloc, len)?;
        self.part(id, page)
    }

    /// Takes a page out that one place holds, without a copy. It takes no memory.
    pub fn take(&mut self, id: PageId) -> Page
        requires { count self.old id ≡ 1 }
        ensures cells { result ≡ cells self.old id }
        ensures moves { Moves self.old self.new (id ∷ []) [] }
        ensures pages { live_pages self.new + 1 ≡ live_pages self.old }
    {
        let Some(held) = self.pages.try_remove(id.key) else {
            unreachable!()
        };
        held.page
    }

    /// A page of the same cells, which is not kept in the store.
    pub fn copy(&self, id: PageId) -> Result<Page, AllocError>
        requires { IsLive self.now id }
        ensures { IfOk result (λ page. page ≡ cells self.now id) }
    {
        let Some(held) = self.pages.get(id.key) else {
            unreachable!()
        };
        held.page.copy(self.alloc)
    }

    /// A law: a live page has 1 to `MOST_CELLS` cells.
    pub fn each_is_a_page(&self)
        ensures { (id : ℕ) → IsLive self.now id → IsPage (cells self.now id) }
    {
        let _pages = &self.pages;
    }

    /// A law: a page that is there has a count of 1 or more.
    pub fn each_is_counted(&self)
        ensures { AreCounted self.now }
    {
        let _pages = &self.pages;
    }

    /// Whether one place alone holds a page, so that it can be taken out. It takes no memory.
    pub fn is_held_once(&self, id: PageId) -> bool
        requires { IsLive self.now id }
        ensures { result ≡ (count self.now id == 1) }
    {
        let Some(held) = self.pages.get(id.key) else {
            unreachable!()
        };
        held.count == 1
    }

    // One place gives up its share of a page and holds this one, which is kept under an id that was not live.
    fn part(&mut self, id: PageId, page: Page) -> Result<PageId, AllocError>
        requires { 1 < count self.old id }
        ensures moves { IfOk result (λ new. Moves self.old self.new (id ∷ []) (new ∷ [])) }
        ensures cells { IfOk result (λ new. cells self.new new ≡ page) }
        ensures alone { IfOk result (λ new. count self.new new ≡ 1) }
        ensures pages { OnOk result (live_pages self.new ≡ live_pages self.old + 1) }
        ensures err { OnErr result (self.new ≡ self.old) }
    {
        let Ok(new) = self.put(page) else {
            return Err(AllocError);
        };
        self.lower(id);
        Ok(new)
    }

    // Counts a page one more.
    fn raise(&mut self, id: PageId)
        requires live { IsLive self.old id }
        requires room { count self.old id + 1 < 2 ^ 128 }
        ensures moves { Moves self.old self.new [] (id ∷ []) }
        ensures pages { live_pages self.new ≡ live_pages self.old }
    {
        let Some(held) = self.pages.get_mut(id.key) else {
            unreachable!()
        };
        held.count += 1;
    }

    // Counts a page one less that several places hold.
    fn lower(&mut self, id: PageId)
        requires { 1 < count self.old id }
        ensures moves { Moves self.old self.new (id ∷ []) [] }
        ensures pages { live_pages self.new ≡ live_pages self.old }
    {
        let Some(held) = self.pages.get_mut(id.key) else {
            unreachable!()
        };
        held.count -= 1;
    }

    // Drops a page that one place holds.
    fn remove(&mut self, id: PageId)
        requires { count self.old id ≡ 1 }
        ensures moves { Moves self.old self.new (id ∷ []) [] }
        ensures pages { live_pages self.new + 1 ≡ live_pages self.old }
    {
        self.pages.remove(id.key);
    }
}

// Keeps pages under new ids where there is room.
fn put_reserved(slab: &mut Slab<Counted>, ids: &mut Vec<PageId>, pages: Vec<Page>)
    requires counted { AllCounted slab.old }
    requires room { HasRoomFor slab.old (vec_len pages) }
    requires bare { vec_len ids.old ≡ 0 }
    requires ids_room { vec_len pages ≤ vec_capacity ids.old }
    ensures counted { AllCounted slab.new }
    ensures moves { Moves (store_of slab.old) (store_of slab.new) [] ids.new.items }
    ensures fresh { (id : ℕ) → 1 ≤ times id ids.new.items → count (store_of slab.old) id ≡ 0 }
    ensures cells { map (cells (store_of slab.new)) ids.new.items ≡ pages.items }
    ensures live { live_pages (store_of slab.new) ≡ live_pages (store_of slab.old) + length pages.items }
{
    for page in pages {
        let _cells = page.cells();
        let key = slab.insert_reserved(Counted { page, count: 1 });
        ids.push_reserved(PageId { key });
    }
}
