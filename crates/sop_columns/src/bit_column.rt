//! Columns of flags.
ghost use Rattle.std.specs.Prelude.{◌≡◌, ◌≢◌, ℕ, ◌∷◌, ◌++◌, ◌+◌, ◌-◌, ◌*◌, ◌/◌, ◌%◌, ◌^◌, ◌<◌, ◌≤◌, [], true, false, length, replicate, set, Some, None, slice_get, slice_index_or, vec_len, IsTrue, IfOk, OnOk, OnErr};
ghost use Rattle.sop_pages.specs.declared.page.TheConstants.{MOST_CELLS};
ghost use Rattle.sop_pages.specs.declared.cell.Cell.TheVariants as cell;
ghost use Rattle.sop_pages.specs.Pages.{count, live_pages};
ghost use Rattle.sop_pages.specs.Moves.{times, Covers};
ghost use Rattle.sop_cells.specs.Places.{own, AreBased};
ghost use Rattle.sop_cells.specs.Shelves.{IsHere, cells_at, Shifts};
ghost use Rattle.sop_columns.specs.Bits.{word_of, flag_of, flag_in, flag, placed, own_bits, AreBits, AreJoined};

use sop_cells::{Place, Shelf};
use sop_outside::Items;
use sop_pages::{Cell, Page};
use std::alloc::{AllocError, Global};
use std::marker::Model;

/// A cell has so many flags.
const CELL_FLAGS: u32 = 128;

/// A block, and so a full page, has so many flags.
const BLOCK_FLAGS: u32 = 131_072;

/// Flags in the pages of a shelf, 128 in a cell: where all pages are full, 3 bits a flag. A flag is off beyond the end
/// of its page, and where its block has no page, so no length stands here. Contracts see the places of the blocks.
#[derive(Drop)]
pub struct BitColumn {
    blocks: Vec<Option<Place>>,
    alloc: Global,
}

impl Model for BitColumn {
    ghost use Rattle.std.specs.Prelude.{List, Option};
    ghost use Rattle.sop_cells.specs.declared.place.Place.{Place};

    ghost Value = { List (Option Place) };

    ghost view = { λ c. c.blocks.items };
}

impl BitColumn {
    /// Flags that are all off. It takes no memory, and later some from `alloc` when flags go on.
    pub fn empty(alloc: Global) -> BitColumn
        ensures { result ≡ [] }
    {
        BitColumn {
            blocks: Vec::new(alloc),
            alloc,
        }
    }

    /// The flag with the number `k`, from 0. It takes no memory.
    pub fn get(&self, shelf: &Shelf<'_>, k: u32) -> bool
        requires { AreBits shelf.now self.now }
        ensures { result ≡ flag shelf.now self.now k }
    {
        match self.place_of(k / BLOCK_FLAGS) {
            Some(place) => page_flag(shelf, place, k % BLOCK_FLAGS),
            None => false,
        }
    }

    /// Turns the flag with the number `k`, from 0, on or off. A page is made or lengthened only for a flag that goes on, and
    /// changed in place where no other place holds it. `Err` for want of memory.
    pub fn set(&mut self, shelf: &mut Shelf<'_>, k: u32, on: bool) -> Result<(), AllocError>
        requires bits { AreBits shelf.old self.old }
        ensures here { OnOk result (flag shelf.new self.new k ≡ on) }
        ensures others { OnOk result ((i : ℕ) → i ≢ k → flag shelf.new self.new i ≡ flag shelf.old self.old i) }
        ensures bits { AreBits shelf.new self.new }
        ensures shifts { Shifts shelf.old shelf.new (placed self.old) (placed self.new) }
        ensures pages { live_pages shelf.new.own ≤ live_pages shelf.old.own + 1 }
        ensures few { (n : ℕ) → length self.old ≤ n → k / 131072 < n → length self.new ≤ n }
        ensures same { flag shelf.old self.old k ≡ on → (shelf.new ≡ shelf.old) × (self.new ≡ self.old) }
        ensures err { OnErr result ((shelf.new ≡ shelf.old) × (self.new ≡ self.old)) }
    {
        if self.get(shelf, k) == on {
            return Ok(());
        }
        let block = k / BLOCK_FLAGS;
        match self.place_of(block) {
            Some(place) => {
                let place = written(self.alloc, shelf, &place, k % BLOCK_FLAGS, on)?;
                self.blocks[block as usize] = Some(place);
            }
            None => {
                let mut blocks = with_room(self.alloc, self.blocks.as_slice(), block)?;
                let place = fresh(self.alloc, shelf, k % BLOCK_FLAGS)?;
                blocks[block as usize] = Some(place);
                self.blocks = blocks;
            }
        }
        Ok(())
    }

    /// The same places, which the shelf doesn't count before `hold`.
    pub fn copy(&self) -> Result<BitColumn, AllocError>
        ensures { IfOk result (λ c. c ≡ self.now) }
    {
        let blocks = Vec::from_slice(self.alloc, self.blocks.as_slice())?;
        Ok(BitColumn {
            blocks,
            alloc: self.alloc,
        })
    }

    /// Counts the pages of a copy once more. It takes no memory.
    pub fn hold(&self, shelf: &mut Shelf<'_>)
        requires bits { AreBits shelf.old self.now }
        requires room { (id : ℕ) → count shelf.old.own id + times id (own_bits self.now) < 2 ^ 128 }
        ensures shifts { Shifts shelf.old shelf.new [] (placed self.now) }
        ensures pages { live_pages shelf.new.own ≡ live_pages shelf.old.own }
    {
        hold_blocks(self.blocks.as_slice(), shelf);
    }

    /// Lets the pages go. It takes no memory.
    pub fn release(self, shelf: &mut Shelf<'_>)
        requires bits { AreBits shelf.old self }
        ensures shifts { Shifts shelf.old shelf.new (placed self) [] }
        ensures pages { live_pages shelf.new.own ≤ live_pages shelf.old.own }
    {
        release_blocks(self.blocks.as_slice(), shelf);
    }

    /// Flags of which those before `numbers.len()` are this column's flags at these numbers, in this order, and the others
    /// are off. This column stays. `Err` for want of memory: then the shelf counts and keeps what it did.
    pub fn picked(&self, shelf: &mut Shelf<'_>, numbers: &[u32]) -> Result<BitColumn, AllocError>
        requires bits { AreBits shelf.old self.now }
        requires few { length numbers.now < 2 ^ 32 }
        ensures flags { IfOk result (λ c. (k : ℕ) → k < length numbers.now → flag shelf.new c k ≡ flag shelf.old self.now (slice_index_or numbers.now k 0)) }
        ensures beyond { IfOk result (λ c. (k : ℕ) → length numbers.now ≤ k → flag shelf.new c k ≡ false) }
        ensures few { IfOk result (λ c. (n : ℕ) → length numbers.now ≤ 131072 * n → length c ≤ n) }
        ensures bits { IfOk result (AreBits shelf.new) }
        ensures shifts { IfOk result (λ c. Shifts shelf.old shelf.new [] (placed c)) }
        ensures err { OnErr result (Shifts shelf.old shelf.new [] []) }
    {
        let mut made = BitColumn::empty(self.alloc);
        if self.has_no_blocks() {
            return Ok(made);
        }
        if let Err(error) = self.pick_into(&mut made, shelf, numbers) {
            made.release(shelf);
            return Err(error);
        }
        Ok(made)
    }

    /// Flags that are this column's before `len`, then the first `more_len` of `more`, and off beyond. This column's flags
    /// from `len` on must be off. It shares this column's pages. Both stay. `Err` for want of memory: then the shelf counts
    /// and keeps what it did.
    pub fn appended(
        &self,
        len: u32,
        shelf: &mut Shelf<'_>,
        more: &BitColumn,
        more_len: u32,
    ) -> Result<BitColumn, AllocError>
        requires bits { AreBits shelf.old self.now }
        requires more_bits { AreBits shelf.old more.now }
        requires off { (k : ℕ) → len ≤ k → flag shelf.old self.now k ≡ false }
        requires fits { len + more_len < 2 ^ 32 }
        requires room { (id : ℕ) → count shelf.old.own id + times id (own_bits self.now) < 2 ^ 128 }
        ensures flags { IfOk result (λ c. AreJoined (flag shelf.new c) (flag shelf.old self.now) len (flag shelf.old more.now) more_len) }
        ensures few { IfOk result (λ c. (n : ℕ) → length self.now ≤ n → len + more_len ≤ 131072 * n → length c ≤ n) }
        ensures bits { IfOk result (AreBits shelf.new) }
        ensures shifts { IfOk result (λ c. Shifts shelf.old shelf.new [] (placed c)) }
        ensures err { OnErr result (Shifts shelf.old shelf.new [] []) }
    {
        let mut made = self.copy()?;
        made.hold(shelf);
        if more.has_no_blocks() {
            return Ok(made);
        }
        if let Err(error) = more.join_into(&mut made, len, shelf, more_len) {
            made.release(shelf);
            return Err(error);
        }
        Ok(made)
    }

    // Makes the first flags of `made`, which are all off, this column's flags at these numbers.
    fn pick_into(
        &self,
        made: &mut BitColumn,
        shelf: &mut Shelf<'_>,
        numbers: &[u32],
    ) -> Result<(), AllocError>
        requires bits { AreBits shelf.old self.now }
        requires empty { made.old ≡ [] }
        requires few { length numbers.now < 2 ^ 32 }
        ensures flags { OnOk result (AreJoined (flag shelf.new made.new) (λ _. false) 0 (λ k. flag shelf.old self.now (slice_index_or numbers.now k 0)) (length numbers.now)) }
        ensures few { (n : ℕ) → length numbers.now ≤ 131072 * n → length made.new ≤ n }
        ensures bits { AreBits shelf.new made.new }
        ensures shifts { Shifts shelf.old shelf.new [] (placed made.new) }
    {
        for k in 0..numbers.len() as u32 {
            let on = self.get(shelf, numbers[k as usize]);
            made.set(shelf, k, on)?;
        }
        Ok(())
    }

    // Makes the flags of `made` from `len` on, which are off, the first `more_len` of this column.
    fn join_into(
        &self,
        made: &mut BitColumn,
        len: u32,
        shelf: &mut Shelf<'_>,
        more_len: u32,
    ) -> Result<(), AllocError>
        requires bits { AreBits shelf.old self.now }
        requires made { AreBits shelf.old made.old }
        requires beside { (id : ℕ) → times id (own_bits made.old) + times id (own_bits self.now) ≤ count shelf.old.own id }
        requires off { (k : ℕ) → len ≤ k → flag shelf.old made.old k ≡ false }
        requires fits { len + more_len < 2 ^ 32 }
        ensures flags { OnOk result (AreJoined (flag shelf.new made.new) (flag shelf.old made.old) len (flag shelf.old self.now) more_len) }
        ensures few { (n : ℕ) → length made.old ≤ n → len + more_len ≤ 131072 * n → length made.new ≤ n }
        ensures bits { AreBits shelf.new made.new }
        ensures shifts { Shifts shelf.old shelf.new (placed made.old) (placed made.new) }
    {
        for k in 0..more_len {
            let on = self.get(shelf, k);
            made.set(shelf, len + k, on)?;
        }
        Ok(())
    }

    // Whether there is no block, so that all flags are off.
    fn has_no_blocks(&self) -> bool
        ensures { IsTrue result → self.now ≡ [] }
    {
        self.blocks.is_empty()
    }

    // The place of a block, where the block has a page.
    fn place_of(&self, block: u32) -> Option<Place>
        ensures { result ≡ slice_index_or self.now block None }
    {
        match self.blocks.get(block as usize) {
            Some(place) => *place,
            None => None,
        }
    }
}

// Holds the page of each block once more.
fn hold_blocks(blocks: &[Option<Place>], shelf: &mut Shelf<'_>)
    requires bits { AreBits shelf.old blocks.now }
    requires room { (id : ℕ) → count shelf.old.own id + times id (own_bits blocks.now) < 2 ^ 128 }
    ensures shifts { Shifts shelf.old shelf.new [] (placed blocks.now) }
    ensures pages { live_pages shelf.new.own ≡ live_pages shelf.old.own }
{
    for block in blocks {
        hold_block(*block, shelf);
    }
}

// Holds the page of a block once more, where it has one.
fn hold_block(block: Option<Place>, shelf: &mut Shelf<'_>)
    requires bits { AreBits shelf.old (block ∷ []) }
    requires room { (id : ℕ) → count shelf.old.own id + times id (own_bits (block ∷ [])) < 2 ^ 128 }
    ensures shifts { Shifts shelf.old shelf.new [] (placed (block ∷ [])) }
    ensures pages { live_pages shelf.new.own ≡ live_pages shelf.old.own }
{
    if let Some(place) = block {
        shelf.share(place);
    }
}

// Lets go of the page of each block.
fn release_blocks(blocks: &[Option<Place>], shelf: &mut Shelf<'_>)
    requires bits { AreBits shelf.old blocks.now }
    ensures shifts { Shifts shelf.old shelf.new (placed blocks.now) [] }
    ensures pages { live_pages shelf.new.own ≤ live_pages shelf.old.own }
{
    for block in blocks {
        release_block(*block, shelf);
    }
}

// Lets go of the page of a block, where it has one.
fn release_block(block: Option<Place>, shelf: &mut Shelf<'_>)
    requires bits { AreBits shelf.old (block ∷ []) }
    ensures shifts { Shifts shelf.old shelf.new (placed (block ∷ [])) [] }
    ensures pages { live_pages shelf.new.own ≤ live_pages shelf.old.own }
{
    if let Some(place) = block {
        shelf.release(place);
    }
}

// The blocks, and behind them so many without a page that the one with the number `block` is there.
fn with_room(
    alloc: Global,
    blocks: &[Option<Place>],
    block: u32,
) -> Result<Vec<Option<Place>>, AllocError>
    ensures items { IfOk result (λ more. more.items ≡ blocks.now ++ replicate (block + 1 - length blocks.now) None) }
    ensures within { IfOk result (λ more. block < length more.items) }
{
    let count = block as usize + 1;
    let mut more = Vec::from_slice(alloc, blocks)?;
    if more.len() < count {
        more.resize(count, None)?;
    }
    Ok(more)
}

// The flag with the number `j` in a page.
fn page_flag(shelf: &Shelf<'_>, place: Place, j: u32) -> bool
    requires { IsHere shelf.now place }
    ensures { result ≡ flag_in (cells_at shelf.now place) j }
{
    match shelf.cells(place).get((j / CELL_FLAGS) as usize) {
        Some(cell) => word_flag(word(*cell), j % CELL_FLAGS),
        None => false,
    }
}

// Turns the flag with the number `j` in the page of a place on or off, and answers what the place holds from now on. A
// page that is too short is lengthened by words of 0.
fn written(
    alloc: Global,
    shelf: &mut Shelf<'_>,
    place: &Place,
    j: u32,
    on: bool,
) -> Result<Place, AllocError>
    requires here { IsHere shelf.old place.now }
    requires within { j < 131072 }
    ensures here { IfOk result (λ new. flag_in (cells_at shelf.new new) j ≡ on) }
    ensures others { IfOk result (λ new. (i : ℕ) → i ≢ j → flag_in (cells_at shelf.new new) i ≡ flag_in (cells_at shelf.old place.now) i) }
    ensures shifts { IfOk result (λ new. Shifts shelf.old shelf.new (place.now ∷ []) (new ∷ [])) }
    ensures live { IfOk result (IsHere shelf.new) }
    ensures pages { live_pages shelf.new.own ≤ live_pages shelf.old.own + 1 }
    ensures err { OnErr result (shelf.new ≡ shelf.old) }
{
    let at = j / CELL_FLAGS;
    let len = shelf.cells(*place).len() as u32;
    if at < len {
        let old = word(shelf.cell(*place, at));
        let word = switched(old, j % CELL_FLAGS, on);
        Ok(shelf.set(*place, at, Cell::Name(word))?)
    } else {
        let word = switched(0, j % CELL_FLAGS, on);
        let more = words_with(alloc, at - len, word)?;
        Ok(shelf.lengthen(*place, more.as_slice())?)
    }
}

// A new page on the shelf in which the flag with the number `j` alone is on.
fn fresh(alloc: Global, shelf: &mut Shelf<'_>, j: u32) -> Result<Place, AllocError>
    requires { j < 131072 }
    ensures here { IfOk result (λ new. flag_in (cells_at shelf.new new) j ≡ true) }
    ensures others { IfOk result (λ new. (i : ℕ) → i ≢ j → flag_in (cells_at shelf.new new) i ≡ false) }
    ensures shifts { IfOk result (λ new. Shifts shelf.old shelf.new [] (new ∷ [])) }
    ensures live { IfOk result (IsHere shelf.new) }
    ensures pages { live_pages shelf.new.own ≤ live_pages shelf.old.own + 1 }
    ensures err { OnErr result (shelf.new ≡ shelf.old) }
{
    let word = switched(0, j % CELL_FLAGS, true);
    let words = words_with(alloc, j / CELL_FLAGS, word)?;
    Ok(put_one(alloc, shelf, Page::from_vec(words))?)
}

// Keeps a new page on the shelf.
fn put_one(alloc: Global, shelf: &mut Shelf<'_>, page: Page) -> Result<Place, AllocError>
    ensures cells { IfOk result (λ new. cells_at shelf.new new ≡ page) }
    ensures shifts { IfOk result (λ new. Shifts shelf.old shelf.new [] (new ∷ [])) }
    ensures live { IfOk result (IsHere shelf.new) }
    ensures pages { OnOk result (live_pages shelf.new.own ≡ live_pages shelf.old.own + 1) }
    ensures err { OnErr result (shelf.new ≡ shelf.old) }
{
    let mut pages = Items::new(alloc);
    pages.add(page)?;
    shelf.each_is_counted();
    let Ok(places) = shelf.put_all(pages) else {
        return Err(AllocError);
    };
    shelf.each_is_counted();
    Ok(*places.get(0))
}

// `count` words of 0, and then this one.
fn words_with(alloc: Global, count: u32, word: u128) -> Result<Vec<Cell>, AllocError>
    ensures { IfOk result (λ words. words.items ≡ replicate count (cell.Name 0) ++ cell.Name word ∷ []) }
{
    let mut words = Vec::with_capacity(alloc, count as usize + 1)?;
    words.resize(count as usize, Cell::Name(0))?;
    words.push(Cell::Name(word))?;
    Ok(words)
}

// The word of a cell.
fn word(cell: Cell) -> u128
    ensures { result ≡ word_of cell }
{
    match cell {
        Cell::Name(word) => word,
        _ => 0,
    }
}

// The flag with the number `j` in a word.
fn word_flag(word: u128, j: u32) -> bool
    requires { j < 128 }
    ensures { result ≡ flag_of word j }
{
    (word >> j) & 1 == 1
}

// The word with one flag as it is given.
fn switched(word: u128, j: u32, on: bool) -> u128
    requires { j < 128 }
    ensures here { flag_of result j ≡ on }
    ensures others { (i : ℕ) → i < 128 → i ≢ j → flag_of result i ≡ flag_of word i }
{
    if on {
        word | (1 << j)
    } else {
        word & !(1 << j)
    }
}
