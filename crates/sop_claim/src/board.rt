//! The ticket board: two words, and passes that step on them.
ghost use Rattle.std.specs.Prelude.{◌≡◌, ℕ, ◌+◌, ◌<◌, ◌≤◌, [], IfOk, IfSome, IfNone, IsOkAnd};
ghost use Rattle.sop_claim.specs.Views.{IsHeld, HasLoadedBelow, HasTold, IsAfter, share, newcomer, with_drawn, with_miss, with_faulty, with_loaded, with_done, with_skipped, with_less_room, joined};
ghost use Rattle.sop_claim.specs.declared.rule.TheConstants.{WHOLE_SHARE};
ghost use Rattle.sop_claim.specs.BoardRule.{first_view};

use crate::rule::{
    Claiming, Doing, Drawing, Loading, Reporting, Settled, Sharing, Skipping, View, WHOLE_SHARE,
};
use atomic_table::{Seat, Table};
use std::alloc::{AllocError, Global};
use std::marker::Brand;

/// The tickets 0 to n-1, of which each is drawn once. Threads share a board by reference.
#[derive(Drop)]
pub struct Board {
    table: Table<(), View, u32, Claiming, Global>,
    n: u32,
    ghost words: { table.shared.table_id.words ≡ 2 },
    ghost slots: { table.shared.table_id.slots ≡ 0 },
    ghost key: { table.shared.key ≡ n },
}

/// The right to draw from one board, for one worker. Contracts see what it knows as `View`.
#[derive(Drop)]
pub struct Pass {
    seat: Seat<(), View>,
    room: u64,
    share: u64,
    ghost no_slot: { seat.me.1 ≡ [] },
    ghost room_is: { seat.me.0.room ≡ room },
    ghost share_is: { seat.me.0.room + seat.me.0.missed ≡ share },
    ghost some_share: { 1 ≤ share },
    ghost part: { share ≤ WHOLE_SHARE },
}

/// How a board ends.
#[derive(Clone, Copy, Debug, PartialEq, Eq)]
pub struct BoardEnd {
    /// How many tickets were drawn: those below this number.
    pub drawn: u32,
    /// The least ticket that was reported, or n.
    pub least: u32,
}

impl Pass {
    ghost use Rattle.sop_claim.specs.Passes.{view_of};

    /// How many draws of this pass may still find nothing, so how often it can be split, and 1.
    pub fn room(&self) -> u64
        ensures { result ≡ (view_of self.now).room }
    {
        self.room
    }

    /// The part of `WHOLE_SHARE` that this pass has: at least 1.
    pub fn share(&self) -> u64
        ensures share { result ≡ share (view_of self.now) }
        ensures part { (1 ≤ result) × (result ≤ WHOLE_SHARE) }
    {
        self.share
    }
}

impl Board {
    ghost use Rattle.sop_claim.specs.Passes.{view_of, IsPassOf, tickets};
    ghost use Rattle.sop_claim.specs.Ends.{Knows, EndsRun};

    /// A board of n tickets, and its first pass, whose room and share are `WHOLE_SHARE`.
    pub fn new(alloc: Global, n: u32) -> Result<(Board, Pass), AllocError>
        ensures tickets { IfOk result (λ r. tickets r.0 ≡ n) }
        ensures pass { IfOk result (λ r. IsPassOf r.0 r.1 × (view_of r.1 ≡ first_view n)) }
    {
        let (table, seat) = Table::of_words(alloc, &[0, u64::from(n)], &n)?;
        let board = Board { table, n };
        let pass = Pass {
            seat,
            room: WHOLE_SHARE,
            share: WHOLE_SHARE,
        };
        Ok((board, pass))
    }

    /// The next ticket. `None` comes exactly where all tickets were drawn, and takes one from the
    /// room of the pass, which must have some. A pass draws ever later tickets.
    pub fn draw(&self, pass: &mut Pass) -> Option<u32>
        requires pass { IsPassOf self.now pass.old }
        requires room { 1 ≤ (view_of pass.old).room }
        ensures pass { IsPassOf self.now pass.new }
        ensures drawn { IfSome result (λ k. view_of pass.new ≡ with_drawn (view_of pass.old) k) }
        ensures ticket { IfSome result (λ k. (k < tickets self.now) × IsAfter (view_of pass.old) k) }
        ensures none { IfNone result (view_of pass.new ≡ with_miss (view_of pass.old)) }
    {
        let found = self.table.shared.fetch_add::<Drawing>(&mut pass.seat, 0, 1);
        if found < u64::from(self.n) {
            return Some(found as u32);
        }
        pass.room -= 1;
        None
    }

    /// Settles a ticket of this pass as faulty. No later `least` is above it.
    pub fn report(&self, pass: &mut Pass, k: u32)
        requires pass { IsPassOf self.now pass.old }
        requires held { IsHeld (view_of pass.old) k }
        ensures pass { IsPassOf self.now pass.new }
        ensures faulty { view_of pass.new ≡ with_faulty (view_of pass.old) k }
    {
        self.table
            .shared
            .fetch_min::<Reporting>(&mut pass.seat, 1, u64::from(k));
    }

    /// The least ticket that any pass has reported so far, or n where none was. It is no more than
    /// any ticket that this pass, or one joined into it, reported or loaded before.
    pub fn least(&self, pass: &mut Pass) -> u32
        requires { IsPassOf self.now pass.old }
        ensures pass { IsPassOf self.now pass.new }
        ensures loaded { view_of pass.new ≡ with_loaded (view_of pass.old) result }
        ensures within { result ≤ tickets self.now }
        ensures falls { (x : ℕ) → HasTold (view_of pass.old) x → result ≤ x }
    {
        let least = self.table.shared.load::<Loading>(&mut pass.seat, 1);
        least.min(u64::from(self.n)) as u32
    }

    fn done_as<T: Settled>(&self, pass: &mut Pass, k: u32)
        requires ticket { k ≡ T.ticket }
        requires pass { IsPassOf self.now pass.old }
        requires held { IsHeld (view_of pass.old) k }
        ensures pass { IsPassOf self.now pass.new }
        ensures done { view_of pass.new ≡ with_done (view_of pass.old) k }
    {
        self.table.shared.load::<Doing<T>>(&mut pass.seat, 1);
    }

    /// Settles a ticket of this pass as done.
    pub fn done(&self, pass: &mut Pass, k: u32)
        requires pass { IsPassOf self.now pass.old }
        requires held { IsHeld (view_of pass.old) k }
        ensures pass { IsPassOf self.now pass.new }
        ensures done { view_of pass.new ≡ with_done (view_of pass.old) k }
    {
        self.done_as::<Brand>(pass, k);
    }

    fn skip_as<T: Settled>(&self, pass: &mut Pass, k: u32)
        requires ticket { k ≡ T.ticket }
        requires pass { IsPassOf self.now pass.old }
        requires held { IsHeld (view_of pass.old) k }
        requires least { HasLoadedBelow (view_of pass.old) k }
        ensures pass { IsPassOf self.now pass.new }
        ensures skipped { view_of pass.new ≡ with_skipped (view_of pass.old) k }
    {
        self.table.shared.load::<Skipping<T>>(&mut pass.seat, 1);
    }

    /// Settles a ticket of this pass as skipped, where the pass has loaded a least below it.
    pub fn skip(&self, pass: &mut Pass, k: u32)
        requires pass { IsPassOf self.now pass.old }
        requires held { IsHeld (view_of pass.old) k }
        requires least { HasLoadedBelow (view_of pass.old) k }
        ensures pass { IsPassOf self.now pass.new }
        ensures skipped { view_of pass.new ≡ with_skipped (view_of pass.old) k }
    {
        self.skip_as::<Brand>(pass, k);
    }

    /// A second pass, to which this one gives 1 of its room, of at least 2, and 1 of its share.
    /// A board keeps no list of its passes, so this takes no memory and is never an `Err`.
    pub fn split(&self, pass: &mut Pass) -> Result<Pass, AllocError>
        requires pass { IsPassOf self.now pass.old }
        requires room { 2 ≤ (view_of pass.old).room }
        ensures pass { IsPassOf self.now pass.new }
        ensures left { view_of pass.new ≡ with_less_room (view_of pass.old) }
        ensures other { IsOkAnd result (λ other. IsPassOf self.now other × (view_of other ≡ newcomer (tickets self.now) 1)) }
    {
        let seat = self.table.shared.split_seat::<Sharing>(&mut pass.seat);
        pass.room -= 1;
        pass.share -= 1;
        Ok(Pass {
            seat,
            room: 1,
            share: 1,
        })
    }

    /// Puts all that another pass has into this one: its tickets, settled or not, what it loaded,
    /// its room and its share. A load, which is no event of the claims, then weighs the share.
    pub fn join(&self, pass: &mut Pass, other: Pass)
        requires pass { IsPassOf self.now pass.old }
        requires other { IsPassOf self.now other }
        ensures pass { IsPassOf self.now pass.new }
        ensures both { view_of pass.new ≡ joined (view_of pass.old) (view_of other) }
    {
        let Pass { seat, room, share } = other;
        self.table.shared.join_seat::<Sharing>(&mut pass.seat, seat);
        self.table.shared.load::<Sharing>(&mut pass.seat, 0);
        pass.room += room;
        pass.share += share;
    }

    /// Ends the board, by its last pass, which has the whole share: the next ticket of the
    /// claims, at most n, and the least. This takes no memory and is never an `Err`.
    pub fn close(self, pass: Pass) -> Result<BoardEnd, AllocError>
        requires pass { IsPassOf self pass }
        requires whole { share (view_of pass) ≡ WHOLE_SHARE }
        ensures known { IsOkAnd result (λ end. Knows (tickets self) end (view_of pass)) }
        ensures claims { IfOk result (λ end. EndsRun (tickets self) end (view_of pass)) }
    {
        let Board { table, n } = self;
        let Pass { seat, .. } = pass;
        let closed = table.close_with(seat);
        let next = closed.word(0);
        let least = closed.word(1);
        closed.free();
        let drawn = next.min(u64::from(n)) as u32;
        Ok(BoardEnd {
            drawn,
            least: least as u32,
        })
    }
}
