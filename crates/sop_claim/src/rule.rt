//! The rule of a board's two words, and what each kind of step tells its pass.
use atomic_table::{Join, Play, Split, TableRule};
use std::collections::LinkedList;
use std::marker::{Brand, PhantomData};

/// The shares of all passes of a board add up to this: one share for each pass, and so many draws that may
/// find nothing before word 0 could wrap.
pub const WHOLE_SHARE: u64 = 1 << 62;

/// What a pass knows of its board. It exists in contracts and proofs alone: no value of it is made.
pub struct View {
    /// The number of tickets.
    pub n: u32,
    /// How many draws may still find nothing.
    pub room: u64,
    /// How many draws found nothing.
    pub missed: u64,
    /// The tickets that it drew.
    pub drawn: LinkedList<u32>,
    /// The drawn tickets that it settled, as done, as faulty and as skipped.
    pub done: LinkedList<u32>,
    pub faulty: LinkedList<u32>,
    pub skipped: LinkedList<u32>,
    /// The values of the least that it loaded.
    pub loaded: LinkedList<u32>,
}

/// The rule of a board: what holds of its two words and of what all passes know.
pub struct Claiming;

impl TableRule<(), View, u32> for Claiming {
    ghost use Rattle.sop_claim.specs.BoardRule.{Rule, first_view};

    ghost holds = { Rule };

    ghost first = { first_view };
}

/// A step on word 0 that draws a ticket, or finds nothing.
pub struct Drawing;

impl Play<(), View> for Drawing {
    ghost use Rattle.sop_claim.specs.BoardRule.{Draws};

    ghost then = { Draws };
}

/// A step on word 1 that reports a drawn ticket as faulty.
pub struct Reporting;

impl Play<(), View> for Reporting {
    ghost use Rattle.sop_claim.specs.BoardRule.{Reports};

    ghost then = { Reports };
}

/// A step on word 1 that loads the least reported ticket.
pub struct Loading;

impl Play<(), View> for Loading {
    ghost use Rattle.sop_claim.specs.BoardRule.{Loads};

    ghost then = { Loads };
}

/// The ticket that a step settles. The step has no operand, so each call picks it.
pub trait Settled {
    ghost use Rattle.std.specs.Prelude.{ℕ};

    ghost ticket: { ℕ };
}

impl Settled for Brand {
    ghost ticket = { 0 };
}

/// A step that settles a drawn ticket as done. It changes no word.
pub struct Doing<T>(PhantomData<T>);

impl<T: Settled> Play<(), View> for Doing<T> {
    ghost use Rattle.sop_claim.specs.Views.{with_done};
    ghost use Rattle.sop_claim.specs.BoardRule.{Settles};

    ghost then = { Settles with_done T.ticket };
}

/// A step that settles a drawn ticket as skipped. It changes no word.
pub struct Skipping<T>(PhantomData<T>);

impl<T: Settled> Play<(), View> for Skipping<T> {
    ghost use Rattle.sop_claim.specs.Views.{with_skipped};
    ghost use Rattle.sop_claim.specs.BoardRule.{Settles};

    ghost then = { Settles with_skipped T.ticket };
}

/// The steps that split a pass in two, join two into one, and load word 0 to weigh the share of what was joined.
pub struct Sharing;

impl Split<View> for Sharing {
    ghost use Rattle.sop_claim.specs.Views.{newcomer, with_less_room};

    ghost left = { with_less_room };

    ghost right = { λ v. newcomer v.n 1 };
}

impl Join<View> for Sharing {
    ghost use Rattle.sop_claim.specs.Views.{joined};
    ghost use Rattle.sop_claim.specs.BoardRule.{spent_view};

    ghost both = { joined };

    ghost spent = { spent_view };
}

impl Play<(), View> for Sharing {
    ghost use Rattle.sop_claim.specs.BoardRule.{Weighs};

    ghost then = { Weighs };
}
