//! What each kind of step of a board is in the machine of claims.
ghost use Rattle.std.specs.Prelude.{◌≡◌, ℕ, ◌+◌, ◌<◌, ◌≤◌, ◌++◌, [], ◌∷◌, min, slice_set};
ghost use Rattle.sop_claim.specs.declared.machine.Event.TheVariants as on;
ghost use Rattle.sop_claim.specs.declared.rule.View.{View};
ghost use Rattle.sop_claim.specs.Views.{times, IsHeld, share, newcomer, with_drawn, with_miss, with_faulty, with_loaded, with_done, with_skipped, with_less_room, joined};
ghost use Rattle.sop_claim.specs.BoardRule.{spent_view};
ghost use Rattle.sop_claim.specs.StepEvents.{Moment, so_far, keeper, with_view, HasOther, IsHeldBy, handed, LeadsTo};

/// A law of every moment of a board and every pass of it: the event of the claims that each kind of
/// step is. A draw is Draw of the pass, or nothing where all tickets were drawn; a report is Fault, a
/// `done` is Done, and a `skip` is Skip, with a `seen` that the pass has loaded before, each of the
/// worker that drew the ticket; `least`, `split` and `join` are nothing.
pub fn steps_are_events()
    ensures draw { (b : Moment) → b.next < b.n → 1 ≤ b.view.room → LeadsTo b (b.next + 1) b.least (with_view b (with_drawn b.view b.next)) (keeper b) (so_far b ++ on.Draw b.id ∷ []) }
    ensures empty_draw { (b : Moment) → b.n ≤ b.next → 1 ≤ b.view.room → LeadsTo b (b.next + 1) b.least (with_view b (with_miss b.view)) (keeper b) (so_far b) }
    ensures report { (b : Moment) (k : ℕ) → IsHeld b.view k → (w : ℕ) × IsHeldBy b k w × LeadsTo b b.next (min b.least k) (with_view b (with_faulty b.view k)) (keeper b) (so_far b ++ on.Fault w k ∷ []) }
    ensures least { (b : Moment) → LeadsTo b b.next b.least (with_view b (with_loaded b.view b.least)) (keeper b) (so_far b) }
    ensures done { (b : Moment) (k : ℕ) → IsHeld b.view k → (w : ℕ) × IsHeldBy b k w × LeadsTo b b.next b.least (with_view b (with_done b.view k)) (keeper b) (so_far b ++ on.Done w k ∷ []) }
    ensures skip { (b : Moment) (k seen : ℕ) → IsHeld b.view k → seen < k → 1 ≤ times seen b.view.loaded → (w : ℕ) × IsHeldBy b k w × LeadsTo b b.next b.least (with_view b (with_skipped b.view k)) (keeper b) (so_far b ++ on.Skip w k seen ∷ []) }
    ensures split { (b : Moment) → 2 ≤ b.view.room → LeadsTo b b.next b.least (with_view b (with_less_room b.view) ++ newcomer b.view.n 1 ∷ []) (keeper b) (so_far b) }
    ensures join { (b : Moment) (other : ℕ) (w : View) → HasOther b other w → 1 ≤ share b.view → LeadsTo b b.next b.least (slice_set (with_view b (joined b.view w)) other spent_view) (handed (keeper b) other b.id) (so_far b) }
{}
