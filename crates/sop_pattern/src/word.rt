// The words of a pattern, as they are kept.
use sop_outside::Text;

/// What a word does with the elements that its atom holds.
#[derive(Clone, Copy, Debug, PartialEq, Eq)]
pub enum Effect {
    /// The word adds them.
    Adds,
    /// Behind `!` it adds all others.
    AddsOthers,
    /// Behind `^` it takes them away.
    Takes,
}

/// Elements of a class, by their numbers or by the groups that they are in. A number is at most 10^18 - 1.
#[derive(Debug, Drop)]
pub enum Atom {
    /// `n`
    Number(u64),
    /// `n-m`: from n to m, none where n is more than m.
    Range(u64, u64),
    /// `n-m:s`: each s-th from n to m.
    Step(u64, u64, u64),
    /// `n-m:a,b`: from n to m the first a of each b.
    Cycle(u64, u64, u64, u64),
    /// `*`: all.
    All,
    /// The members of the group of this name.
    Group(Text),
    /// The members of all groups whose names this text with `*` and `?` stands for.
    Groups(Text),
}

/// A word of a pattern.
#[derive(Debug, Drop)]
pub struct Word {
    /// What the word does with the elements that its atom holds.
    pub effect: Effect,
    /// The elements that the word speaks of.
    pub atom: Atom,
}
