// Flags of elements, marked word by word.
ghost use Rattle.std.specs.Prelude.{◌≡◌, ℕ, ◌<◌, ◌≤◌, ◌&&◌, nat_le, nat_lt, true, false, length, map, IfOk, OnOk, position, slice_index_or};
ghost use Rattle.std.specs.List.{list_all, range_with_len};
ghost use Rattle.sop_model.specs.Geometry.{IsReadable, heads_of, count_of};
ghost use Rattle.sop_pattern.specs.Selection.{holds, selects, selected_by, lacks_group, is_member};
ghost use Rattle.sop_pattern.specs.Marks.{marked, is_in_cycle, has_period, names_group, member_of};

use crate::wildcard::matches;
use crate::word::{Atom, Effect, Word};
use sop_model::{Class, GeoView};
use std::alloc::{AllocError, Global};

/// The number of the first word that is a name which no group of the class has.
pub fn first_missing<V: GeoView>(words: &[Word], view: &V, class: Class) -> Option<usize>
    requires { IsReadable (V.geo view.now) }
    ensures { result ≡ position (λ word. lacks_group (V.geo view.now) class word.atom) words.now }
{
    words
        .iter()
        .position(|word| lacks_group(&word.atom, view, class))
}

fn lacks_group<V: GeoView>(atom: &Atom, view: &V, class: Class) -> bool
    requires { IsReadable (V.geo view.now) }
    ensures { result ≡ lacks_group (V.geo view.now) class atom.now }
{
    match atom {
        Atom::Group(name) => view.find_group(class, name.as_str()).is_none(),
        _ => false,
    }
}

/// A flag for each element: whether the words select it.
pub fn flags_of<V: GeoView>(
    alloc: Global,
    words: &[Word],
    view: &V,
    class: Class,
) -> Result<Vec<bool>, AllocError>
    requires readable { IsReadable (V.geo view.now) }
    requires periods { list_all (λ w. has_period w.atom) words.now ≡ true }
    ensures { IfOk result (λ flags. flags.items ≡ map (selects (V.geo view.now) class words.now) (range_with_len 0 (count_of (V.geo view.now) class))) }
{
    let count = view.count(class) as usize;
    let mut flags = vec![in alloc; words.is_empty(); count]?;
    for word in words {
        take_word(alloc, word, view, class, &mut flags)?;
    }
    Ok(flags)
}

/// What a word makes of the flags.
fn take_word<V: GeoView>(
    alloc: Global,
    word: &Word,
    view: &V,
    class: Class,
    flags: &mut [bool],
) -> Result<(), AllocError>
    requires readable { IsReadable (V.geo view.now) }
    requires period { has_period word.now.atom ≡ true }
    requires each { length flags.old ≡ count_of (V.geo view.now) class }
    ensures { OnOk result ((e : ℕ) → e < length flags.old → slice_index_or flags.new e false ≡ selected_by word.now.effect (slice_index_or flags.old e false) (holds (V.geo view.now) class word.now.atom e)) }
{
    match word.effect {
        Effect::Adds => mark(&word.atom, view, class, flags, true),
        Effect::Takes => mark(&word.atom, view, class, flags, false),
        Effect::AddsOthers => {
            let mut held = vec![in alloc; false; flags.len()]?;
            mark(&word.atom, view, class, &mut held, true);
            add_others(&held, flags);
        }
    }
    Ok(())
}

/// Sets the flags of the elements that an atom holds to a value.
fn mark<V: GeoView>(atom: &Atom, view: &V, class: Class, flags: &mut [bool], to: bool)
    requires readable { IsReadable (V.geo view.now) }
    requires period { has_period atom.now ≡ true }
    requires each { length flags.old ≡ count_of (V.geo view.now) class }
    ensures { (e : ℕ) → e < length flags.old → slice_index_or flags.new e false ≡ marked to (holds (V.geo view.now) class atom.now e) (slice_index_or flags.old e false) }
{
    match atom {
        Atom::Number(n) => mark_cycle(flags, *n, *n, 1, 1, to),
        Atom::Range(first, last) => mark_cycle(flags, *first, *last, 1, 1, to),
        Atom::Step(first, last, every) => mark_cycle(flags, *first, *last, 1, *every, to),
        Atom::Cycle(first, last, taken, every) => {
            mark_cycle(flags, *first, *last, *taken, *every, to);
        }
        Atom::All => flags.fill(to),
        Atom::Group(_) | Atom::Groups(_) => mark_groups(atom, view, class, flags, to),
    }
}

/// Sets the flags of the first `taken` of each `every` elements, from `first` on up to `last`. The time is linear in the
/// number of these elements and of the whole `every` among all elements.
fn mark_cycle(flags: &mut [bool], first: u64, last: u64, taken: u64, every: u64, to: bool)
    requires { 0 < every }
    ensures { (e : ℕ) → e < length flags.old → slice_index_or flags.new e false ≡ marked to (is_in_cycle first last taken every e) (slice_index_or flags.old e false) }
{
    let end = last.saturating_add(1).min(flags.len() as u64);
    let mut start = first;
    while start < end {
        let stop = start.saturating_add(taken.min(every)).min(end);
        mark_run(flags, start as usize, stop as usize, to);
        start = start.saturating_add(every);
    }
}

/// Sets the flags from one number up to another.
fn mark_run(flags: &mut [bool], start: usize, stop: usize, to: bool)
    requires { stop ≤ length flags.old }
    ensures { (e : ℕ) → e < length flags.old → slice_index_or flags.new e false ≡ marked to (nat_le start e && nat_lt e stop) (slice_index_or flags.old e false) }
{
    for e in start..stop {
        flags[e] = to;
    }
}

/// Sets the flags of the members of each group that an atom names.
fn mark_groups<V: GeoView>(atom: &Atom, view: &V, class: Class, flags: &mut [bool], to: bool)
    requires readable { IsReadable (V.geo view.now) }
    requires each { length flags.old ≡ count_of (V.geo view.now) class }
    ensures { (e : ℕ) → e < length flags.old → slice_index_or flags.new e false ≡ marked to (is_member (V.geo view.now) class (names_group atom.now) e) (slice_index_or flags.old e false) }
{
    for group in 0..view.groups(class) {
        if names_group(atom, view.group_name(class, group)) {
            mark_group(group, view, class, flags, to);
        }
    }
}

fn names_group(atom: &Atom, name: &str) -> bool
    ensures { result ≡ names_group atom.now name.now }
{
    match atom {
        Atom::Group(own) => own.as_str() == name,
        Atom::Groups(pattern) => matches(pattern.as_str().as_bytes(), name.as_bytes()),
        _ => false,
    }
}

/// Sets the flags of the members of a group.
fn mark_group<V: GeoView>(group: u32, view: &V, class: Class, flags: &mut [bool], to: bool)
    requires readable { IsReadable (V.geo view.now) }
    requires in_range { group < length (heads_of (V.geo view.now) class).groups }
    requires each { length flags.old ≡ count_of (V.geo view.now) class }
    ensures { (e : ℕ) → e < length flags.old → slice_index_or flags.new e false ≡ marked to (member_of (V.geo view.now) class group e) (slice_index_or flags.old e false) }
{
    for e in 0..view.count(class) {
        if view.member(class, group, e) {
            flags[e as usize] = to;
        }
    }
}

/// Sets the flags that aren't held.
fn add_others(held: &[bool], flags: &mut [bool])
    requires { length held.now ≡ length flags.old }
    ensures { (e : ℕ) → e < length flags.old → slice_index_or flags.new e false ≡ selected_by Effect.AddsOthers (slice_index_or flags.old e false) (slice_index_or held.now e false) }
{
    for (e, held) in held.iter().enumerate() {
        if !*held {
            flags[e] = true;
        }
    }
}
