// Atoms that are numbers.
ghost use Rattle.std.specs.Prelude.{◌≡◌, ◌==◌, position, true, IfSome};
ghost use Rattle.std.specs.Option.{option_map};
ghost use Rattle.sop_pattern.specs.Words.{before, behind, number_in, numbers_of, range_of, step_of, cycle_of};
ghost use Rattle.sop_pattern.specs.Marks.{has_period};

use crate::word::Atom;
use sop_fixed::read_number;

/// The most digits of a number.
const MOST_DIGITS: usize = 18;

/// `n`, `n-m`, `n-m:s` or `n-m:a,b`.
pub fn read_numbers(word: &[u8]) -> Option<Atom>
    ensures value { result ≡ numbers_of (number_in (before 45 word.now)) (behind 45 word.now) }
    ensures period { IfSome result (λ atom. has_period atom ≡ true) }
{
    let (first, rest) = cut(word, b'-');
    let first = read_number(first, MOST_DIGITS)?;
    match rest {
        None => Some(Atom::Number(first)),
        Some(rest) => read_range(first, rest),
    }
}

/// What stands before the first byte `mark`, and what stands behind it where there is one.
fn cut(text: &[u8], mark: u8) -> (&[u8], Option<&[u8]>)
    ensures before { result.0.now ≡ before mark text.now }
    ensures behind { option_map (λ rest. rest.now) result.1 ≡ behind mark text.now }
{
    match place_of(text, mark) {
        Some(i) => (&text[..i], Some(&text[i + 1..])),
        None => (text, None),
    }
}

fn place_of(text: &[u8], mark: u8) -> Option<usize>
    ensures { result ≡ position (λ b. b == mark) text.now }
{
    text.iter().position(|b| *b == mark)
}

fn read_range(first: u64, text: &[u8]) -> Option<Atom>
    ensures value { result ≡ range_of first (number_in (before 58 text.now)) (behind 58 text.now) }
    ensures period { IfSome result (λ atom. has_period atom ≡ true) }
{
    let (last, rest) = cut(text, b':');
    let last = read_number(last, MOST_DIGITS)?;
    match rest {
        None => Some(Atom::Range(first, last)),
        Some(rest) => read_step(first, last, rest),
    }
}

fn read_step(first: u64, last: u64, text: &[u8]) -> Option<Atom>
    ensures value { result ≡ step_of first last (number_in (before 44 text.now)) (behind 44 text.now) }
    ensures period { IfSome result (λ atom. has_period atom ≡ true) }
{
    let (step, rest) = cut(text, b',');
    let step = read_number(step, MOST_DIGITS)?;
    match rest {
        None if step > 0 => Some(Atom::Step(first, last, step)),
        None => None,
        Some(rest) => read_cycle(first, last, step, rest),
    }
}

fn read_cycle(first: u64, last: u64, taken: u64, text: &[u8]) -> Option<Atom>
    ensures value { result ≡ cycle_of first last taken (number_in text.now) }
    ensures period { IfSome result (λ atom. has_period atom ≡ true) }
{
    let every = read_number(text, MOST_DIGITS)?;
    if every > 0 {
        Some(Atom::Cycle(first, last, taken, every))
    } else {
        None
    }
}
