// Atoms that are `*`, a name, or a text that stands for names.
ghost use Rattle.std.specs.Prelude.{◌≡◌, ◌||◌, IfOk, IfSome, position, true};
ghost use Rattle.std.specs.List.{list_all};
ghost use Rattle.sop_model.specs.Names.{continues_name};
ghost use Rattle.sop_pattern.specs.Words.{is_wild_byte, is_wild, named_atom};
ghost use Rattle.sop_pattern.specs.Marks.{has_period};

use crate::word::Atom;
use sop_model::{continues_name, is_name};
use sop_outside::Text;
use std::alloc::{AllocError, Global};

/// `*`, a name, or a text with `*` and `?` that stands for names.
pub fn read_named(alloc: Global, word: &[u8]) -> Result<Option<Atom>, AllocError>
    ensures value { IfOk result (λ atom. atom ≡ named_atom word.now) }
    ensures period { IfOk result (λ atom. IfSome atom (λ a. has_period a ≡ true)) }
{
    if word == b"*".as_slice() {
        return Ok(Some(Atom::All));
    }
    if is_name(word) {
        return Ok(Some(Atom::Group(text_of(alloc, word)?)));
    }
    if is_wild(word) {
        return Ok(Some(Atom::Groups(text_of(alloc, word)?)));
    }
    Ok(None)
}

fn text_of(alloc: Global, word: &[u8]) -> Result<Text, AllocError>
    requires { list_all (λ b. continues_name b || is_wild_byte b) word.now ≡ true }
    ensures { IfOk result (λ text. text ≡ word.now) }
{
    match str::from_utf8(word) {
        Ok(text) => Text::from_str(alloc, text),
        Err(_) => unreachable!(),
    }
}

/// Letters, digits, `_`, `*` and `?`, with a `*` or `?` among them.
fn is_wild(word: &[u8]) -> bool
    ensures { result ≡ is_wild word.now }
{
    all_wild(word) && wild_place(word).is_some()
}

fn all_wild(word: &[u8]) -> bool
    ensures { result ≡ list_all (λ b. continues_name b || is_wild_byte b) word.now }
{
    word.iter().all(|b| continues_name(*b) || is_wild_byte(*b))
}

fn is_wild_byte(b: u8) -> bool
    ensures { result ≡ is_wild_byte b }
{
    b == b'*' || b == b'?'
}

fn wild_place(word: &[u8]) -> Option<usize>
    ensures { result ≡ position is_wild_byte word.now }
{
    word.iter().position(|b| is_wild_byte(*b))
}
