// The groups of the primitives that follow.
ghost use Rattle.std.specs.Prelude.{◌≡◌, [], true, false, replicate, None, OnOk, map, length, vec_len};
ghost use Rattle.geo_text.specs.ObjStatements.{mended};
ghost use Rattle.geo_text.specs.ObjScan.{words_here};
ghost use Rattle.geo_text.specs.ObjRun.{noted_at, noted_name, noted, unmarked, marked_by, groups_seen, flags_seen};

use crate::group_name::mended;
use crate::scan::next_word;
use crate::taker::ObjTaker;
use sop_model::limits::MOST_GROUPS;
use sop_outside::Text;
use std::alloc::{AllocError, Global};

/// The groups of the primitives that follow.
#[derive(Debug, Drop)]
pub(crate) struct Groups<'a> {
    /// The words of their line.
    pub(crate) words: &'a [u8],
    /// Whether the flags are those of these words. They are found at the first primitive.
    pub(crate) is_known: bool,
    /// For each group that was taken whether it is one of them.
    pub(crate) flags: Vec<bool>,
}

/// Marks the group of a name, which is taken where it is new and there is room for it.
fn note_name<T: ObjTaker>(
    taker: &mut T,
    name: Text,
    flags: &mut Vec<bool>,
) -> Result<(), AllocError>
    requires { vec_len flags.old ≡ length (T.taken taker.old).prim.groups }
    ensures attributes { OnOk result (T.attributes taker.new ≡ T.attributes taker.old) }
    ensures noted { OnOk result (record { geo = T.taken taker.new; flags = flags.new.items } ≡ noted_name name (record { geo = T.taken taker.old; flags = flags.old.items })) }
    ensures len { OnOk result (vec_len flags.new ≡ length (T.taken taker.new).prim.groups) }
{
    match taker.find_group(name.as_str()) {
        Some(group) => {
            flags[group] = true;
            Ok(())
        }
        None => note_new(taker, name, flags),
    }
}

fn note_new<T: ObjTaker>(taker: &mut T, name: Text, flags: &mut Vec<bool>) -> Result<(), AllocError>
    requires { vec_len flags.old ≡ length (T.taken taker.old).prim.groups }
    ensures attributes { OnOk result (T.attributes taker.new ≡ T.attributes taker.old) }
    ensures noted { OnOk result (record { geo = T.taken taker.new; flags = flags.new.items } ≡ noted_at None name (record { geo = T.taken taker.old; flags = flags.old.items })) }
    ensures len { OnOk result (vec_len flags.new ≡ length (T.taken taker.new).prim.groups) }
{
    if taker.groups() >= MOST_GROUPS {
        return Ok(());
    }
    taker.take_group(name)?;
    flags.push(true)?;
    Ok(())
}

/// Marks the groups that some words name.
fn note_words<T: ObjTaker>(
    alloc: Global,
    taker: &mut T,
    words: &[u8],
    flags: &mut Vec<bool>,
) -> Result<(), AllocError>
    requires { vec_len flags.old ≡ length (T.taken taker.old).prim.groups }
    ensures attributes { OnOk result (T.attributes taker.new ≡ T.attributes taker.old) }
    ensures noted { OnOk result (record { geo = T.taken taker.new; flags = flags.new.items } ≡ noted (map mended (words_here words.now)) (record { geo = T.taken taker.old; flags = flags.old.items })) }
{
    let mut rest = words;
    while let Some((word, more)) = next_word(rest) {
        note_name(taker, mended(alloc, word)?, flags)?;
        rest = more;
    }
    Ok(())
}

/// So many flags that aren't set.
fn clear_flags(flags: &mut Vec<bool>, count: usize) -> Result<(), AllocError>
    ensures items { OnOk result (flags.new.items ≡ replicate count false) }
    ensures len { OnOk result (vec_len flags.new ≡ count) }
{
    flags.clear();
    flags.resize(count, false)
}

impl<'a> Groups<'a> {
    /// No group. It takes no memory.
    pub(crate) fn none(alloc: Global) -> Groups<'a>
        ensures groups { groups_seen result ≡ [] }
        ensures flags { flags_seen result ≡ None }
    {
        Groups {
            words: b"",
            is_known: false,
            flags: Vec::new(alloc),
        }
    }

    /// The groups that the words behind `g` name.
    pub(crate) fn begin(&mut self, words: &'a [u8])
        ensures groups { groups_seen self.new ≡ map mended (words_here words.now) }
        ensures flags { flags_seen self.new ≡ None }
    {
        self.words = words;
        self.is_known = false;
    }

    /// Finds the flags of these groups, if they aren't known, and takes the groups that are new.
    pub(crate) fn find<T: ObjTaker>(
        &mut self,
        alloc: Global,
        taker: &mut T,
    ) -> Result<(), AllocError>
        ensures attributes { OnOk result (T.attributes taker.new ≡ T.attributes taker.old) }
        ensures words { groups_seen self.new ≡ groups_seen self.old }
        ensures known { OnOk result (self.new.is_known ≡ true) }
        ensures flags { OnOk result (record { geo = T.taken taker.new; flags = self.new.flags.items } ≡ marked_by (flags_seen self.old) (groups_seen self.old) (T.taken taker.old)) }
    {
        if self.is_known {
            return Ok(());
        }
        clear_flags(&mut self.flags, taker.groups())?;
        note_words(alloc, taker, self.words, &mut self.flags)?;
        self.is_known = true;
        Ok(())
    }
}
