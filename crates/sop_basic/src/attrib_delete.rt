// `attribdelete`: attributes that go by their names.
ghost use Rattle.std.specs.Prelude.{◌≡◌, ℕ, Some, Ok, slice_get, if◌then◌else◌};
ghost use Rattle.std.specs.List.{list_any};
ghost use Rattle.sop_outside.specs.Blanks.{words_of};
ghost use Rattle.sop_pattern.specs.Wildcard.{matches};
ghost use Rattle.sop_model.specs.declared.geo.Geo.{Geo};
ghost use Rattle.sop_model.specs.declared.geo.Head.{Head};
ghost use Rattle.sop_model.specs.Geometry.{heads_of};
ghost use Rattle.sop_model.specs.Rows.{head_named, attr_deleted, HasHead};
ghost use Rattle.sop_net.specs.declared.node_type.NodeType.TheVariants as type;
ghost use Rattle.sop_net.specs.NodeTable.{parms_of};
ghost use Rattle.sop_net.specs.Network.{AreValues};
ghost use Rattle.sop_vault.specs.Keyed.{at, IsLive};
ghost use Rattle.sop_vault.specs.Refusals.{IsNoPosition};
ghost use Rattle.sop_basic.specs.Making.{Makes, Gives};
ghost use Rattle.sop_basic.specs.Outcomes.{limited};
ghost use Rattle.sop_basic.specs.AttribDelete.{stays, staying, attrs_left, attrib_delete_geo};

use crate::heads::is_position;
use crate::making::{finish, stop_of};
use crate::parm_texts::class_in;
use sop_model::{Class, CookStop, GeoView};
use sop_net::Parms;
use sop_outside::{Text, words_of};
use sop_pattern::matches;
use sop_vault::{GeoKey, Vault};
use std::alloc::Global;

/// Cooks an `attribdelete` node: a new key. `Limit` where what is left is still over the weight.
pub fn cook_attrib_delete<'b>(
    alloc: Global,
    vault: &mut Vault<'b>,
    parms: &Parms,
    input: GeoKey,
) -> Result<GeoKey, CookStop>
    requires live { IsLive vault.old.geos input }
    requires values { AreValues (parms_of type.AttribDelete) parms.now }
    ensures { (g : Geo) → at vault.old.geos input ≡ Some g → Gives vault.old vault.new (limited (attrib_delete_geo parms.now g)) result }
{
    let key = vault.share(input)?;
    let made = delete_matching(alloc, vault, key, class_in(parms.text(0)), parms.text(1));
    finish(vault, key, made)
}

/// Deletes the attributes of a class that don't stay, from the last one on, so that those before it keep their numbers.
fn delete_matching<'b>(
    alloc: Global,
    vault: &mut Vault<'b>,
    key: GeoKey,
    class: Class,
    names: &str,
) -> Result<(), CookStop>
    requires live { IsLive vault.old.geos key }
    ensures { (g : Geo) → at vault.old.geos key ≡ Some g → Makes vault.old vault.new key (Ok (attrs_left g class (staying g class (words_of names.now)))) result }
{
    let heads = vault.view(key).heads(class);
    for head in (0..heads).rev() {
        delete_one(alloc, vault, key, class, names, head)?;
    }
    Ok(())
}

/// Deletes the attribute of this number, unless it stays.
fn delete_one<'b>(
    alloc: Global,
    vault: &mut Vault<'b>,
    key: GeoKey,
    class: Class,
    names: &str,
    head: u32,
) -> Result<(), CookStop>
    requires live { IsLive vault.old.geos key }
    requires there { (g : Geo) → at vault.old.geos key ≡ Some g → HasHead g class head }
    ensures { (g : Geo) (h : Head) → at vault.old.geos key ≡ Some g → slice_get (heads_of g class).heads head ≡ Some h → Makes vault.old vault.new key (Ok (if stays class (words_of names.now) h.name then g else attr_deleted g class head)) result }
{
    let view = vault.view(key);
    let name = view.head_name(class, head);
    if stays(class, names, name) {
        return Ok(());
    }
    let name = Text::from_str(alloc, name)?;
    delete_named(vault, key, class, name.as_str())
}

/// Deletes the attribute of this name, which is there.
fn delete_named<'b>(
    vault: &mut Vault<'b>,
    key: GeoKey,
    class: Class,
    name: &str,
) -> Result<(), CookStop>
    requires live { IsLive vault.old.geos key }
    requires apart { IsNoPosition class name.now }
    ensures { (g : Geo) (head : ℕ) → at vault.old.geos key ≡ Some g → head_named g class name.now ≡ Some head → Makes vault.old vault.new key (Ok (attr_deleted g class head)) result }
{
    if let Err(end) = vault.del_attr(key, class, name) {
        return Err(stop_of(end));
    }
    Ok(())
}

/// Whether the attribute of a name stays, where those go whose name a word of `names` matches.
fn stays(class: Class, names: &str, name: &str) -> bool
    ensures { result ≡ stays class (words_of names.now) name.now }
{
    is_position(class, name) || !has_match(names, name)
}

fn has_match(names: &str, name: &str) -> bool
    ensures { result ≡ list_any (λ word. matches word name.now) (words_of names.now) }
{
    words_of(names.as_bytes()).any(|word| matches(word, name.as_bytes()))
}
