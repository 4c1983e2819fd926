// `blast`: elements that go.
ghost use Rattle.std.specs.Prelude.{◌≡◌, Some, Ok, IsSomeAnd};
ghost use Rattle.sop_model.specs.declared.geo.Geo.{Geo};
ghost use Rattle.sop_model.specs.Sweep.{swept, AreMarksOf};
ghost use Rattle.sop_net.specs.declared.node_type.NodeType.TheVariants as type;
ghost use Rattle.sop_net.specs.NodeTable.{parms_of};
ghost use Rattle.sop_net.specs.Network.{AreValues};
ghost use Rattle.sop_vault.specs.Keyed.{at, IsLive};
ghost use Rattle.sop_basic.specs.Outcomes.{limited};
ghost use Rattle.sop_basic.specs.Making.{Makes, Gives};
ghost use Rattle.sop_combine.specs.Blast.{is_on, blast_geo};

use crate::marking::marks_on;
use sop_basic::{class_in, finish, selected, stop_of};
use sop_model::CookStop;
use sop_net::Parms;
use sop_rows::Marks;
use sop_vault::{GeoKey, Vault};
use std::alloc::Global;

/// Cooks a `blast` node: a new key. `BadGroup` and `NoGroup` as a pattern gives them.
pub fn cook_blast<'b>(
    alloc: Global,
    vault: &mut Vault<'b>,
    parms: &Parms,
    input: GeoKey,
) -> Result<GeoKey, CookStop>
    requires live { IsLive vault.old.geos input }
    requires values { AreValues (parms_of type.Blast) parms.now }
    ensures { (g : Geo) → at vault.old.geos input ≡ Some g → Gives vault.old vault.new (limited (blast_geo parms.now g)) result }
{
    let class = class_in(parms.text(0));
    let flags = match selected(alloc, vault, input, class, parms.text(1)) {
        Ok(flags) => flags,
        Err(stop) => return Err(stop),
    };
    let negate = is_on(parms.text(2));
    let unused = is_on(parms.text(3));
    let marks = marks_on(alloc, &vault.view(input), class, &flags, negate, unused)?;
    let key = vault.share(input)?;
    let made = sweep(vault, key, &marks);
    finish(vault, key, made)
}

/// Takes away the marked elements, and what can't stay without them.
fn sweep<'b>(vault: &mut Vault<'b>, key: GeoKey, marks: &Marks) -> Result<(), CookStop>
    requires { IsSomeAnd (at vault.old.geos key) (λ g. AreMarksOf g marks.now) }
    ensures { (g : Geo) → at vault.old.geos key ≡ Some g → Makes vault.old vault.new key (Ok (swept g marks.now)) result }
{
    if let Err(end) = vault.keep(key, marks) {
        return Err(stop_of(end));
    }
    Ok(())
}

/// A parameter that is `0` or `1`.
fn is_on(text: &str) -> bool
    ensures { result ≡ is_on text.now }
{
    text == "1"
}
