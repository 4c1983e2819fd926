// What a group pattern selects of a geometry in a vault.
ghost use Rattle.std.specs.Prelude.{◌≡◌, ◌≤◌, length, Some, Ok, IfOk, IfErr};
ghost use Rattle.sop_model.specs.declared.geo.Geo.{Geo};
ghost use Rattle.sop_model.specs.Limits.{most_pattern_bytes};
ghost use Rattle.sop_vault.specs.Keyed.{at, IsLive};
ghost use Rattle.sop_basic.specs.Selecting.{by_pattern, pattern_stop, StopsWith};

use sop_model::{Class, CookStop, Fault};
use sop_pattern::{Pattern, PatternFault};
use sop_vault::{GeoKey, Vault};
use std::alloc::Global;

/// A flag for each element of a class: whether the pattern of a text selects it. `BadGroup` has the number of the first bad word, from 0,
/// else `NoGroup` that of the first word that is a name which no group of the class has.
pub fn selected<'b>(
    alloc: Global,
    vault: &Vault<'b>,
    key: GeoKey,
    class: Class,
    text: &str,
) -> Result<Vec<bool>, CookStop>
    requires live { IsLive vault.now.geos key }
    requires short { length text.now ≤ most_pattern_bytes }
    ensures ok { (g : Geo) → at vault.now.geos key ≡ Some g → IfOk result (λ flags. by_pattern g class text.now ≡ Ok flags.items) }
    ensures err { (g : Geo) → at vault.now.geos key ≡ Some g → IfErr result (StopsWith (by_pattern g class text.now)) }
{
    let pattern = match Pattern::read(alloc, text) {
        Ok(pattern) => pattern,
        Err(fault) => return Err(pattern_stop(fault)),
    };
    match pattern.select(alloc, &vault.view(key), class) {
        Ok(flags) => Ok(flags),
        Err(fault) => Err(pattern_stop(fault)),
    }
}

/// What the fault of a pattern is at a node.
fn pattern_stop(fault: PatternFault) -> CookStop
    ensures { result ≡ pattern_stop fault }
{
    match fault {
        PatternFault::BadWord(word) => CookStop::Fault(Fault::BadGroup(word)),
        PatternFault::NoGroup(word) => CookStop::Fault(Fault::NoGroup(word)),
        PatternFault::Memory => CookStop::Memory,
    }
}
