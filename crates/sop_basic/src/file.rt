// `file`: the geometry of an OBJ text.
ghost use Rattle.std.specs.Prelude.{◌≡◌};
ghost use Rattle.sop_model.specs.Geometry.{IsGood, Fits, AreValuesWithin};
ghost use Rattle.geo_text.specs.ObjColumns.{columns_geo};
ghost use Rattle.geo_text.specs.ObjMeaning.{meaning};
ghost use Rattle.sop_net.specs.declared.node_type.NodeType.TheVariants as type;
ghost use Rattle.sop_net.specs.NodeTable.{parms_of};
ghost use Rattle.sop_net.specs.Network.{AreValues, parm_at};
ghost use Rattle.sop_basic.specs.Loads.{file_in};
ghost use Rattle.sop_basic.specs.Making.{Gives};
ghost use Rattle.sop_basic.specs.Outcomes.{limited, within_limits};
ghost use Rattle.sop_basic.specs.File.{file_geo, of_text, stop_of_text};

use crate::loaded::{Loaded, LoadedFile};
use geo_text::{ObjColumns, ObjFault, take_obj};
use sop_model::{CookStop, Fault};
use sop_net::Parms;
use sop_vault::{GeoKey, Vault};
use std::alloc::Global;

/// Cooks a `file` node: a new key. `NoFile` where there is no load of its file, or it is missing; `Limit` where it was too long, or its
/// text is past a limit of OBJ; `Number` or `Index` with the line that is refused.
pub fn cook_file<'b>(
    alloc: Global,
    vault: &mut Vault<'b>,
    parms: &Parms,
    loaded: &Loaded,
) -> Result<GeoKey, CookStop>
    requires { AreValues (parms_of type.File) parms.now }
    ensures { Gives vault.old vault.new (limited (file_geo (file_in loaded.now (parm_at parms.now 0)))) result }
{
    match loaded.get(parms.text(0)) {
        Some(LoadedFile::Bytes(bytes)) => read_bytes(alloc, vault, bytes.as_slice()),
        Some(LoadedFile::TooLong) => Err(CookStop::Fault(Fault::Limit)),
        Some(LoadedFile::Missing) => Err(CookStop::Fault(Fault::NoFile)),
        None => Err(CookStop::Fault(Fault::NoFile)),
    }
}

/// A new key of the geometry of a text of these bytes. It goes from the text into columns and from these into the vault, so that its rows are
/// never made.
fn read_bytes<'b>(alloc: Global, vault: &mut Vault<'b>, bytes: &[u8]) -> Result<GeoKey, CookStop>
    ensures { Gives vault.old vault.new (limited (of_text (meaning bytes.now))) result }
{
    let mut columns = ObjColumns::new(alloc)?;
    match take_obj(alloc, bytes, &mut columns) {
        Ok(()) => load(vault, &columns),
        Err(fault) => Err(stop_of_text(fault)),
    }
}

/// A new key of a geometry in columns that passes no limit.
fn load<'b>(vault: &mut Vault<'b>, columns: &ObjColumns) -> Result<GeoKey, CookStop>
    requires good { IsGood (columns_geo columns.now) }
    requires fits { Fits (columns_geo columns.now) }
    requires values { AreValuesWithin (columns_geo columns.now) }
    ensures { Gives vault.old vault.new (within_limits (columns_geo columns.now)) result }
{
    Ok(vault.load(columns)?)
}

/// What a text that gives no geometry is at a node.
fn stop_of_text(fault: ObjFault) -> CookStop
    ensures { result ≡ stop_of_text fault }
{
    match fault {
        ObjFault::Number(line) => CookStop::Fault(Fault::Number(line)),
        ObjFault::Index(line) => CookStop::Fault(Fault::Index(line)),
        ObjFault::Limit => CookStop::Fault(Fault::Limit),
        ObjFault::Memory => CookStop::Memory,
    }
}
