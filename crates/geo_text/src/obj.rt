//! Geometries read from OBJ texts.
ghost use Rattle.std.specs.Prelude.{◌≡◌, Ok, OnOk, IfOk, IfErr};
ghost use Rattle.sop_model.specs.Geometry.{IsGood, Fits, AreValuesWithin};
ghost use Rattle.geo_text.specs.ObjMeaning.{meaning};
ghost use Rattle.geo_text.specs.ObjLoop.{IsTold};

use crate::geo_maker::GeoMaker;
use crate::obj_fault::ObjFault;
use crate::obj_lines::read_lines;
use crate::scan::without_mark;
use crate::survey::survey_lines;
use crate::taker::ObjTaker;
use sop_model::Geo;
use std::alloc::Global;

/// Reads an OBJ text into what takes geometries. It goes over the bytes twice, first to count and then to judge, and keeps the
/// texture coordinates, the normals and the vertices of one line. `Limit` where there are more than 1,000,000 points, 4,000,000
/// vertices or 1,000,000 primitives, whatever else is wrong; else `Number` or `Index` for the first line that is refused, by its
/// first word and in that by its first part; `Memory` for want of memory. After an `Err` what was taken is of no use.
pub fn take_obj<T: ObjTaker>(alloc: Global, bytes: &[u8], taker: &mut T) -> Result<(), ObjFault>
    ensures ok { OnOk result (meaning bytes.now ≡ Ok (T.taken taker.new)) }
    ensures good { OnOk result (IsGood (T.taken taker.new) × Fits (T.taken taker.new) × AreValuesWithin (T.taken taker.new)) }
    ensures err { IfErr result (λ f. IsTold f (meaning bytes.now)) }
{
    let text = without_mark(bytes);
    let survey = match survey_lines(alloc, text) {
        Ok(survey) => survey,
        Err(fault) => return Err(fault),
    };
    let room = survey.room();
    let totals = survey.into_totals();
    taker.begin(totals.attributes, room)?;
    read_lines(alloc, text, &totals, taker)
}

/// The geometry of an OBJ text; the faults are those of `take_obj`.
pub fn read_obj(alloc: Global, bytes: &[u8]) -> Result<Geo, ObjFault>
    ensures ok { IfOk result (λ geo. meaning bytes.now ≡ Ok geo) }
    ensures good { IfOk result (λ geo. IsGood geo × Fits geo × AreValuesWithin geo) }
    ensures err { IfErr result (λ f. IsTold f (meaning bytes.now)) }
{
    let mut maker = GeoMaker::new(alloc);
    if let Err(fault) = take_obj(alloc, bytes, &mut maker) {
        return Err(fault);
    }
    Ok(maker.into_geo()?)
}
