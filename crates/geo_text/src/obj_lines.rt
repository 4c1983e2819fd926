// The lines of an OBJ text, one after the other.
ghost use Rattle.std.specs.Prelude.{◌≡◌, ◌≤◌, [], None, Ok, Result, OnOk, IfErr};
ghost use Rattle.geo_text.specs.ObjLines.{joined};
ghost use Rattle.geo_text.specs.ObjMeaning.{Refusal, Piece, counts_of, no_counts};
ghost use Rattle.geo_text.specs.ObjScan.{ends_in};
ghost use Rattle.geo_text.specs.ObjReferences.{AreCounts};
ghost use Rattle.geo_text.specs.ObjRun.{IsRefused};
ghost use Rattle.geo_text.specs.ObjLoop.{IsTold, number_at, said_at, outcome, geo_taken};

use crate::obj_fault::ObjFault;
use crate::reader::{LineFault, State};
use crate::scan::{ends_in, next_line};
use crate::taker::ObjTaker;
use crate::totals::Totals;
use std::alloc::Global;

/// What a fault in a line of the text is.
fn fault_at(text: &[u8], line: &[u8], fault: LineFault) -> ObjFault
    requires { ends_in (joined line.now) ≤ ends_in (joined text.now) }
    ensures { (r : Result Piece Refusal) → IsRefused (number_at (ends_in (joined text.now)) (joined line.now)) fault r → IsTold result r }
{
    let number = (ends_in(text) - ends_in(line)) as u64 + 1;
    match fault {
        LineFault::Number => ObjFault::Number(number),
        LineFault::Index => ObjFault::Index(number),
        LineFault::Memory => ObjFault::Memory,
    }
}

/// Judges the lines of a text, and takes what they say.
pub(crate) fn read_lines<T: ObjTaker>(
    alloc: Global,
    text: &[u8],
    totals: &Totals,
    taker: &mut T,
) -> Result<(), ObjFault>
    requires totals { AreCounts totals.now.counts }
    requires counts { counts_of (said_at (ends_in (joined text.now)) (joined text.now)) ≡ totals.now.counts }
    ensures attributes { OnOk result (T.attributes taker.new ≡ T.attributes taker.old) }
    ensures ok { OnOk result (geo_taken (outcome (T.attributes taker.old) totals.now no_counts (said_at (ends_in (joined text.now)) (joined text.now)) (record { geo = T.taken taker.old; groups = []; flags = None })) ≡ Ok (T.taken taker.new)) }
    ensures err { IfErr result (λ f. IsTold f (outcome (T.attributes taker.old) totals.now no_counts (said_at (ends_in (joined text.now)) (joined text.now)) (record { geo = T.taken taker.old; groups = []; flags = None }))) }
{
    let mut state = State::new(alloc);
    let mut left = Some(text);
    while let Some(line) = left {
        if let Err(fault) = state.read_line(alloc, line, totals, taker) {
            return Err(fault_at(text, line, fault));
        }
        left = next_line(line);
    }
    Ok(())
}
