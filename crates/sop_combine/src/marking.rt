// Marks on elements of one class, by flags.
ghost use Rattle.std.specs.Prelude.{◌≡◌, length, IfOk, if◌then◌else◌};
ghost use Rattle.sop_model.specs.Geometry.{count_of, IsReadable};
ghost use Rattle.sop_combine.specs.Blast.{chosen, marks_on};
ghost use Rattle.sop_combine.specs.Marked.{marked_at, HasMark};

use sop_model::{Class, GeoView};
use sop_rows::Marks;
use std::alloc::{AllocError, Global};

/// Marks on the elements of a class that these flags select, or with `negate` on all others; on primitives with their points where
/// `and_points` is set. The detail is never marked.
pub fn marks_on<V: GeoView>(
    alloc: Global,
    view: &V,
    class: Class,
    flags: &[bool],
    negate: bool,
    and_points: bool,
) -> Result<Marks, AllocError>
    requires readable { IsReadable (V.geo view.now) }
    requires each { length flags.now ≡ count_of (V.geo view.now) class }
    ensures { IfOk result (λ marks. marks ≡ marks_on (V.geo view.now) class and_points (chosen negate flags.now)) }
{
    let mut marks = Marks::for_view(alloc, view)?;
    for element in 0..view.count(class) {
        mark_if(
            &mut marks,
            class,
            element,
            and_points,
            flags[element as usize] != negate,
        );
    }
    Ok(marks)
}

/// Marks an element, where it is to be marked.
fn mark_if(marks: &mut Marks, class: Class, element: u32, and_points: bool, on: bool)
    requires { HasMark marks.old class element }
    ensures { marks.new ≡ (if on then marked_at marks.old class element and_points else marks.old) }
{
    if on {
        mark(marks, class, element, and_points);
    }
}

fn mark(marks: &mut Marks, class: Class, element: u32, and_points: bool)
    requires { HasMark marks.old class element }
    ensures { marks.new ≡ marked_at marks.old class element and_points }
{
    match class {
        Class::Detail => {}
        Class::Prim => marks.mark_prim(element, and_points),
        Class::Point => marks.mark_point(element),
        Class::Vertex => marks.mark_vertex(element),
    }
}
