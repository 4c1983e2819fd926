// What no clause says: that the calls succeed with memory at hand.
use crate::{Pattern, PatternFault, atoms_are_spelled, matches};
use sop_fixed::{Real, Vec3};
use sop_model::samples::grouped_point;
use sop_model::{Class, Geo};
use std::test::Fail;

#[test]
fn words_select_points(rt: HostRuntime) -> Result<(), Fail> {
    let x = Real::of_millionths(0).expect(&rt, "in range");
    let geo = grouped_point(rt.alloc(), Vec3 { x, y: x, z: x })?;
    for (text, selected) in [
        ("", true),
        ("0", true),
        ("1-9:2 7", false),
        ("^0 0-0:1,2", true),
        ("* ^g", false),
        ("!*", false),
        ("?", true),
        ("!g*", false),
    ] {
        let pattern = Pattern::read(rt.alloc(), text).expect(&rt, "no bad word");
        let flags = pattern.select(rt.alloc(), &geo, Class::Point);
        assert_eq!(rt;
            flags.expect(&rt, "no missing group").as_slice(),
            &[selected][..]
        );
    }
    Ok(())
}

#[test]
fn faults_name_their_word(rt: HostRuntime) -> Result<(), Fail> {
    let geo = Geo::empty(rt.alloc())?;
    assert!(rt; Pattern::read(rt.alloc(), "1 2x").err() == Some(PatternFault::BadWord(1)));
    let pattern = Pattern::read(rt.alloc(), "0 g").expect(&rt, "no bad word");
    let flags = pattern.select(rt.alloc(), &geo, Class::Point);
    assert!(rt; flags.err() == Some(PatternFault::NoGroup(1)));
    assert!(rt; matches(b"a*b*c", b"a_b_b_c"));
    atoms_are_spelled(b"a*b*c");
    Ok(())
}
