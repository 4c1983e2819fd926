// What no clause says: that the calls succeed with memory at hand.
use crate::{ObjFault, read_obj, write_obj};
use std::test::Fail;

#[test]
fn a_whole_text_is_read(rt: HostRuntime) -> Result<(), Fail> {
    let geo = read_obj(
        rt.alloc(),
        b"v 0 0 0 1 0 0\r\nv 1 0 \\\r\n0\nvt 0.5\nvn 0 0 1\ng a b\nf 1/1 2//-1\ng b 1\nl -1 1/1/1 # x\n",
    )
    .expect(&rt, "it is an OBJ text");
    assert_eq!(rt; geo.points.len(), 2);
    assert_eq!(rt; geo.prims.len(), 2);
    assert_eq!(rt; geo.prims.vertices(), 4);
    assert_eq!(rt; geo.point.heads.len(), 2);
    assert_eq!(rt; geo.vertex.heads.len(), 2);
    assert_eq!(rt; geo.prim.groups.len(), 3);
    assert!(rt; geo.prims.get(0).closed);
    assert!(rt; !geo.prims.get(1).closed);
    assert!(rt; *geo.prims.get(1).row.flags.get(2));
    Ok(())
}

#[test]
fn a_line_that_is_refused_is_told(rt: HostRuntime) -> Result<(), Fail> {
    let number = read_obj(rt.alloc(), b"#\\\n\nv 0 0\\\n\nv 0\n");
    assert!(rt; matches!(&number, Err(ObjFault::Number(3))));
    let index = read_obj(rt.alloc(), b"v 0 0 0\nf 1 -0 x\n");
    assert!(rt; matches!(&index, Err(ObjFault::Index(2))));
    Ok(())
}

#[test]
fn a_whole_text_comes_back(rt: HostRuntime) -> Result<(), Fail> {
    let read = read_obj(
        rt.alloc(),
        b"v 0 0 0 1 0 0\nv 1 0 0\nvt 0.5\nvn 0 0 1\ng a b\nf 1/1 2//-1\nf 2\ng\nl 1//1\ng 1\nf 1\n",
    )
    .expect(&rt, "it is an OBJ text");
    let text = write_obj(rt.alloc(), &read)?;
    let wanted =
        b"v 0 0 0 1 0 0\nv 1 0 0 0 0 0\nvt 0.5 0 0\nvt 0 0 0\nvt 0 0 0\nvt 0 0 0\nvt 0 0 0\nvn 0 0 0\nvn 0 0 1\nvn 0 0 0\nvn 0 0 1\nvn 0 0 0\ng a b\nf 1/1/1 2/2/2\nf 2/3/3\ng\nl 1/4\ng _1\nf 1/5/5\n";
    assert_eq!(rt; text.as_slice(), &wanted[..]);
    Ok(())
}
