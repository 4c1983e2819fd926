// The four classes of elements.

/// What an attribute or a group stands on. A geometry has one detail element.
#[derive(Clone, Copy, Debug, PartialEq, Eq)]
pub enum Class {
    Detail,
    Prim,
    Point,
    Vertex,
}
