/// Collapses one after another, from one with a number up to another. A collapse is the projective measurement inside a
/// measurement or a reset.
#[derive(Clone, Copy)]
pub struct Span {
    pub start: usize,
    pub end: usize,
}
