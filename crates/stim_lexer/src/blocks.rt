/// How deep blocks may stand inside one another.
pub const LEVELS: usize = 32;

/// A block that is open: its turns, and the state of a pass before it.
#[derive(Clone, Copy, Default)]
pub struct OpenBlock<S> {
    pub turns: u64,
    pub before: S,
}
