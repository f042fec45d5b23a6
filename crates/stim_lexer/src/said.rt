use step_model::Cause;

/// What a line says; the targets of an instruction are kept apart.
#[derive(Clone, Copy)]
pub enum Said<'a, O> {
    /// An instruction, and what stands in its parentheses.
    Accepts { operation: O, arguments: &'a [u8] },
    /// The start of a block of this many turns.
    Opens(u64),
    /// The end of a block.
    Closes,
    Refuses(Cause),
}
