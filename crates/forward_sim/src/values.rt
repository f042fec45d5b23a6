ghost use Rattle.std.specs.Prelude.{◌≡◌, false, slice_index_or};

/// The value at an index, false past the end.
pub(crate) fn value_at(values: &[bool], index: u32) -> bool
    ensures { result ≡ slice_index_or values.now index false }
{
    let index = index as usize;
    index < values.len() && values[index]
}
