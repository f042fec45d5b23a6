//! Words that collapses replaced, as they are kept and as they are handed out.
ghost use Rattle.std.specs.Prelude.{◌≡◌, option_map};
ghost use Rattle.forward_sim.specs.References.{entry_of, terms_in};
ghost use Rattle.forward_sim.specs.private.Kept.{terms_listed};

/// A word up to its sign: the qubits with X, and those with Z. A qubit with Y is in both.
#[derive(Clone, Copy)]
pub struct ReplacedWord<'a> {
    pub xs: &'a [u16],
    pub zs: &'a [u16],
}

/// The word that a list of numbers stands for, if any: how many qubits have X, these qubits, and then those with Z.
#[inline(always)]
pub(crate) fn word_listed(list: &[u16]) -> Option<ReplacedWord<'_>>
    ensures { option_map terms_in result ≡ entry_of (terms_listed list.now) }
{
    if list.len() < 2 {
        return None;
    }
    let qubits = &list[1..];
    let count = (list[0] as usize).min(qubits.len());
    Some(ReplacedWord {
        xs: &qubits[..count],
        zs: &qubits[count..],
    })
}
