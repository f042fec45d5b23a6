ghost use Rattle.std.specs.Prelude.{◌≡◌, ◌==◌, ◌<◌, ◌&&◌, ◌||◌, ℕ, false, not};
ghost use Rattle.stim_parser.specs.Numbers.{most_qubits};
ghost use Rattle.stim_parser.specs.private.QubitSets.{is_named};

/// A set of qubits, by a bit for each that a circuit may have. It takes no memory from an allocator.
#[derive(Drop)]
pub(crate) struct QubitSet {
    words: [u64; 64],
}

impl QubitSet {
    /// The empty set.
    pub(crate) fn new() -> Self
        ensures { (q : ℕ) → is_named result.words q ≡ false }
    {
        QubitSet { words: [0; 64] }
    }

    /// Whether a qubit is in the set.
    pub(crate) fn contains(&self, qubit: u64) -> bool
        requires { qubit < most_qubits }
        ensures { result ≡ is_named self.now.words qubit }
    {
        (self.words[(qubit / 64) as usize] >> (qubit % 64)) & 1 == 1
    }

    /// Puts a qubit in.
    pub(crate) fn insert(&mut self, qubit: u64)
        requires { qubit < most_qubits }
        ensures { (q : ℕ) → is_named self.new.words q ≡ (q == qubit || is_named self.old.words q) }
    {
        self.words[(qubit / 64) as usize] |= 1u64 << (qubit % 64);
    }

    /// Takes a qubit out.
    pub(crate) fn remove(&mut self, qubit: u64)
        requires { qubit < most_qubits }
        ensures { (q : ℕ)
            → is_named self.new.words q ≡ (not (q == qubit) && is_named self.old.words q) }
    {
        self.words[(qubit / 64) as usize] &= !(1u64 << (qubit % 64));
    }
}
