//! The digits of qubits' numbers.
ghost use Rattle.std.specs.Prelude.{◌≡◌, ◌<◌, ◌≤◌, ◌+◌, ◌++◌, decimal, length, nat_lt, take};
ghost use Rattle.fault_list.specs.private.QubitNames.{IsName};

use crate::counter::digits_of;
use crate::put::put_first;
use std::marker::Model;

/// How many qubits have a name at most. A circuit that is read from a text has no more.
const NAMED: usize = 4096;

/// How many digits a named qubit has at most.
const NAME: usize = 4;

/// The digits of a qubit's number, at the start of a fixed number of bytes, so that all of them are copied at once.
#[derive(Clone, Copy, Drop)]
struct Name {
    digits: [u8; NAME],
    len: u32,
}

/// The digits of the first qubits, each at the qubit's place. In contracts, how many these are.
#[derive(Drop)]
pub(crate) struct QubitNames {
    names: [Name; NAMED],
    count: usize,
}

impl Model for QubitNames {
    ghost use Rattle.std.specs.Prelude.{◌≤◌, ℕ};
    ghost use Rattle.fault_list.specs.private.QubitNames.{AreNames};

    ghost Value = { ℕ };

    ghost view = { λ n. n.count };

    ghost invariant = { λ n. (n.count ≤ 4096) × AreNames n.count n.names };
}

impl QubitNames {
    /// Those of this many qubits, or of as many as there is room for.
    pub(crate) fn new(qubits: u32) -> Self {
        let count = NAMED.min(qubits as usize);
        let none = Name {
            digits: [b'0'; NAME],
            len: 0,
        };
        let mut names = [none; NAMED];
        for qubit in 0..count {
            names[qubit] = name_of(qubit as u32);
        }
        QubitNames { names, count }
    }

    /// Whether a qubit has a name here.
    #[inline(always)]
    pub(crate) fn has(&self, qubit: u32) -> bool
        ensures { result ≡ nat_lt qubit self.now }
    {
        (qubit as usize) < self.count
    }

    /// Puts the number of a qubit that has a name here at `at`, and answers where it ends.
    #[inline(always)]
    pub(crate) fn put(&self, buffer: &mut [u8], at: usize, qubit: u32) -> usize
        requires named { qubit < self.now }
        requires room { at + NAME ≤ length buffer.old }
        ensures from { at ≤ result }
        ensures within { result ≤ at + NAME }
        ensures written { take result buffer.new ≡ take at buffer.old ++ decimal qubit }
    {
        let name = self.names[qubit as usize];
        put_first(buffer, at, name.digits, name.len as usize)
    }
}

#[inline(never)]
fn name_of(qubit: u32) -> Name
    requires { qubit < NAMED }
    ensures { IsName qubit result }
{
    let (text, len) = digits_of(qubit);
    let mut digits = [0; NAME];
    digits.copy_from_slice(&text[..NAME]);
    Name {
        digits,
        len: len as u32,
    }
}
