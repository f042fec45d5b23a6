ghost use Rattle.std.specs.Prelude.{◌≡◌, ◌<◌, ◌≤◌, ◌+◌, ◌^◌, ◌++◌, map, count_by, length, reverse, take, true, All, IfOk, IfSome, OnOk};
ghost use Rattle.bit_rows.specs.Rows.{xor_rows};
ghost use Rattle.pauli_word.specs.Bits.{x_bit, z_bit, letters_of};
ghost use Rattle.pauli_word.specs.declared.letter.Letter.TheVariants.{I, X, Y, Z};
ghost use Rattle.pauli_word.specs.Letters.{letters_clash};
ghost use Rattle.pauli_word.specs.Words.{letters_product, no_letters};
ghost use Rattle.step_model.specs.TargetSets.{members};
ghost use Rattle.trackers.specs.private.Transposed.{combined, xor_where, times_each, column_of, lists_of};

use crate::descending::FEW;
use crate::target_set::{TargetSet, add_where, make_set, toggle_where};
use flat_lists::FlatLists;
use pauli_word::Letter;
use std::alloc::{AllocError, Allocator};
use std::marker::Model;

/// The letters that all words have at one qubit: the targets whose letter has an X in it, and those whose letter has
/// a Z, where Y has both.
pub(crate) struct Column<S: TargetSet> {
    x: S,
    z: S,
}

impl<S: TargetSet> Model for Column<S> {
    ghost use Rattle.std.specs.Prelude.{◌≡◌, List, length};
    ghost use Rattle.pauli_word.specs.declared.letter.Letter.{Letter};
    ghost use Rattle.pauli_word.specs.Bits.{letters_of};

    ghost Value = { List Letter };

    ghost view = { λ c. letters_of (S.bits c.x) (S.bits c.z) };

    ghost invariant = { λ c. length (S.bits c.x) ≡ length (S.bits c.z) };
}

// Written out, so that it is a call in the proof of each function that owns one.
impl<S: TargetSet> Drop for Column<S> {
    fn drop(self) {
        let Column { x, z } = self;
        drop(x);
        drop(z);
    }
}

impl<S: TargetSet> Column<S> {
    /// The letters that two copies of a set make.
    pub(crate) fn of_copies(set: &S) -> Result<Self, AllocError>
        ensures { IfOk result (λ column. column ≡ letters_of (S.bits set.now) (S.bits set.now)) }
    {
        let x = set.copy()?;
        let z = set.copy()?;
        Ok(Column { x, z })
    }

    /// Appends the lists of the targets whose letter has an X in it, and of those whose letter has a Z. `list` is a
    /// buffer.
    pub(crate) fn keep<B: Allocator + Copy>(
        &self,
        lists: &mut FlatLists<u32, B>,
        list: &mut Vec<u32, B>,
    ) -> Result<(), AllocError>
        requires { length self.now ≤ 2 ^ 32 }
        ensures { OnOk result (lists.new ≡ lists.old ++ lists_of self.now) }
    {
        self.x.list(list)?;
        lists.push(list.as_slice())?;
        self.z.list(list)?;
        lists.push(list.as_slice())
    }

    /// Makes the letters those for which such lists stand.
    pub(crate) fn restore(&mut self, x: &[u32], z: &[u32]) -> Result<(), AllocError>
        requires x { All (λ t. t < length self.old) x.now }
        requires z { All (λ t. t < length self.old) z.now }
        ensures ok { OnOk result (self.new ≡ column_of (length self.old) x.now z.now) }
        ensures len { length self.new ≡ length self.old }
    {
        make_set(&mut self.x, x)?;
        make_set(&mut self.z, z)
    }

    /// Makes every letter I.
    pub(crate) fn clear(&mut self)
        ensures { self.new ≡ no_letters (length self.old) }
    {
        self.x.clear();
        self.z.clear();
    }

    /// Exchanges two columns.
    pub(crate) fn swap(&mut self, other: &mut Column<S>)
        ensures first { self.new ≡ other.old }
        ensures second { other.new ≡ self.old }
    {
        std::mem::swap(self, other);
    }

    /// Makes each letter the image of that of another column, from the images of X and Z.
    pub(crate) fn set_image(
        &mut self,
        from: &Column<S>,
        x: Letter,
        z: Letter,
        spare: &mut S,
    ) -> Result<(), AllocError>
        requires from { length from.now ≡ length self.old }
        requires spare { length (S.bits spare.old) ≡ length self.old }
        ensures ok { OnOk result (self.new ≡ map (combined x z) from.now) }
        ensures len { length self.new ≡ length self.old }
        ensures spare { length (S.bits spare.new) ≡ length (S.bits spare.old) }
    {
        self.clear();
        self.add_image(from, x, z, spare)
    }

    /// Makes each letter the product of the images of those of two columns, from the images of X and Z at each.
    pub(crate) fn set_images(
        &mut self,
        first: &Column<S>,
        second: &Column<S>,
        of_first: (Letter, Letter),
        of_second: (Letter, Letter),
        spare: &mut S,
    ) -> Result<(), AllocError>
        requires first { length first.now ≡ length self.old }
        requires second { length second.now ≡ length self.old }
        requires spare { length (S.bits spare.old) ≡ length self.old }
        ensures ok { OnOk result
            (self.new
            ≡ letters_product (map (combined of_first.0 of_first.1) first.now)
            (map (combined of_second.0 of_second.1) second.now)) }
        ensures len { length self.new ≡ length self.old }
        ensures spare { length (S.bits spare.new) ≡ length (S.bits spare.old) }
    {
        self.set_image(first, of_first.0, of_first.1, spare)?;
        self.add_image(second, of_second.0, of_second.1, spare)
    }

    /// Makes each letter its image, from the images of X and Z. What the spare column held is lost.
    pub(crate) fn become_image(
        &mut self,
        x: Letter,
        z: Letter,
        other: &mut Column<S>,
        spare: &mut S,
    ) -> Result<(), AllocError>
        requires other { length other.old ≡ length self.old }
        requires spare { length (S.bits spare.old) ≡ length self.old }
        ensures ok { OnOk result (self.new ≡ map (combined x z) self.old) }
        ensures len { length self.new ≡ length self.old }
        ensures other { length other.new ≡ length other.old }
        ensures spare { length (S.bits spare.new) ≡ length (S.bits spare.old) }
    {
        match (x, z) {
            (Letter::X, Letter::Z) => Ok(()),
            (Letter::Z, Letter::X) => {
                self.exchange();
                Ok(())
            }
            (Letter::Y, Letter::Z) => self.add_x_to_z(spare),
            (Letter::X, Letter::Y) => self.add_z_to_x(spare),
            _ => {
                other.set_image(self, x, z, spare)?;
                self.swap(other);
                Ok(())
            }
        }
    }

    /// Puts Z for X, and X for Z.
    pub(crate) fn exchange(&mut self)
        ensures { self.new ≡ map (combined Z X) self.old }
    {
        std::mem::swap(&mut self.x, &mut self.z);
    }

    // Puts Y for X, and X for Y.
    fn add_x_to_z(&mut self, spare: &mut S) -> Result<(), AllocError>
        requires { length (S.bits spare.old) ≡ length self.old }
        ensures ok { OnOk result (self.new ≡ map (combined Y Z) self.old) }
        ensures len { length self.new ≡ length self.old }
        ensures spare { length (S.bits spare.new) ≡ length (S.bits spare.old) }
    {
        self.z.add(&self.x, spare)
    }

    // Puts Y for Z, and Z for Y.
    fn add_z_to_x(&mut self, spare: &mut S) -> Result<(), AllocError>
        requires { length (S.bits spare.old) ≡ length self.old }
        ensures ok { OnOk result (self.new ≡ map (combined X Y) self.old) }
        ensures len { length self.new ≡ length self.old }
        ensures spare { length (S.bits spare.new) ≡ length (S.bits spare.old) }
    {
        self.x.add(&self.z, spare)
    }

    /// Multiplies each letter by the image of that of another column, from the images of X and Z.
    #[inline(always)]
    pub(crate) fn add_image(
        &mut self,
        from: &Column<S>,
        x: Letter,
        z: Letter,
        spare: &mut S,
    ) -> Result<(), AllocError>
        requires from { length from.now ≡ length self.old }
        requires spare { length (S.bits spare.old) ≡ length self.old }
        ensures ok { OnOk result
            (self.new ≡ letters_product self.old (map (combined x z) from.now)) }
        ensures len { length self.new ≡ length self.old }
        ensures spare { length (S.bits spare.new) ≡ length (S.bits spare.old) }
    {
        from.add_parts(has_x(x), has_x(z), &mut self.x, spare)?;
        from.add_parts(has_z(x), has_z(z), &mut self.z, spare)
    }

    /// Toggles the targets whose letter here clashes with this one.
    pub(crate) fn toggle_clashing(
        &self,
        letter: Letter,
        set: &mut S,
        spare: &mut S,
    ) -> Result<(), AllocError>
        requires set { length (S.bits set.old) ≡ length self.now }
        requires spare { length (S.bits spare.old) ≡ length self.now }
        ensures ok { OnOk result
            (S.bits set.new ≡ xor_rows (S.bits set.old) (map (letters_clash letter) self.now)) }
        ensures len { length (S.bits set.new) ≡ length (S.bits set.old) }
        ensures spare { length (S.bits spare.new) ≡ length (S.bits spare.old) }
    {
        self.add_parts(has_z(letter), has_x(letter), set, spare)
    }

    // Toggles the targets whose letter has an X in it, where `x`, and those whose letter has a Z, where `z`.
    #[inline(always)]
    fn add_parts(&self, x: bool, z: bool, set: &mut S, spare: &mut S) -> Result<(), AllocError>
        requires set { length (S.bits set.old) ≡ length self.now }
        requires spare { length (S.bits spare.old) ≡ length self.now }
        ensures ok { OnOk result
            (S.bits set.new
            ≡ xor_where z (xor_where x (S.bits set.old) (map x_bit self.now))
            (map z_bit self.now)) }
        ensures len { length (S.bits set.new) ≡ length (S.bits set.old) }
        ensures spare { length (S.bits spare.new) ≡ length (S.bits spare.old) }
    {
        add_where(x, set, &self.x, spare)?;
        add_where(z, set, &self.z, spare)
    }

    /// The set of the targets whose letter here clashes with this one, where it is kept: an X clashes with a Z in a
    /// letter, and a Z with an X.
    #[inline(always)]
    pub(crate) fn kept_clashing(&self, letter: Letter) -> Option<&S>
        ensures { IfSome result (λ set. S.bits set.now ≡ map (letters_clash letter) self.now) }
    {
        // Two comparisons, and no jump table.
        if is_x(letter) {
            Some(&self.z)
        } else if is_z(letter) {
            Some(&self.x)
        } else {
            None
        }
    }

    /// How many letters there are, a Y being two.
    #[inline(always)]
    pub(crate) fn letter_count(&self) -> usize
        requires { length self.now ≤ 2 ^ 32 }
        ensures { result ≡ count_by x_bit self.now + count_by z_bit self.now }
    {
        self.x.count() + self.z.count()
    }

    /// Puts the targets for which just one of their letters in two columns clashes with Y at the start of `sum`, from the
    /// greatest down, and answers how many these are, where it does: it need not.
    pub(crate) fn sum_clashing_y(&self, other: &Column<S>, sum: &mut [u32; FEW]) -> Option<usize>
        requires { length self.now ≡ length other.now }
        ensures within { IfSome result (λ len. len ≤ FEW) }
        ensures sum { IfSome result (λ len. reverse (take len sum.new)
            ≡ members
            (xor_rows (map (letters_clash Y) self.now) (map (letters_clash Y) other.now))) }
    {
        self.x.sum_few_of_four(&self.z, &other.x, &other.z, sum)
    }

    /// Multiplies the letters of these targets by a letter. What the sets held is lost.
    pub(crate) fn times_each(
        &mut self,
        targets: &[u32],
        letter: Letter,
        set: &mut S,
        spare: &mut S,
    ) -> Result<(), AllocError>
        requires targets { All (λ t. t < length self.old) targets.now }
        requires set { length (S.bits set.old) ≡ length self.old }
        requires spare { length (S.bits spare.old) ≡ length self.old }
        ensures ok { OnOk result (self.new ≡ times_each letter targets.now self.old) }
        ensures len { length self.new ≡ length self.old }
        ensures set { length (S.bits set.new) ≡ length (S.bits set.old) }
        ensures spare { length (S.bits spare.new) ≡ length (S.bits spare.old) }
    {
        toggle_where(has_x(letter), &mut self.x, targets, set, spare)?;
        toggle_where(has_z(letter), &mut self.z, targets, set, spare)
    }
}

/// Multiplies the letters of each of two columns by an image of those of the other. What the first is multiplied by has
/// the image I at the second, so the order doesn't matter.
#[inline(always)]
pub(crate) fn multiply_both<S: TargetSet>(
    first: &mut Column<S>,
    second: &mut Column<S>,
    to_first: (Letter, Letter),
    to_second: (Letter, Letter),
    spare: &mut S,
) -> Result<(), AllocError>
    requires same { length second.old ≡ length first.old }
    requires spare { length (S.bits spare.old) ≡ length first.old }
    requires x_is_lost { combined to_second.0 to_second.1 to_first.0 ≡ I }
    requires z_is_lost { combined to_second.0 to_second.1 to_first.1 ≡ I }
    ensures first { OnOk result
        (first.new ≡ letters_product first.old (map (combined to_first.0 to_first.1) second.old)) }
    ensures second { OnOk result
        (second.new
        ≡ letters_product second.old (map (combined to_second.0 to_second.1) first.old)) }
    ensures first_len { length first.new ≡ length first.old }
    ensures second_len { length second.new ≡ length second.old }
    ensures spare { length (S.bits spare.new) ≡ length (S.bits spare.old) }
{
    first.add_image(second, to_first.0, to_first.1, spare)?;
    second.add_image(first, to_second.0, to_second.1, spare)
}

#[inline(always)]
fn is_x(letter: Letter) -> bool
    ensures { result ≡ true → letter ≡ X }
{
    matches!(letter, Letter::X)
}

#[inline(always)]
fn is_z(letter: Letter) -> bool
    ensures { result ≡ true → letter ≡ Z }
{
    matches!(letter, Letter::Z)
}

#[inline(always)]
pub(crate) fn is_y(letter: Letter) -> bool
    ensures { result ≡ true → letter ≡ Y }
{
    matches!(letter, Letter::Y)
}

fn has_x(letter: Letter) -> bool
    ensures { result ≡ x_bit letter }
{
    matches!(letter, Letter::X | Letter::Y)
}

fn has_z(letter: Letter) -> bool
    ensures { result ≡ z_bit letter }
{
    matches!(letter, Letter::Y | Letter::Z)
}
