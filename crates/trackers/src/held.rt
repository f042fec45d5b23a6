//! How a set of targets is held: as a list while it is short, and as a row of bits once it is long.
ghost use Rattle.std.specs.Prelude.{◌≡◌, ◌<◌, length, IfSome, OnOk};
ghost use Rattle.bit_rows.specs.Rows.{xor_rows};
ghost use Rattle.step_model.specs.TargetSets.{toggled};
ghost use Rattle.trackers.specs.private.Held.{bits_of};

use crate::list_set::ListSet;
use crate::row_set::RowSet;
use crate::target_set::TargetSet;
use std::alloc::{AllocError, Allocator};

/// A set of targets. A list that takes more memory than a row becomes a row, and a row of few targets becomes a list: so what
/// an order of the targets is good or bad for takes no longer than a row does, however many there are.
#[derive(Drop)]
pub(crate) enum Held<'a, A: Allocator + Copy> {
    List(ListSet<'a, A>),
    Row(RowSet<'a, A>),
}

impl<'a, A: Allocator + Copy> Held<'a, A> {
    /// The set as a list, where it is held as one.
    #[inline(always)]
    pub(crate) fn as_list(&self) -> Option<&ListSet<'a, A>>
        ensures { IfSome result (λ list. list.now ≡ bits_of self.now) }
    {
        match self {
            Held::List(list) => Some(list),
            Held::Row(_) => None,
        }
    }

    /// Puts a target in where it isn't there, and takes it out where it is.
    #[inline(never)]
    pub(crate) fn toggle(&mut self, target: u32) -> Result<(), AllocError>
        requires { target < length (bits_of self.old) }
        ensures ok { OnOk result (bits_of self.new ≡ toggled target (bits_of self.old)) }
        ensures len { length (bits_of self.new) ≡ length (bits_of self.old) }
    {
        match self {
            Held::List(list) => {
                list.toggle(target)?;
                self.settle()
            }
            Held::Row(row) => {
                row.toggle(target);
                self.settle()
            }
        }
    }

    /// Toggles each target of a list, which has some.
    #[inline(never)]
    pub(crate) fn add_list(
        &mut self,
        other: &ListSet<'a, A>,
        spare: &mut Self,
    ) -> Result<(), AllocError>
        requires other { length (bits_of self.old) ≡ length other.now }
        requires spare { length (bits_of spare.old) ≡ length (bits_of self.old) }
        ensures ok { OnOk result (bits_of self.new ≡ xor_rows (bits_of self.old) other.now) }
        ensures len { length (bits_of self.new) ≡ length (bits_of self.old) }
        ensures spare { length (bits_of spare.new) ≡ length (bits_of spare.old) }
    {
        match self {
            Held::List(list) => {
                // The sum of few is short.
                if let Some(done) = list.add_few(other) {
                    return done;
                }
                add_to_list(list, other, spare)?;
                self.settle()
            }
            Held::Row(row) => {
                row.add_list(other)?;
                self.settle()
            }
        }
    }

    /// Toggles each target of a row.
    pub(crate) fn add_row(&mut self, other: &RowSet<'a, A>) -> Result<(), AllocError>
        requires { length (bits_of self.old) ≡ length other.now }
        ensures ok { OnOk result (bits_of self.new ≡ xor_rows (bits_of self.old) other.now) }
        ensures len { length (bits_of self.new) ≡ length (bits_of self.old) }
    {
        match self {
            Held::List(list) => {
                let mut row = other.copy()?;
                row.add_list(list)?;
                *self = Held::Row(row);
                self.settle()
            }
            Held::Row(row) => {
                row.add_row(other);
                self.settle()
            }
        }
    }

    /// Holds the set the other way where that takes less.
    #[inline(always)]
    pub(crate) fn settle(&mut self) -> Result<(), AllocError>
        ensures { bits_of self.new ≡ bits_of self.old }
    {
        let stays = match self {
            Held::List(list) => !list.is_long(),
            Held::Row(row) => !row.may_be_few(),
        };
        if stays { Ok(()) } else { self.turn() }
    }

    // A list becomes a row, and a row of few targets a list.
    #[inline(never)]
    fn turn(&mut self) -> Result<(), AllocError>
        ensures { bits_of self.new ≡ bits_of self.old }
    {
        match self {
            Held::List(list) => {
                let row = RowSet::of_list(list)?;
                *self = Held::Row(row);
                Ok(())
            }
            Held::Row(row) => {
                if row.is_few() {
                    let list = row.to_list()?;
                    *self = Held::List(list);
                }
                Ok(())
            }
        }
    }
}

// Toggles each target of a list in another.
#[inline(never)]
fn add_to_list<'a, A: Allocator + Copy>(
    list: &mut ListSet<'a, A>,
    other: &ListSet<'a, A>,
    spare: &mut Held<'a, A>,
) -> Result<(), AllocError>
    requires other { length list.old ≡ length other.now }
    requires spare { length (bits_of spare.old) ≡ length list.old }
    ensures ok { OnOk result (list.new ≡ xor_rows list.old other.now) }
    ensures len { length list.new ≡ length list.old }
    ensures spare { length (bits_of spare.new) ≡ length (bits_of spare.old) }
{
    match spare {
        Held::List(spare) => list.add_many(other, spare),
        Held::Row(_) => list.add_alone(other),
    }
}
