//! The texts of targets, made once for all lines.
ghost use Rattle.std.specs.Prelude.{◌≡◌, ◌<◌, ◌≤◌, ◌+◌, ◌-◌, ◌*◌, ◌++◌, All, IfOk, drop, length, reverse};
ghost use Rattle.error_models.specs.HeldText.{most_named};
ghost use Rattle.error_models.specs.ModelText.{target_text, targets_text};
ghost use Rattle.error_models.specs.private.TargetNames.{reversed_where};

use crate::short_lines::{ANY_NAME, target_before};
use std::alloc::{AllocError, Allocator};
use std::marker::Model;

/// How long the text of a target is at most here, in bytes: a space, a letter and six digits.
pub(crate) const NAME: usize = 8;

/// Where the last digit of such a text is.
const LAST: usize = 7;

/// The text of a target, at the end of a fixed number of bytes, so that all of them are copied at once.
#[derive(Drop)]
struct Name {
    bytes: [u8; NAME],
    len: u8,
}

impl Model for Name {
    ghost use Rattle.std.specs.Prelude.{List, ℕ, ◌-◌, ◌≤◌, drop};

    ghost Value = { List ℕ };

    ghost view = { λ n. drop (8 - n.len) n.bytes };

    ghost invariant = { λ n. n.len ≤ 8 };
}

impl Name {
    // The name of a target, in a model with this many detectors.
    fn new(detectors: usize, target: usize) -> Self
        requires few_detectors { detectors ≤ most_named }
        requires few { target < detectors + most_named }
        ensures { result ≡ target_text detectors target }
    {
        let mut text = [0; ANY_NAME];
        let start = target_before(&mut text, ANY_NAME, detectors, target as u32);
        let mut bytes = [0; NAME];
        bytes.copy_from_slice(&text[ANY_NAME - NAME..]);
        Name {
            bytes,
            len: (ANY_NAME - start) as u8,
        }
    }

    // The name of a target, where this is that of the one before it. Mostly its last digit is the next one.
    #[inline(always)]
    fn next(&self, detectors: usize, target: usize) -> Self
        requires few_detectors { detectors ≤ most_named }
        requires few { target < detectors + most_named }
        requires some { 0 < target }
        requires before { self.now ≡ target_text detectors (target - 1) }
        ensures { result ≡ target_text detectors target }
    {
        let mut bytes = self.bytes;
        if bytes[LAST] >= b'9' || target == detectors {
            return Name::new(detectors, target);
        }
        bytes[LAST] += 1;
        Name {
            bytes,
            len: self.len,
        }
    }

    // Writes the text so that it ends at `end`, and answers where it starts.
    #[inline(always)]
    fn before(&self, buffer: &mut [u8], end: usize) -> usize
        requires room { NAME ≤ end }
        requires within { end ≤ length buffer.old }
        ensures within { result ≤ end }
        ensures least { end ≤ result + NAME }
        ensures written { drop result buffer.new ≡ self.now ++ drop end buffer.old }
    {
        // A local copy cannot overlap the buffer, so no check is made at run time.
        let bytes = self.bytes;
        buffer[end - NAME..end].copy_from_slice(&bytes);
        end - self.len as usize
    }
}

/// The texts of targets, of which the first are detectors.
#[derive(Drop)]
pub(crate) struct Names<A: Allocator + Copy> {
    detectors: usize,
    names: Vec<Name, A>,
}

impl<A: Allocator + Copy> Model for Names<A> {
    ghost use Rattle.std.specs.Prelude.{length};
    ghost use Rattle.error_models.specs.private.TargetNames.{Named, AreNames};

    ghost Value = { Named };

    ghost view = { λ n. record { detectors = n.detectors; targets = length n.names.items } };

    ghost invariant = { λ n. AreNames n.detectors n.names.items };
}

impl<A: Allocator + Copy> Names<A> {
    /// The texts of this many targets, of which the first `detectors` are detectors.
    pub(crate) fn new(alloc: A, detectors: usize, targets: usize) -> Result<Self, AllocError>
        requires few_detectors { detectors ≤ most_named }
        requires few { targets ≤ detectors + most_named }
        ensures { IfOk result (λ names. names
            ≡ record { detectors = detectors; targets = targets }) }
    {
        let mut names: Vec<Name, A> = Vec::with_capacity(alloc, targets)?;
        for target in 0..targets {
            let name = if target == 0 {
                Name::new(detectors, target)
            } else {
                names[target - 1].next(detectors, target)
            };
            names.push_reserved(name);
        }
        Ok(Names { detectors, names })
    }

    /// Writes some targets so that they end at `end`, and answers where they start.
    #[inline(always)]
    pub(crate) fn targets_before(&self, buffer: &mut [u8], end: usize, targets: &[u32]) -> usize
        requires within { end ≤ length buffer.old }
        requires room { length targets.now * NAME ≤ end }
        requires targets { All (λ target. target < self.now.targets) targets.now }
        ensures within { result ≤ end }
        ensures least { end ≤ result + length targets.now * NAME }
        ensures written { drop result buffer.new
            ≡ targets_text self.now.detectors targets.now ++ drop end buffer.old }
    {
        // As a slice, so that nothing of the list is loaded again for each target.
        let names = self.names.as_slice();
        let mut left = targets.len();
        let mut at = end;
        while left > 0 {
            left -= 1;
            at = names[targets[left] as usize].before(buffer, at);
        }
        at
    }

    // The same, with the targets from the last to the first.
    #[inline(always)]
    fn reversed_before(&self, buffer: &mut [u8], end: usize, targets: &[u32]) -> usize
        requires within { end ≤ length buffer.old }
        requires room { length targets.now * NAME ≤ end }
        requires targets { All (λ target. target < self.now.targets) targets.now }
        ensures within { result ≤ end }
        ensures least { end ≤ result + length targets.now * NAME }
        ensures written { drop result buffer.new
            ≡ targets_text self.now.detectors (reverse targets.now) ++ drop end buffer.old }
    {
        let names = self.names.as_slice();
        let mut at = end;
        for target in targets {
            at = names[*target as usize].before(buffer, at);
        }
        at
    }

    /// The same, with the targets from the last to the first where `reversed`.
    #[inline(always)]
    pub(crate) fn either_before(
        &self,
        buffer: &mut [u8],
        end: usize,
        targets: &[u32],
        reversed: bool,
    ) -> usize
        requires within { end ≤ length buffer.old }
        requires room { length targets.now * NAME ≤ end }
        requires targets { All (λ target. target < self.now.targets) targets.now }
        ensures within { result ≤ end }
        ensures least { end ≤ result + length targets.now * NAME }
        ensures written { drop result buffer.new
            ≡ targets_text self.now.detectors (reversed_where reversed targets.now)
            ++ drop end buffer.old }
    {
        if reversed {
            self.reversed_before(buffer, end, targets)
        } else {
            self.targets_before(buffer, end, targets)
        }
    }
}
