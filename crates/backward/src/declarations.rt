//! The lines of a program's detectors and observables, on their way to a sink. The coordinates of only a few detectors are
//! held at a time.
ghost use Rattle.std.specs.Prelude.{◌≡◌, ◌<◌, ◌≤◌, ◌+◌, [], ◌∷◌, ◌++◌, length, map, take, MatchBool};
ghost use Rattle.error_models.specs.HeldText.{no_text};
ghost use Rattle.error_models.specs.ModelText.{detectors_text, observables_text};
ghost use Rattle.step_model.specs.HitModels.{model_of};
ghost use Rattle.step_model.specs.Pushed.{Pushes};
ghost use Rattle.backward.specs.private.HeldDetectors.{AreHeld, lines_text};

use arrayvec::ArrayVec;
use circuit_walk::{CoordinateTaker, Program, take_coordinates};
use error_models::{DetectorLines, MOST_LINES, push_observable};
use record_targets::target_count;
use std::alloc::Allocator;
use std::array;
use step_model::{Pieces, Sink};

/// How many coordinates a detector has at most.
const AXES: usize = 16;

/// Pushes the lines of the detectors and the observables.
pub(crate) fn push_declarations<'a, A: Allocator + Copy, W: Sink>(
    program: &Program<'a, A>,
    out: &mut Pieces,
    sink: &mut W,
)
    ensures { Pushes W.taken W.failures sink.old sink.new out.old out.new
        (detectors_text (model_of program.now.listing)
        ++ observables_text (model_of program.now.listing)) }
{
    push_detectors(program, out, sink);
    for observable in 0..program.observable_count() {
        push_observable(out, sink, observable);
    }
}

fn push_detectors<'a, A: Allocator + Copy, W: Sink>(
    program: &Program<'a, A>,
    out: &mut Pieces,
    sink: &mut W,
)
    ensures { Pushes W.taken W.failures sink.old sink.new out.old out.new
        (detectors_text (model_of program.now.listing)) }
{
    program.well_formed();
    let mut listing = Listing {
        out,
        sink,
        desk: Desk {
            lines: DetectorLines::new(),
            held: array::from_fn(|_| ArrayVec::new()),
            waiting: 0,
            from: 0,
        },
    };
    take_coordinates(program, &mut listing);
    let Listing {
        out,
        sink,
        mut desk,
    } = listing;
    push_held(program, &mut desk, out, sink);
}

// What lines are made in. They are made several at a time, the last first, so the coordinates of some detectors are held until
// then: of how many, and behind how many whose lines were pushed.
#[derive(Drop)]
struct Desk {
    lines: DetectorLines,
    held: [ArrayVec<i64, AXES>; MOST_LINES],
    waiting: usize,
    from: usize,
}

// What takes the coordinates of a program's detectors as lines.
#[derive(Drop)]
struct Listing<'s, W> {
    out: &'s mut Pieces,
    sink: &'s mut W,
    desk: Desk,
}

impl<'s, A: Allocator + Copy, W: Sink> CoordinateTaker<A> for Listing<'s, W> {
    ghost use Rattle.std.specs.Prelude.{◌≡◌, ◌<◌, take, map};
    ghost use Rattle.error_models.specs.HeldText.{no_text};
    ghost use Rattle.backward.specs.private.HeldDetectors.{HoldsDetectors};

    // The lines of so many detectors were pushed, or their coordinates are held.
    ghost stands = { λ program begun d listing.
        (listing.out.ghost_name ≡ begun.out.ghost_name)
        × (listing.sink.ghost_name ≡ begun.sink.ghost_name)
        × (listing.desk.waiting < 10)
        × (listing.desk.lines ≡ no_text 10)
        × HoldsDetectors W.taken W.failures begun.sink.now listing.sink.now begun.out.now
        listing.out.now program.listing.coordinates listing.desk.from
        (map (λ list. list.items) (take listing.desk.waiting listing.desk.held)) d };

    #[inline(always)]
    fn take(&mut self, program: &Program<'_, A>, coordinates: &[i64]) {
        if hold(&mut self.desk, coordinates) {
            push_held(program, &mut self.desk, self.out, self.sink);
        }
    }
}

// Holds the coordinates of the next detector, and answers whether there is no room for more.
#[inline(always)]
fn hold(desk: &mut Desk, coordinates: &[i64]) -> bool
    requires room { desk.old.waiting < MOST_LINES }
    requires few { length coordinates.now ≤ AXES }
    ensures full { MatchBool result (desk.new.waiting ≡ MOST_LINES)
        (desk.new.waiting < MOST_LINES) }
    ensures waiting { desk.new.waiting ≡ desk.old.waiting + 1 }
    ensures held { take desk.new.waiting desk.new.held
        ≡ take desk.old.waiting desk.old.held ++ (record { items = coordinates.now }) ∷ [] }
    ensures from { desk.new.from ≡ desk.old.from }
    ensures lines { desk.new.lines ≡ desk.old.lines }
{
    refill(&mut desk.held[desk.waiting], coordinates);
    desk.waiting += 1;
    desk.waiting == MOST_LINES
}

// Puts these coordinates in place of what was there.
#[inline(always)]
fn refill(list: &mut ArrayVec<i64, AXES>, coordinates: &[i64])
    requires { length coordinates.now ≤ AXES }
    ensures { list.new ≡ record { items = coordinates.now } }
{
    list.clear();
    list.try_extend_from_slice(coordinates).unwrap();
}

// Pushes the lines of the detectors whose coordinates are held. It stays apart, so that what is done for each detector is
// small.
#[inline(never)]
fn push_held<'a, A: Allocator + Copy, W: Sink>(
    program: &Program<'a, A>,
    desk: &mut Desk,
    out: &mut Pieces,
    sink: &mut W,
)
    requires few { desk.old.waiting ≤ MOST_LINES }
    requires none { desk.old.lines ≡ no_text MOST_LINES }
    requires held { AreHeld program.now.listing.coordinates desk.old.from
        (map (λ list. list.items) (take desk.old.waiting desk.old.held)) }
    ensures count { length (take desk.old.waiting desk.old.held) ≡ desk.old.waiting }
    ensures waiting { desk.new.waiting ≡ 0 }
    ensures from { desk.new.from ≡ desk.old.from + desk.old.waiting }
    ensures none { desk.new.lines ≡ no_text MOST_LINES }
    ensures pushed { Pushes W.taken W.failures sink.old sink.new out.old out.new
        (lines_text program.now.listing.coordinates desk.old.from desk.old.waiting) }
{
    program.well_formed();
    put_held(
        program,
        &desk.held[..desk.waiting],
        desk.from,
        &mut desk.lines,
    );
    desk.lines.push_to(out, sink);
    desk.from += desk.waiting;
    desk.waiting = 0;
}

// Puts the lines of these detectors, the last first.
fn put_held<'a, A: Allocator + Copy>(
    program: &Program<'a, A>,
    held: &[ArrayVec<i64, AXES>],
    from: usize,
    lines: &mut DetectorLines,
)
    requires room { length held.now ≤ lines.old.room }
    requires none { lines.old.text ≡ [] }
    requires held { AreHeld program.now.listing.coordinates from
        (map (λ list. list.items) held.now) }
    ensures { lines.new.text
        ≡ lines_text program.now.listing.coordinates from (length held.now) }
{
    let _few = target_count(program);
    program.well_formed();
    let mut left = held.len();
    while left > 0 {
        left -= 1;
        lines.put((from + left) as u32, held[left].as_slice());
    }
}
