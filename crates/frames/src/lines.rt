// The lines of shots that stand side by side in the lanes of words. Of eight shots at a time each word has a byte: bytes are
// gone over in a fraction of the time of words.
ghost use Rattle.std.specs.Prelude.{◌≡◌, ◌≢◌, ◌+◌, ◌-◌, ◌*◌, ◌%◌, ◌<◌, ◌≤◌, ℕ, length};
ghost use Rattle.bit_rows.specs.Lanes.{lane, lane_bit};
ghost use Rattle.step_model.specs.Pushed.{Pushes};
ghost use Rattle.frames.specs.private.LaneLines.{lane_lines};
ghost use Rattle.frames.specs.private.Octets.{HoldLanes};
ghost use Rattle.frames.specs.Lines.{digit_of, line_of};

use step_model::{Pieces, Sink};

// Pushes the lines of the first shots. `room` is for a byte of each word, and then for one line.
pub(crate) fn push_lines<W: Sink>(
    out: &mut Pieces,
    sink: &mut W,
    room: &mut [u8],
    words: &[u64],
    count: u32,
)
    requires room { length room.old ≡ 2 * length words.now + 1 }
    requires count { count ≤ 64 }
    ensures { Pushes W.taken W.failures sink.old sink.new out.old out.new
        (lane_lines words.now count) }
{
    let (octets, line) = room.split_at_mut(words.len());
    push_each(out, sink, octets, line, words, count);
}

fn push_each<W: Sink>(
    out: &mut Pieces,
    sink: &mut W,
    octets: &mut [u8],
    line: &mut [u8],
    words: &[u64],
    count: u32,
)
    requires octets { length octets.old ≡ length words.now }
    requires line { length line.old ≡ length words.now + 1 }
    requires count { count ≤ 64 }
    ensures { Pushes W.taken W.failures sink.old sink.new out.old out.new
        (lane_lines words.now count) }
{
    for shot in 0..count {
        hold_lanes(octets, words, shot);
        fill_line(line, octets, shot % 8);
        out.push(sink, line);
    }
}

// Where a shot is the first of eight, the bytes become theirs.
fn hold_lanes(octets: &mut [u8], words: &[u64], shot: u32)
    requires size { length octets.old ≡ length words.now }
    requires shot { shot < 64 }
    requires held { shot % 8 ≢ 0 → HoldLanes (shot - shot % 8) words.now octets.old }
    ensures { HoldLanes (shot - shot % 8) words.now octets.new }
{
    if shot % 8 == 0 {
        take_lanes(octets, words, shot);
    }
}

fn take_lanes(octets: &mut [u8], words: &[u64], first: u32)
    requires size { length octets.old ≡ length words.now }
    requires first { first < 64 }
    ensures { HoldLanes first words.now octets.new }
{
    for index in 0..words.len() {
        octets[index] = lanes_from(words[index], first);
    }
}

// Eight lanes of a word, from this one on.
#[inline(always)]
fn lanes_from(word: u64, first: u32) -> u8
    requires { first < 64 }
    ensures { (j : ℕ) → j < 8 → lane_bit j result ≡ lane_bit (first + j) word }
{
    ((word >> first) % 256) as u8
}

// The line of one lane.
fn fill_line(line: &mut [u8], octets: &[u8], shot: u32)
    requires room { length line.old ≡ length octets.now + 1 }
    requires shot { shot < 8 }
    ensures { line.new ≡ line_of (lane shot octets.now) }
{
    for index in 0..octets.len() {
        line[index] = digit(is_set(octets[index], shot));
    }
    line[octets.len()] = b'\n';
}

#[inline(always)]
fn is_set(octet: u8, lane: u32) -> bool
    requires { lane < 8 }
    ensures { result ≡ lane_bit lane octet }
{
    (octet >> lane) & 1 == 1
}

/// The character 1 or 0.
#[inline(always)]
pub fn digit(value: bool) -> u8
    ensures { result ≡ digit_of value }
{
    if value { b'1' } else { b'0' }
}
