// The desk as a transducer: its input goes in by parts, and what the day prints comes out, at most one line's answer a step. The store, the bytes of the
// line so far and the paper are lent.
#![tactic(auto)]

ghost use Rattle.std.specs.Prelude.{◌≡◌, ◌+◌, ◌≤◌, ◌<◌, length};
ghost use Rattle.engine.specs.Stored.{stored};
ghost use Rattle.commands.specs.Served.{performs, performed};
ghost use Rattle.console.specs.Day.{max_lines};
ghost use Rattle.console.specs.Steps.{line_end, kept_bytes};
ghost use Rattle.console.specs.Places.{progress, silent, advances, has_room, Keeps, Steps, Ends};

use commands::{PAPER, perform};
use engine::Store;
use lines::LINE;
use numerals::write_bytes;

// "Lines past 9,999 are not read."
pub const LINES: u32 = 9999;

// Of a line of more than 300 bytes the first 301 are kept, which its form refuses.
pub const KEPT: usize = LINE + 1;

// Where the day is, beside its store: how many lines are done, and how many bytes of the next line stand at the start of its buffer.
// The count stands beside a buffer that is lent, since the clause of `step` says what is done with a buffer of any length.
#[derive(Clone, Copy, Debug, PartialEq, Eq)]
pub struct Place {
    pub done: u32,
    pub kept: usize,
}

// What a step came to: where the day is then, how many bytes of the part it took, and how many it printed, at the start of the paper.
#[derive(Clone, Copy, Debug, PartialEq, Eq)]
pub struct Advance {
    pub place: Place,
    pub taken: usize,
    pub printed: usize,
}

// How many bytes of a part come before its first newline: all, where it has none.
pub fn line_end(part: &[u8]) -> usize
    ensures place { result ≡ line_end part.now }
    ensures within { result ≤ length part.now }
{
    part.iter().position(|b| *b == b'\n').unwrap_or(part.len())
}

// The line so far with more bytes after it, up to 301 in all: how many there are then.
fn keep(line: &mut [u8], kept: usize, bytes: &[u8]) -> usize
    requires { kept_bytes ≤ length line.old }
    ensures { Keeps line.old kept bytes.now line.new result }
{
    let at = kept.min(KEPT);
    let n = bytes.len().min(KEPT - at);
    write_bytes(line, at, &bytes[..n])
}

// The line's buffer has room for 301 bytes, and the paper for what any line prints.
fn has_room(line: &[u8], paper: &[u8]) -> bool
    ensures { result ≡ has_room line.now paper.now }
{
    KEPT <= line.len() && PAPER <= paper.len()
}

// So many bytes are taken, and none is printed.
fn silent(place: Place, taken: usize) -> Advance
    ensures { result ≡ silent place taken }
{
    Advance {
        place,
        taken,
        printed: 0,
    }
}

// The next line is whole, and is obeyed: so many bytes are taken with it.
fn obey(store: &mut Store, place: Place, line: &[u8], taken: usize, paper: &mut [u8]) -> Advance
    requires { place.done < max_lines }
    ensures done { result.place.done ≡ place.done + 1 }
    ensures kept { result.place.kept ≡ 0 }
    ensures taken { result.taken ≡ taken }
    ensures printed { performs (stored store.new) result.printed paper.new
        ≡ performed (stored store.old) (place.done + 1) line.now paper.old }
{
    let done = place.done + 1;
    let printed = perform(store, done, line, paper);
    Advance {
        place: Place {
            done,
            kept: 0, // the next line
        },
        taken,
        printed, // the line's answer
    }
}

// A step over the next part of the input: to the end of the line, which is obeyed, or to the end of the part. After the last line all is taken and
// nothing done. Where the line's buffer has less than 301 bytes, or the paper no room for any line, nothing is done and nothing taken.
pub fn step(
    store: &mut Store,
    line: &mut [u8],
    place: Place,
    part: &[u8],
    paper: &mut [u8],
) -> Advance
    ensures { Steps line.old paper.old part.now (progress (stored store.old) place line.old)
        (advances (progress (stored store.new) result.place line.new) result.taken result.printed paper.new) }
{
    if !has_room(line, paper) {
        return silent(place, 0);
    }
    if LINES <= place.done {
        return silent(place, part.len());
    }
    let end = line_end(part);
    let kept = keep(line, place.kept, &part[..end]);
    if end == part.len() {
        let grown = Place {
            done: place.done,
            kept,
        };
        return silent(grown, end);
    }
    let taken = end + 1; // the newline too
    obey(store, place, &line[..kept], taken, paper)
}

// The end of the input: a last line without newline is obeyed. Buffers that are too small have nothing done.
pub fn finish(store: &mut Store, line: &[u8], place: Place, paper: &mut [u8]) -> Advance
    ensures { Ends line.now paper.old (progress (stored store.old) place line.now)
        (advances (progress (stored store.new) result.place line.now) result.taken result.printed paper.new) }
{
    if !has_room(line, paper) || LINES <= place.done || place.kept == 0 {
        return silent(place, 0);
    }
    let kept = place.kept.min(KEPT);
    obey(store, place, &line[..kept], 0, paper)
}
