// The whole day from memory to memory: the bytes of an input to the bytes that the desk prints for it.
#![tactic(auto)]

ghost use Rattle.std.specs.Prelude.{◌≡◌};
ghost use Rattle.console.specs.Day.{day_of};
ghost use Rattle.numerals.specs.Numerals.{delivers};
ghost use Rattle.day.specs.Played.{played, gives, Prints};

use commands::PAPER;
use console::{KEPT, Place, finish, step};
use engine::Store;
use numerals::write_bytes;

// The number of an output that has no room for what the day prints. It is none of document 01's or 02's.
pub const SHORT_OUTPUT: u32 = 50;

// The output has no room for what the day prints.
#[derive(Clone, Copy, Debug, PartialEq, Eq)]
pub struct ShortOutput;

// How many bytes the day prints. Where they all fit, they stand at the start of the output.
fn print(input: &[u8], output: &mut [u8]) -> usize
    ensures { Prints (day_of input.now) output.old output.new result }
{
    let mut store = Store::fresh();
    let mut line = [0u8; KEPT];
    let mut paper = [0u8; PAPER];
    let mut place = Place { done: 0, kept: 0 };
    let mut rest = input;
    let mut count: usize = 0;
    while !rest.is_empty() {
        let a = step(&mut store, &mut line, place, rest, &mut paper);
        write_bytes(output, count, &paper[..a.printed]); // after the answers before
        count += a.printed;
        rest = &rest[a.taken..];
        place = a.place;
    }
    let e = finish(&mut store, &line, place, &mut paper);
    write_bytes(output, count, &paper[..e.printed]);
    count + e.printed
}

// The day of the input at the start of the output, and how many bytes that is; where it does not all fit, the output stays as it was. The day is done
// twice: first to see how long it is.
pub fn play(input: &[u8], output: &mut [u8]) -> Result<usize, ShortOutput>
    ensures { gives result output.new ≡ played output.old (day_of input.now) }
{
    let count = print(input, &mut output[..0]);
    if output.len() < count {
        return Err(ShortOutput);
    }
    print(input, output);
    Ok(count)
}

// The same for C: 0 and how many bytes were written beside it, or the number of a short output and 0.
pub fn play_into(input: &[u8], output: &mut [u8], written: &mut usize) -> u32
    ensures { delivers result written.new output.new ≡ played output.old (day_of input.now) }
{
    match play(input, output) {
        Ok(count) => {
            *written = count;
            0
        }
        Err(ShortOutput) => {
            *written = 0;
            SHORT_OUTPUT
        }
    }
}
