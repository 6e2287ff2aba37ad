// What a desk line prints: columns right-justified in columns, and a run's output.
#![tactic(auto)]

ghost use Rattle.std.specs.Prelude.{◌≡◌, length};
ghost use Rattle.numerals.specs.Numerals.{wrote, written};
ghost use Rattle.columns.specs.Printed.{most_bytes, columns, paper, top};

use numerals::{COLUMNS, write_bytes, write_number, write_value};

// The widths of line number, answer, truth, steps, height and top.
const LINE_WIDTH: usize = 4;

const ANSWER_WIDTH: usize = 4;

const TRUTH_WIDTH: usize = 3;

const STEPS_WIDTH: usize = 10;

const HEIGHT_WIDTH: usize = 4;

const TOP_WIDTH: usize = 11;

// Room for a line's columns: six numbers and a newline.
const MOST_BYTES: usize = 6 * COLUMNS + 1;

// A line's columns.
#[derive(Clone, Copy, Debug, PartialEq, Eq)]
pub struct LineColumns {
    pub line: u32,
    pub answer: u32,
    pub truth: bool,
    pub steps: u32,
    pub height: u32,
    pub top: i32,
}

// A line's columns at the start of a buffer that has room for them.
fn write_fields(text: &mut [u8], f: LineColumns) -> usize
    requires { length text.old ≡ most_bytes }
    ensures { wrote result text.new ≡ written text.old 0 (columns f) }
{
    let at = write_number(text, 0, LINE_WIDTH, false, f.line);
    let at = write_number(text, at, ANSWER_WIDTH, false, f.answer);
    let at = write_number(text, at, TRUTH_WIDTH, false, u32::from(f.truth));
    let at = write_number(text, at, STEPS_WIDTH, false, f.steps);
    let at = write_number(text, at, HEIGHT_WIDTH, false, f.height);
    let at = write_value(text, at, TOP_WIDTH, f.top);
    write_bytes(text, at, b"\n")
}

// A line's columns at a place of a buffer: the place after them. Where they do not all fit, the buffer stays as it was, and the answer is the place itself.
pub fn write_columns(out: &mut [u8], at: usize, f: LineColumns) -> usize
    ensures { wrote result out.new ≡ written out.old at (columns f) }
{
    let mut text = [0u8; MOST_BYTES];
    let end = write_fields(&mut text, f);
    write_bytes(out, at, &text[..end])
}

// The same for a run's output: "if any, follows with a newline after it"
pub fn write_output(out: &mut [u8], at: usize, output: &[u8]) -> usize
    ensures { wrote result out.new ≡ written out.old at (paper output.now) }
{
    if output.is_empty() {
        return at;
    }
    if out.len().saturating_sub(at) <= output.len() {
        return at; // no room for the newline too
    }
    let end = write_bytes(out, at, output);
    write_bytes(out, end, b"\n")
}

// "top (0 if none)"
#[tactic(auto, unfolding(crate::specs::Printed::top))]
pub fn top(list: &[i32], height: usize) -> i32
    ensures { result ≡ top list.now height }
{
    if height == 0 {
        return 0;
    }
    list.get(height - 1).copied().unwrap_or(0)
}
