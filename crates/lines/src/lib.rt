// The form of a desk line: `D` letter text, `X` letter, `R` letter allowance inputs, with one blank between fields.
#![tactic(auto)]

ghost use Rattle.std.specs.Prelude.{List, [], ◌≤◌, ℤ, length, drop};
ghost use Rattle.lines.specs.Lines.{request, definition, withdrawal, execution, input, sign, number};
ghost use Rattle.lines.specs.Commands.{letter_end, Asks, Parsed, Ready, NumberIs, InputIs, after};

use numerals::{DIGITS, read_digits, value_of};

// "lines to 300 bytes before the newline"
pub const LINE: usize = 300;

// Inputs "at most 64".
pub const INPUTS: usize = 64;

// "14 bad line: a desk line breaks its form"
pub const BAD_LINE: u32 = 14;

// The place after a line's letter.
const LETTER_END: usize = 3;

// The place after the blank that follows a line's letter.
pub const FIELD_START: usize = 4;

// What a line asks for. The text of a define is the line's from `FIELD_START` on; a run has its allowance and how many inputs it brings.
#[derive(Clone, Copy, Debug, PartialEq, Eq)]
pub enum Command {
    Define(u8),
    Withdraw(u8),
    Run(u8, u32, usize),
}

// 1 to 9 digits, and then a blank or the end of the line: their value and the place after them.
fn read_number(line: &[u8], from: usize) -> Option<(u32, usize)>
    requires { from ≤ length line.now }
    ensures { NumberIs line.now from result }
{
    let n = read_digits(line, from, DIGITS);
    if n.count == 0 {
        return None;
    }
    let next = from + n.count;
    if next == line.len() {
        return Some((n.value, next));
    }
    if line[next] != b' ' {
        return None;
    }
    Some((n.value, next))
}

// The digits of an input, after a `-` if it is said: its value and the place after it.
fn read_signed(line: &[u8], from: usize, minus: bool) -> Option<(i32, usize)>
    requires { from ≤ length line.now }
    ensures { InputIs (λ a x. number (input a x minus) 0 0) line.now from result }
{
    let (v, next) = read_number(line, from)?;
    Some((value_of(minus, v), next))
}

// An input, "perhaps with `-`".
fn read_input(line: &[u8], from: usize) -> Option<(i32, usize)>
    requires { from ≤ length line.now }
    ensures { InputIs sign line.now from result }
{
    if from == line.len() {
        return None;
    }
    if line[from] == b'-' {
        return read_signed(line, from + 1, true);
    }
    read_signed(line, from, false)
}

// The inputs of a run, each after a blank, at most 64.
fn inputs(
    line: &[u8],
    from: usize,
    letter: u8,
    allowance: u32,
    values: &mut [i32; INPUTS],
) -> Option<Command>
    requires { Ready line.now from values.old }
    ensures { Parsed result line.now values.new (after (drop from line.now) letter allowance []) }
{
    let mut i = from;
    let mut count: usize = 0;
    while i < line.len() {
        if count == INPUTS {
            return None;
        }
        let (v, next) = read_input(line, i + 1)?;
        values[count] = v;
        count += 1;
        i = next;
    }
    Some(Command::Run(letter, allowance, count))
}

// What comes after the letter of `R`.
fn execution(line: &[u8], letter: u8, values: &mut [i32; INPUTS]) -> Option<Command>
    requires { Ready line.now letter_end values.old }
    ensures { Parsed result line.now values.new (execution letter (drop letter_end line.now)) }
{
    if line.len() == LETTER_END {
        return None;
    }
    if line[LETTER_END] != b' ' {
        return None;
    }
    let (allowance, next) = read_number(line, FIELD_START)?;
    inputs(line, next, letter, allowance, values)
}

// What comes after the letter of `X`: nothing.
fn withdrawal(line: &[u8], letter: u8) -> Option<Command>
    requires { letter_end ≤ length line.now }
    ensures { (x : List ℤ) → Asks result line.now x (withdrawal letter (drop letter_end line.now)) }
{
    if line.len() != LETTER_END {
        return None;
    }
    Some(Command::Withdraw(letter))
}

// What comes after the letter of `D`.
fn definition(line: &[u8], letter: u8) -> Option<Command>
    requires { letter_end ≤ length line.now }
    ensures { (x : List ℤ) → Asks result line.now x (definition letter (drop letter_end line.now)) }
{
    if line.len() == LETTER_END {
        return None; // no blank after the letter
    }
    if line[LETTER_END] != b' ' {
        return None;
    }
    Some(Command::Define(letter))
}

// What a line asks for, or `None` where it breaks its form. The inputs of a run go to the first of `values`.
pub fn parse(line: &[u8], values: &mut [i32; INPUTS]) -> Option<Command>
    ensures { Parsed result line.now values.new (request line.now) }
{
    *values = [0i32; INPUTS];
    let n = line.len();
    if LINE < n {
        return None;
    }
    if n < LETTER_END {
        return None;
    }
    if line[1] != b' ' {
        return None;
    }
    let letter = line[2];
    match line[0] {
        b'D' => definition(line, letter),
        b'X' => withdrawal(line, letter),
        b'R' => execution(line, letter, values),
        _ => None,
    }
}
