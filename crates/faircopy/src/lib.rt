// The fair copy of a source text: the same marks in the same order, and nothing else.
#![tactic(auto)]

ghost use Rattle.std.specs.Prelude.{◌≡◌, [], ◌∷◌, ◌≤◌, length, drop};
ghost use Rattle.language.specs.Syntax.{Expr};
ghost use Rattle.language.specs.Reading.{accepted, read};
ghost use Rattle.numerals.specs.Numerals.{wrote, written, delivers};
ghost use Rattle.faircopy.specs.FairCopy.{fair_copy, error_number, copy_number, length_of, copied};
ghost use Rattle.faircopy.specs.declared.CopyError.TheVariants.{BadText};
ghost use Rattle.faircopy.specs.Steps.{reach, zeros, through_step, counter_step, sign_bytes, digits_step, constant_step, tick_step, step_of, Moves, Fits, Copies};

use language::{Fault, TEXT};
use linker::accept;
use numerals::write_bytes;

// "Errors: 30 short paper, the copy does not fit, after the linker's numbers."
const SHORT_PAPER: u32 = 30;

// Why there is no fair copy: the text's first fault, or a paper that is too short.
#[derive(Clone, Copy, Debug, PartialEq, Eq)]
pub enum CopyError {
    BadText(Fault),
    ShortPaper,
}

impl CopyError {
    // Document 02's number.
    pub fn number(self) -> u32
        ensures { result ≡ error_number self }
    {
        match self {
            CopyError::BadText(why) => why.number(),
            CopyError::ShortPaper => SHORT_PAPER,
        }
    }
}

impl From<Fault> for CopyError {
    ghost from_gives = { λ f e. e ≡ BadText f };

    // There is no copy of a text with this fault.
    fn from(fault: Fault) -> CopyError {
        CopyError::BadText(fault)
    }
}

// What is left of a text after a copy, and the place after the copy.
#[derive(Clone, Copy)]
struct Moved<'a> {
    rest: &'a [u8],
    at: usize,
}

// A byte at a place of a buffer: the place after it. Where it does not fit, the buffer stays as it was, and the answer is the place itself.
fn write_byte(out: &mut [u8], at: usize, byte: u8) -> usize
    ensures { wrote result out.new ≡ written out.old at (byte ∷ []) }
{
    write_bytes(out, at, &[byte])
}

// How many bytes there are up to and with the first `close`, or in all.
fn reach(text: &[u8], close: u8) -> usize
    ensures { result ≡ reach close text.now }
{
    match text.iter().position(|byte| *byte == close) {
        Some(place) => place + 1,
        None => text.len(),
    }
}

// The bytes up to and with the first `close`, or to the end of the text, as they stand. Found first and then written as one piece, a short number or
// print takes 1.3 to 1.6 times as long to copy.
fn copy_through<'a>(text: &'a [u8], close: u8, out: &mut [u8], at: usize) -> Moved<'a>
    requires { Fits (through_step close text.now) out.old at }
    ensures { Moves (through_step close text.now) text.now at out.old out.new result }
{
    let mut left = text;
    let mut end = at;
    while let [byte, rest @ ..] = left {
        end = write_byte(out, end, *byte);
        left = rest;
        if *byte == close {
            return Moved {
                rest: left,
                at: end,
            };
        }
    }
    Moved {
        rest: left,
        at: end,
    }
}

// What is left after leading zeros: a 0 is one where a digit comes after it.
fn past_zeros(text: &[u8]) -> &[u8]
    ensures { result.now ≡ drop (zeros text.now) text.now }
{
    let mut rest = text;
    while let [b'0', next, ..] = rest {
        if *next < b'0' {
            return rest;
        }
        rest = &rest[1..];
    }
    rest
}

// After a counter's `$`.
fn copy_counter<'a>(text: &'a [u8], out: &mut [u8], at: usize) -> Moved<'a>
    requires { Fits (counter_step text.now) out.old at }
    ensures { Moves (counter_step text.now) text.now at out.old out.new result }
{
    let digits = past_zeros(text);
    let after_dollar = write_byte(out, at, b'$');
    copy_through(digits, b'$', out, after_dollar)
}

// The `-` of a constant with these digits, where it is said and the first digit is not 0.
fn write_sign(digits: &[u8], minus: bool, out: &mut [u8], at: usize) -> usize
    requires { at ≤ length out.old }
    ensures { wrote result out.new ≡ written out.old at (sign_bytes minus digits.now) }
{
    match digits {
        [first, ..] if minus && *first != b'0' => write_byte(out, at, b'-'),
        _ => at,
    }
}

// After `'/` and perhaps `-`.
fn copy_digits<'a>(text: &'a [u8], minus: bool, out: &mut [u8], at: usize) -> Moved<'a>
    requires { Fits (digits_step minus text.now) out.old at }
    ensures { Moves (digits_step minus text.now) text.now at out.old out.new result }
{
    let digits = past_zeros(text);
    let after_slash = write_bytes(out, at, b"'/");
    let after_sign = write_sign(digits, minus, out, after_slash);
    copy_through(digits, b'\'', out, after_sign)
}

// After `'/`.
fn copy_constant<'a>(text: &'a [u8], out: &mut [u8], at: usize) -> Moved<'a>
    requires { Fits (constant_step text.now) out.old at }
    ensures { Moves (constant_step text.now) text.now at out.old out.new result }
{
    match text {
        [b'-', digits @ ..] => copy_digits(digits, true, out, at),
        _ => copy_digits(text, false, out, at),
    }
}

// After a `'`.
fn copy_quoted<'a>(text: &'a [u8], out: &mut [u8], at: usize) -> Moved<'a>
    requires { Fits (tick_step text.now) out.old at }
    ensures { Moves (tick_step text.now) text.now at out.old out.new result }
{
    match text {
        [] => Moved { rest: text, at },
        [b'/', constant @ ..] => copy_constant(constant, out, at),
        [_, print @ ..] => {
            let after_quotes = write_bytes(out, at, b"''");
            copy_through(print, b'\'', out, after_quotes)
        }
    }
}

// A blank, a newline, a comment, a mark, or one byte of a variable.
fn copy_step<'a>(byte: u8, text: &'a [u8], out: &mut [u8], at: usize) -> Moved<'a>
    requires { Fits (step_of byte text.now) out.old at }
    ensures { Moves (step_of byte text.now) (byte ∷ text.now) at out.old out.new result }
{
    if byte <= b' ' {
        return Moved { rest: text, at };
    }
    match byte {
        b'"' => {
            let (_, rest) = text.split_at(reach(text, b'"'));
            Moved { rest, at }
        }
        b',' => Moved {
            rest: text,
            at: write_byte(out, at, b';'),
        },
        b'.' => Moved {
            rest: text,
            at: write_byte(out, at, b':'),
        },
        b'$' => copy_counter(text, out, at),
        b'\'' => copy_quoted(text, out, at),
        _ => Moved {
            rest: text,
            at: write_byte(out, at, byte),
        },
    }
}

// The fair copy of an accepted text at the start of a buffer: how many bytes it has.
fn copy_text(text: &[u8], out: &mut [u8]) -> usize
    requires { Copies text.now out.old }
    ensures { (w : Expr) → read text.now ≡ accepted w → wrote result out.new ≡ written out.old 0 (fair_copy w) }
{
    let mut left = text;
    let mut at: usize = 0;
    while let [byte, rest @ ..] = left {
        let moved = copy_step(*byte, rest, out, at);
        left = moved.rest;
        at = moved.at;
    }
    at
}

// The fair copy of a text at the start of the paper, whose other bytes stay as they were: how many bytes it has. Where the text is refused, or the copy
// does not all fit, the paper stays as it was.
pub fn fair_copy(text: &[u8], paper: &mut [u8]) -> Result<usize, CopyError>
    ensures { delivers (copy_number result) (length_of result) paper.new ≡ copied paper.old (read text.now) }
{
    accept(text)?;
    let mut copy = [0u8; TEXT];
    let count = copy_text(text, &mut copy);
    if paper.len() < count {
        return Err(CopyError::ShortPaper);
    }
    paper[..count].copy_from_slice(&copy[..count]);
    Ok(count)
}

// The same for C: the number, and the copy's length beside it.
pub fn copy_into(text: &[u8], paper: &mut [u8], written: &mut usize) -> u32
    ensures { delivers result written.new paper.new ≡ copied paper.old (read text.now) }
{
    match fair_copy(text, paper) {
        Ok(length) => {
            *written = length;
            0
        }
        Err(error) => {
            *written = 0;
            error.number()
        }
    }
}
