// The lexer: from a place of a source text to its next token.
#![tactic(auto)]

ghost use Rattle.std.specs.Prelude.{◌≡◌, Err, [], ◌∷◌, ◌+◌, ◌-◌, ◌≤◌, ◌<◌, length, drop};
ghost use Rattle.language.specs.Between.{between};
ghost use Rattle.language.specs.Syntax.{Access, access_byte};
ghost use Rattle.language.specs.Tokens.{begins, idle, comment, after-tick, after-access, number, printing, tokens};
ghost use Rattle.language.specs.Tokens.{Form, counter_form, constant_form, most_digits, closing_byte, form_fault};
ghost use Rattle.lexer.specs.Lexing.{kind_of, Countable, NumberIs, Skips, SkipsOver, Lexes, Takes};

use language::Fault;
use numerals::DIGITS;

// "digit (0 as 10, as in 000)"
const ZERO_AS: u8 = 10;

// What a byte is where a token may begin.
#[derive(Clone, Copy, Debug, PartialEq, Eq)]
pub enum Kind {
    Blank,
    Quote,
    Open,
    Close,
    Semicolon,
    Colon,
    Operator,
    Access,
    Condition,
    Letter,
    Dollar,
    Tick,
    Digit,
    Stray,
}

// A token, a mark of document 01. An operator, a variable, a condition and a call have their byte, a variable also its digit (0 as 10), a counter its
// number, a constant its value, a print the place of its first byte and its length.
#[derive(Clone, Copy, Debug, PartialEq, Eq)]
pub enum Token {
    End,
    Open,
    Close,
    Semicolon,
    Colon,
    Operator(u8),
    Variable(u8, u8),
    Condition(u8),
    Call(u8),
    Counter(u32),
    Constant(i32),
    Print(usize, usize),
}

// A token and the place after it. The place comes first here and in `Misread`: with it last, a link of 247 operators took 1.45 times the instructions.
#[derive(Clone, Copy, Debug, PartialEq, Eq)]
pub struct Lexed {
    pub next: usize,
    pub token: Token,
}

// A fault, and a place past the first byte of the mark or comment that has it.
#[derive(Clone, Copy, Debug, PartialEq, Eq)]
pub struct Misread {
    pub next: usize,
    pub fault: Fault,
}

impl From<Misread> for Fault {
    ghost from_gives = { λ m f. f ≡ m.fault };

    // The text's fault, wherever it stands.
    fn from(misread: Misread) -> Fault {
        misread.fault
    }
}

// The value of a number and the place after its closing byte.
#[derive(Clone, Copy, Debug, PartialEq, Eq)]
pub struct Number {
    pub value: u32,
    pub next: usize,
}

// How a number is written: its most digits, the byte that closes it, and the fault where a byte breaks its form.
#[derive(Clone, Copy)]
struct NumberForm {
    most: usize,
    close: u8,
    fault: Fault,
}

// "Counter: `$`, 1 to 4 digits, `$`"
const COUNTER: NumberForm = NumberForm {
    most: 4,
    close: b'$',
    fault: Fault::BadCounter,
};

// "Constant: `'/`, perhaps `-`, 1 to 9 digits, `'`"
const CONSTANT: NumberForm = NumberForm {
    most: DIGITS,
    close: b'\'',
    fault: Fault::BadConstant,
};

// No token: a fault and its place.
fn fault(why: Fault, next: usize) -> Result<Lexed, Misread>
    ensures { result ≡ Err (record { fault = why; next = next }) }
{
    Err(Misread { fault: why, next })
}

// The kind of mark that a byte begins.
fn kind_of(b: u8) -> Kind
    ensures { result ≡ kind_of b }
{
    match b {
        b'1'..=b'9' => Kind::Digit,
        b'a'..=b'z' => Kind::Letter,
        b' ' | b'\n' => Kind::Blank,
        b'"' => Kind::Quote,
        b'(' => Kind::Open,
        b')' => Kind::Close,
        b';' | b',' => Kind::Semicolon,
        b':' | b'.' => Kind::Colon,
        b'A' | b'L' | b'M' | b'P' | b'O' | b'X' | b'I' | b'+' | b'-' | b'*' | b'/' =>
            Kind::Operator,
        b'F' | b'S' => Kind::Access,
        b'N' | b'0' | b'J' => Kind::Condition,
        b'$' => Kind::Dollar,
        b'\'' => Kind::Tick,
        _ => Kind::Stray,
    }
}

// A byte of a comment or a print other than the one that ends it and a comment's newline.
fn is_printable(b: u8) -> bool
    ensures { result ≡ between 32 126 b }
{
    (b' '..=b'~').contains(&b)
}

// The digits of a number of a form, 1 or more, and its closing byte.
fn digits(text: &[u8], from: usize, form: NumberForm) -> Result<Number, Fault>
    requires { Countable text.now from form.most form.close }
    ensures { (f : Form) → most_digits f ≡ form.most → closing_byte f ≡ form.close → form_fault f ≡ form.fault → NumberIs text.now f from result }
{
    let mut value: u32 = 0;
    for i in from..text.len() {
        let b = text[i];
        if !b.is_ascii_digit() || i - from == form.most {
            if b == form.close && from < i {
                return Ok(Number { value, next: i + 1 });
            }
            return Err(form.fault);
        }
        value = 10 * value + u32::from(b - b'0');
    }
    Err(Fault::Unfinished)
}

// After the `"` that opens a comment: the place after the `"` that ends it.
fn comment(text: &[u8], from: usize) -> Result<usize, Fault>
    requires { from ≤ length text.now }
    ensures { Skips (tokens (drop from text.now) comment) text.now from result }
{
    for i in from..text.len() {
        let b = text[i];
        if b == b'"' {
            return Ok(i + 1);
        }
        if b != b'\n' && !is_printable(b) {
            return Err(Fault::StrayMark);
        }
    }
    Err(Fault::Unfinished)
}

// Blanks, newlines and comments, as many as there are: the place after them.
pub fn skip(text: &[u8], from: usize) -> Result<usize, Fault>
    ensures { SkipsOver text.now from result }
{
    let mut at = from;
    while at < text.len() {
        match text[at] {
            b'"' => at = comment(text, at + 1)?,
            b' ' | b'\n' => at += 1,
            _ => return Ok(at),
        }
    }
    Ok(at)
}

// After `F` or `S`.
fn variable(text: &[u8], at: usize, b: u8) -> Result<Lexed, Misread>
    requires { at ≤ length text.now }
    ensures { (a : Access) → access_byte a ≡ b → Lexes (begins ∷ tokens (drop at text.now) (after-access a)) text.now at result }
{
    let Some(&d) = text.get(at) else {
        return fault(Fault::Unfinished, at);
    };
    let digit = match d {
        b'0' => ZERO_AS,
        b'1'..=b'9' => d - b'0',
        _ => return fault(Fault::StrayMark, at),
    };
    Ok(Lexed {
        token: Token::Variable(b, digit),
        next: at + 1,
    })
}

// After the `$` that opens a counter.
fn counter(text: &[u8], from: usize) -> Result<Lexed, Misread>
    requires { from ≤ length text.now }
    ensures { Lexes (begins ∷ tokens (drop from text.now) (number counter_form 0 0)) text.now from result }
{
    let read = digits(text, from, COUNTER);
    let Ok(Number { value, next }) = read else {
        return fault(read.unwrap_err(), from);
    };
    if value == 0 {
        return fault(Fault::BadCounter, from);
    }
    Ok(Lexed {
        token: Token::Counter(value),
        next,
    })
}

// After `'/` and perhaps `-`.
fn constant(text: &[u8], from: usize, minus: bool) -> Result<Lexed, Misread>
    requires { from ≤ length text.now }
    ensures { Lexes (begins ∷ tokens (drop from text.now) (number (constant_form minus) 0 0)) text.now from result }
{
    let read = digits(text, from, CONSTANT);
    let Ok(Number { value, next }) = read else {
        return fault(read.unwrap_err(), from);
    };
    let plain = value as i32;
    let token = Token::Constant(if minus { -plain } else { plain });
    Ok(Lexed { token, next })
}

// After the `''` that opens a print.
fn print(text: &[u8], from: usize) -> Result<Lexed, Misread>
    requires { from ≤ length text.now }
    ensures { Lexes (begins ∷ tokens (drop from text.now) (printing [])) text.now from result }
{
    for i in from..text.len() {
        let b = text[i];
        if b == b'\'' {
            return Ok(Lexed {
                token: Token::Print(from, i - from),
                next: i + 1,
            });
        }
        if !is_printable(b) {
            return fault(Fault::StrayMark, i);
        }
    }
    fault(Fault::Unfinished, text.len())
}

// After a `'`: a print or a constant.
fn quoted(text: &[u8], at: usize) -> Result<Lexed, Misread>
    requires { at ≤ length text.now }
    ensures { Lexes (begins ∷ tokens (drop at text.now) after-tick) text.now at result }
{
    match text.get(at) {
        None => fault(Fault::Unfinished, at),
        Some(b'\'') => print(text, at + 1),
        Some(b'/') => match text.get(at + 1) {
            None => fault(Fault::Unfinished, at),
            Some(b'-') => constant(text, at + 2, true),
            Some(_) => constant(text, at + 1, false),
        },
        Some(_) => fault(Fault::StrayMark, at),
    }
}

// The next token after blanks and comments. They are skipped here too: with a call of `skip` for each token, the tokens of a text took 1.2 times as
// long.
pub fn next_token(text: &[u8], from: usize) -> Result<Lexed, Misread>
    ensures { Takes (tokens (drop from text.now) idle) text.now from result }
{
    let mut at = from;
    while at < text.len() {
        let b = text[at];
        let next = at + 1;
        let token = match kind_of(b) {
            Kind::Blank => {
                at = next;
                continue;
            },
            Kind::Quote => match comment(text, next) {
                Ok(after) => {
                    at = after;
                    continue;
                }
                Err(why) => return fault(why, next),
            },
            Kind::Open => Token::Open,
            Kind::Close => Token::Close,
            Kind::Semicolon => Token::Semicolon,
            Kind::Colon => Token::Colon,
            Kind::Operator => Token::Operator(b),
            Kind::Access => return variable(text, next, b),
            Kind::Condition => Token::Condition(b),
            Kind::Letter => Token::Call(b),
            Kind::Dollar => return counter(text, next),
            Kind::Tick => return quoted(text, next),
            Kind::Digit | Kind::Stray => return fault(Fault::StrayMark, next),
        };
        return Ok(Lexed { token, next });
    }
    Ok(Lexed {
        token: Token::End,
        next: at,
    })
}
