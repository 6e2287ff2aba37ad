// The first pass over a whole expression.
ghost use Rattle.emitter.specs.Drafts.{draft_at, Marks};
ghost use Rattle.assembler.specs.Taking.{taken, Takeable};
ghost use Rattle.assembler.specs.Scanning.{Blank, Scans};

use emitter::pass::{Draft, Pass};
use language::{CONSTANT_CODE, Fault};
use lexer::{Token, next_token};

// One token.
#[tactic(auto, unfolding(crate::specs::Taking::taken))]
fn take(pass: &mut Pass, draft: &mut Draft, text: &[u8], token: Token) -> Result<(), Fault>
    requires { Takeable text.now token (draft_at draft.old pass.old) }
    ensures { Marks (taken text.now token) draft.old pass.old result draft.new pass.new }
{
    match token {
        Token::End => Err(Fault::Unfinished),
        Token::Open => pass.open(draft),
        Token::Close => pass.close(draft),
        Token::Semicolon => pass.semicolon(draft),
        Token::Colon => pass.colon(draft),
        Token::Operator(b) => pass.operator(draft, b),
        Token::Variable(b, k) => pass.operand(draft, b, i32::from(k)),
        Token::Condition(b) => pass.test(draft, b),
        Token::Call(b) => pass.test(draft, b),
        Token::Counter(n) => pass.counter(draft, n),
        Token::Constant(v) => pass.operand(draft, CONSTANT_CODE, v),
        Token::Print(from, len) => pass.print(draft, &text[from..from + len]),
    }
}

// From the place after the outermost `(` to the place after its `)`.
#[tactic(auto, using(crate::proofs::Scanning::bounds, crate::proofs::Scanning::fine, crate::proofs::Scanning::not_end, crate::proofs::Scanning::ends_whole))]
pub fn scan(text: &[u8], from: usize, draft: &mut Draft) -> Result<usize, Fault>
    requires { Blank text.now draft.old }
    ensures { Scans text.now from result draft.new }
{
    let mut pass = Pass::fresh();
    let mut at = from;
    while pass.level != 0 {
        let lexed = next_token(text, at)?;
        take(&mut pass, draft, text, lexed.token)?;
        at = lexed.next;
    }
    draft.level = pass.level;
    draft.used = pass.used;
    Ok(at)
}
