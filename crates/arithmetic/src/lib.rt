// `A M + - * /`: through 64 bits, so that no result wraps before its range is tested.
#![tactic(auto)]

ghost use Rattle.std.specs.Prelude.{◌≡◌};
ghost use Rattle.operands.specs.Held.{stacked};
ghost use Rattle.operands.specs.Turns.{Turns, operator_turn};
ghost use Rattle.operands.specs.Ready.{Ready};
ghost use Rattle.arithmetic.specs.Results.{value_of, unary_of, unary_result, binary_of, divided, binary_result};

use language::{Ending, HEIGHT, LEAST_VALUE, MOST_VALUE};
use operands::Machine;

// `A` and `M`.
#[derive(Clone, Copy, Debug, PartialEq, Eq)]
pub enum UnaryOperator {
    Absolute,
    Negate,
}

// `+ - * /`.
#[derive(Clone, Copy, Debug, PartialEq, Eq)]
pub enum BinaryOperator {
    Add,
    Subtract,
    Multiply,
    Divide,
}

// "range: result outside the values"
#[tactic(auto, unfolding(language::specs::Values::is_value))]
fn ranged(z: i64) -> Result<i32, Ending>
    ensures { result ≡ value_of z }
{
    if z < i64::from(LEAST_VALUE) || i64::from(MOST_VALUE) < z {
        return Err(Ending::Range);
    }
    Ok(z as i32)
}

// The result of an operator on the top.
fn unary_result(o: UnaryOperator, x: i32) -> Result<i32, Ending>
    ensures { result ≡ unary_result o x }
{
    let z = i64::from(x);
    match o {
        UnaryOperator::Absolute => ranged(z.abs()),
        UnaryOperator::Negate => ranged(-z),
    }
}

// "zero divisor"; else document 02, U5: "the greatest whole number not above the exact quotient". The processor drops the remainder toward zero. So where
// the exact quotient is negative, a dividend one nearer to 0 is divided, and 1 taken from the result.
fn divided(x: i32, y: i32) -> Result<i64, Ending>
    ensures { result ≡ divided x y }
{
    let a = i64::from(x);
    let b = i64::from(y);
    if b == 0 {
        return Err(Ending::ZeroDivisor);
    }
    if a < 0 {
        if b < 0 {
            return Ok(a / b); // both are negative
        }
        return Ok((a + 1) / b - 1);
    }
    if a == 0 {
        return Ok(0);
    }
    if b < 0 {
        return Ok((a - 1) / b - 1);
    }
    Ok(a / b)
}

// The result of an operator on second and top: "24 before 23".
fn binary_result(o: BinaryOperator, x: i32, y: i32) -> Result<i32, Ending>
    ensures { result ≡ binary_result o x y }
{
    let a = i64::from(x);
    let b = i64::from(y);
    match o {
        BinaryOperator::Add => ranged(a + b),
        BinaryOperator::Subtract => ranged(a - b),
        BinaryOperator::Multiply => ranged(a * b),
        BinaryOperator::Divide => ranged(divided(x, y)?),
    }
}

// The marks `A` and `M`.
pub fn unary(m: Machine, list: &mut [i32; HEIGHT], o: UnaryOperator) -> Machine
    requires { Ready m }
    ensures { Turns (operator_turn (unary_of o)) (stacked m list.old) (stacked result list.new) }
{
    if m.left == 0 {
        return m.stop(Ending::Spent);
    }
    let h = m.height;
    if h < 1 {
        return m.stop(Ending::ListEmpty);
    }
    match unary_result(o, list[h - 1]) {
        Ok(z) => {
            list[h - 1] = z;
            m.go(m.at + 1, h)
        }
        Err(ending) => m.stop(ending),
    }
}

// The marks `+ - * /`: "21 before 24 before 23".
pub fn binary(m: Machine, list: &mut [i32; HEIGHT], o: BinaryOperator) -> Machine
    requires { Ready m }
    ensures { Turns (operator_turn (binary_of o)) (stacked m list.old) (stacked result list.new) }
{
    if m.left == 0 {
        return m.stop(Ending::Spent);
    }
    let h = m.height;
    if h < 2 {
        return m.stop(Ending::ListEmpty);
    }
    match binary_result(o, list[h - 2], list[h - 1]) {
        Ok(z) => {
            list[h - 2] = z;
            list[h - 1] = 0;
            m.go(m.at + 1, h - 1)
        }
        Err(ending) => m.stop(ending),
    }
}
