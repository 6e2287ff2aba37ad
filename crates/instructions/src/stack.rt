// `L P I F S` and constants: what moves values onto the operand stack, off it and beside it.
ghost use Rattle.language.specs.Syntax.{discard, copy, input};
ghost use Rattle.language.specs.Machine.{is_variable, is_constant};
ghost use Rattle.operands.specs.Held.{stacked, fed, storing};
ghost use Rattle.operands.specs.Turns.{Turns, pushing, operator_turn, mark_at};
ghost use Rattle.operands.specs.Ready.{Ready, Pushing, Reading};
ghost use Rattle.instructions.specs.Accesses.{access_of};

use language::{Ending, HEIGHT, STORE_CELLS, VARIABLES};
use operands::Machine;
use operands::cells::Code;
use validation::is_value;

// `F` and `S`.
#[derive(Clone, Copy, Debug, PartialEq, Eq)]
pub enum Access {
    Fetch,
    Save,
}

// A value is pushed, and the next cell is at.
fn push(m: Machine, list: &mut [i32; HEIGHT], v: i32, at: usize) -> Machine
    requires { Pushing m }
    ensures { Turns (pushing v at) (stacked m list.old) (stacked result list.new) }
{
    let h = m.height;
    if h < HEIGHT {
        list[h] = v;
        m.go(at, h + 1)
    } else {
        m.stop(Ending::ListFull)
    }
}

// The mark `L`.
#[tactic(auto, unfolding(language::specs::Effects::perform))]
pub fn discard(m: Machine, list: &mut [i32; HEIGHT]) -> Machine
    requires { Ready m }
    ensures { Turns (operator_turn discard) (stacked m list.old) (stacked result list.new) }
{
    if m.left == 0 {
        return m.stop(Ending::Spent);
    }
    let h = m.height;
    if h < 1 {
        return m.stop(Ending::ListEmpty);
    }
    list[h - 1] = 0;
    m.go(m.at + 1, h - 1)
}

// The mark `P`.
#[tactic(auto, unfolding(language::specs::Effects::perform))]
pub fn copy(m: Machine, list: &mut [i32; HEIGHT]) -> Machine
    requires { Ready m }
    ensures { Turns (operator_turn copy) (stacked m list.old) (stacked result list.new) }
{
    if m.left == 0 {
        return m.stop(Ending::Spent);
    }
    let h = m.height;
    if h < 1 {
        return m.stop(Ending::ListEmpty);
    }
    let v = list[h - 1];
    push(m, list, v, m.at + 1)
}

// The mark `I`: "25 before 22".
#[tactic(auto, unfolding(language::specs::Effects::perform))]
pub fn input(m: Machine, inputs: &[i32], list: &mut [i32; HEIGHT]) -> Machine
    requires { Ready m }
    ensures { Turns (operator_turn input) (fed m inputs.now list.old) (fed result inputs.now list.new) }
{
    if m.left == 0 {
        return m.stop(Ending::Spent);
    }
    let t = m.taken;
    let h = m.height;
    if t < inputs.len() {
        if h < HEIGHT {
            list[h] = inputs[t];
            return Machine { taken: t + 1, ..m }.go(m.at + 1, h + 1);
        }
        return m.stop(Ending::ListFull);
    }
    m.stop(Ending::NoInput)
}

// A constant.
pub fn constant(
    m: Machine,
    cells: &[i32; STORE_CELLS],
    code: Code,
    list: &mut [i32; HEIGHT],
) -> Machine
    requires { Reading code m }
    ensures { Turns (mark_at cells.now code is_constant) (stacked m list.old) (stacked result list.new) }
{
    let Some(v) = code.second_cell(cells, m.at) else {
        return m.stop(Ending::Damaged);
    };
    if !is_value(v) {
        return m.stop(Ending::Damaged);
    }
    if m.left == 0 {
        return m.stop(Ending::Spent);
    }
    push(m, list, v, m.at + 2)
}

// The marks `F` and `S`.
pub fn variable(
    m: Machine,
    cells: &[i32; STORE_CELLS],
    code: Code,
    vars: &mut [i32; VARIABLES],
    list: &mut [i32; HEIGHT],
    a: Access,
) -> Machine
    requires { Reading code m }
    ensures { Turns (mark_at cells.now code (is_variable (access_of a)))
        (storing m vars.old list.old) (storing result vars.new list.new) }
{
    let at = m.at;
    let Some(d) = code.digit_at(cells, at) else {
        return m.stop(Ending::Damaged);
    };
    if m.left == 0 {
        return m.stop(Ending::Spent);
    }
    let k = d % VARIABLES;
    match a {
        Access::Fetch => push(m, list, vars[k], at + 2),
        Access::Save => {
            let h = m.height;
            if h < 1 {
                return m.stop(Ending::ListEmpty);
            }
            vars[k] = list[h - 1];
            m.go(at + 2, h)
        }
    }
}
