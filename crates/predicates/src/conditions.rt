// `N 0 J`: true goes on after the mark, false at its false exit.
ghost use Rattle.std.specs.Prelude.{◌≡◌};
ghost use Rattle.language.specs.Machine.{is_condition};
ghost use Rattle.operands.specs.Held.{stacked};
ghost use Rattle.operands.specs.Turns.{Turns, mark_at};
ghost use Rattle.operands.specs.Ready.{Reading};
ghost use Rattle.predicates.specs.Conditions.{condition_of, needed, holding, Holding};

use language::{Ending, HEIGHT, STORE_CELLS};
use operands::Machine;
use operands::cells::Code;

// `N 0 J`.
#[derive(Clone, Copy, Debug, PartialEq, Eq)]
pub enum Condition {
    Negative,
    Null,
    Equal,
}

// How many values a condition needs.
fn needs(c: Condition) -> usize
    ensures { result ≡ needed c }
{
    match c {
        Condition::Negative => 1,
        Condition::Null => 1,
        Condition::Equal => 2,
    }
}

// Whether a condition holds of a stack that is high enough.
fn holds(c: Condition, list: &[i32; HEIGHT], h: usize) -> bool
    requires { Holding c h }
    ensures { result ≡ holding c list.now h }
{
    match c {
        Condition::Negative => list[h - 1] < 0,
        Condition::Null => list[h - 1] == 0,
        Condition::Equal => list[h - 2] == list[h - 1],
    }
}

// The marks `N 0 J`.
pub fn test<'a>(
    m: Machine,
    cells: &'a [i32; STORE_CELLS],
    code: Code,
    list: &'a [i32; HEIGHT],
    c: Condition,
) -> Machine
    requires { Reading code m }
    ensures { Turns (mark_at cells.now code (is_condition (condition_of c)))
        (stacked m list.now) (stacked result list.now) }
{
    let Some(f) = code.exit_of(cells, m.at) else {
        return m.stop(Ending::Damaged);
    };
    if m.left == 0 {
        return m.stop(Ending::Spent);
    }
    let h = m.height;
    if h < needs(c) {
        return m.stop(Ending::ListEmpty);
    }
    let next = m.at + 2;
    if holds(c, list, h) {
        m.go(next, h)
    } else {
        m.go(f, h)
    }
}
