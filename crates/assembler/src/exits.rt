// The second pass, right to left: false exits and ends of expressions.
ghost use Rattle.std.specs.Prelude.{◌≡◌};
ghost use Rattle.assembler.specs.Exits.{ahead, settled, linked, Settleable, Fillable};

use emitter::pass::{Draft, LEVEL_PLACES, Open};
use language::Table;

// For each level its false exit, and the cell after its `)` cell, as they are ahead of a cell.
#[derive(Drop)]
struct Exits {
    falses: [i32; LEVEL_PLACES],
    ends: [i32; LEVEL_PLACES],
}

impl Exits {
    // The cell at place i, in which this waits.
    #[tactic(auto, unfolding(crate::specs::Exits::settled))]
    fn settle(&mut self, cells: &mut [i32; Table::CELLS], i: usize, waits: Open)
        requires { Settleable i waits }
        ensures { ahead cells.new self.new ≡ settled (ahead cells.old self.old) i waits }
    {
        let next = (i + 2) as i32;
        match waits {
            Open::Known => {}
            Open::Exit(v) => {
                cells[i] = self.falses[usize::from(v)];
            }
            Open::End(v) => {
                let level = usize::from(v);
                cells[i] = self.ends[level];
                self.falses[level] = next;
            }
            Open::Close(v) => {
                let level = usize::from(v);
                cells[i] = self.falses[level];
                self.falses[level + 1] = next;
                self.ends[level + 1] = next;
            }
            Open::Colon(v) => {
                self.falses[usize::from(v)] = next;
            }
        }
    }
}

// The used cells, from the last one back. It stays apart from the first pass, whose loop it would cost registers.
#[tactic(auto, using(crate::proofs::ExitsFilling::filled_down, crate::proofs::ExitsFilling::filled_none), unfolding(crate::specs::Exits::linked, crate::specs::Exits::settled))]
#[inline(never)]
pub fn fill(draft: &mut Draft)
    requires { Fillable draft.old }
    ensures { draft.new ≡ linked draft.old }
{
    let mut exits = Exits {
        falses: [0i32; LEVEL_PLACES],
        ends: [0i32; LEVEL_PLACES],
    };
    for i in (0..draft.used).rev() {
        let waits = draft.opens[i];
        // Most cells are known.
        if waits != Open::Known {
            exits.settle(&mut draft.cells, i, waits);
        }
    }
}
