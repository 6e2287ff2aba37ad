// The first pass, left to right: every limit, all that a cell can know, and what is open in the others.
ghost use Rattle.std.specs.Prelude.{◌≡◌, [], ◌∷◌, ◌+◌, ◌≤◌, ◌<◌};
ghost use Rattle.language.specs.Limits.{max_cells, max_levels};
ghost use Rattle.language.specs.Layout.{opcode};
ghost use Rattle.emitter.specs.Drafts.{known, semi_at, cell, fresh, fit, opened, closed, coloned, operand_cells, test_cells, counted, print_cells};
ghost use Rattle.emitter.specs.Drafts.{draft_at, pass_fit, pass_closed, pass_coloned, pass_counted};
ghost use Rattle.emitter.specs.Drafts.{Inside, Countable, Printable, Steps, HasRoom, Puts, Marks, cleared};

use language::{Fault, PRINT_CODE, Table};

// The byte of `$`, which a counter's opcode is minus.
const COUNTER_CODE: u8 = b'$';

// A place for the level around the outermost expression, for each level, and for one more.
pub const LEVEL_PLACES: usize = Table::LEVELS + 2;

// What is open in a cell, and at which level: nothing where it is known; a false exit; the end of an expression at its `;`; the false exit of the
// expression around at a `)`, at the level around. A `:` is known, and the second pass needs its level.
#[derive(Clone, Copy, Debug, PartialEq, Eq)]
pub enum Open {
    Known,
    Exit(u8),
    End(u8),
    Close(u8),
    Colon(u8),
}

// Where the pass is: the nesting level and the used cells so far. It stands apart from the cells that it lays: within them, each mark would wait for the one
// before to be stored.
#[derive(Clone, Copy)]
pub struct Pass {
    pub level: usize,
    pub used: usize,
}

// The level and the used cells that a pass begins or has ended with; the counters so far; for each cell its value and what is open in it; and for each level
// the first cell of its expression.
#[derive(Clone, Copy)]
pub struct Draft {
    pub level: usize,
    pub used: usize,
    pub counters: usize,
    pub cells: [i32; Table::CELLS],
    pub opens: [Open; Table::CELLS],
    pub starts: [i32; LEVEL_PLACES],
}

#[tactic(auto, unfolding(crate::specs::Drafts::fresh))]
impl Draft {
    // Inside the outermost `(`, after cell 1.
    pub fn fresh() -> Draft
        ensures { result ≡ fresh }
    {
        let mut cells = [0i32; Table::CELLS];
        cells[0] = Table::FIRST_CELL;
        let mut starts = [0i32; LEVEL_PLACES];
        starts[1] = Table::CODE_START as i32;
        Draft {
            level: 1,
            used: 1,
            counters: 0,
            cells,
            opens: [Open::Known; Table::CELLS],
            starts,
        }
    }
}

#[tactic(auto, using(crate::proofs::Drafts::pass_fit_room, crate::proofs::Drafts::pass_fit_full, crate::proofs::Drafts::open_room, crate::proofs::Drafts::open_full, crate::proofs::Drafts::pass_close_last, crate::proofs::Drafts::pass_close_inner, crate::proofs::Drafts::pass_count_room, crate::proofs::Drafts::pass_count_full, crate::proofs::Drafts::bytes_length, crate::proofs::Drafts::pass_bytes_past), unfolding(crate::specs::Drafts::fresh, crate::specs::Drafts::pass_coloned))]
impl Pass {
    // Inside the outermost `(`, after cell 1.
    pub fn fresh() -> Pass
        ensures { draft_at fresh result ≡ fresh }
    {
        Pass { level: 1, used: 1 }
    }

    // Whether there is room for so many cells more.
    fn room(&self, more: usize) -> Result<(), Fault>
        requires { self.now.used ≤ max_cells }
        ensures { HasRoom self.now more result }
    {
        if Table::CELLS - self.used < more {
            return Err(Fault::TableFull);
        }
        Ok(())
    }

    // One more cell. A cell not used yet is known.
    fn put(&mut self, draft: &mut Draft, value: i32, waits: Open)
        requires { self.old.used < max_cells }
        ensures { Puts (cell value waits) draft.old self.old draft.new self.new }
    {
        let at = self.used;
        draft.cells[at] = value;
        if waits != Open::Known {
            draft.opens[at] = waits;
        }
        self.used = at + 1;
    }

    // An opcode's cell: "A mark's code is minus its byte".
    fn code(&mut self, draft: &mut Draft, code: u16)
        requires { self.old.used < max_cells }
        ensures { Puts (known (opcode code)) draft.old self.old draft.new self.new }
    {
        self.put(draft, -i32::from(code), Open::Known);
    }

    // The level as a cell has it.
    fn depth(&self) -> u8
        requires { self.now.level ≤ max_levels }
        ensures { result ≡ self.now.level }
    {
        self.level as u8
    }

    // A mark of one cell.
    pub fn operator(&mut self, draft: &mut Draft, b: u8) -> Result<(), Fault>
        requires { Inside (draft_at draft.old self.old) }
        ensures { Marks (λ d. pass_fit d (known (opcode b) ∷ [])) draft.old self.old result draft.new self.new }
    {
        self.room(1)?;
        self.code(draft, u16::from(b));
        Ok(())
    }

    // A variable's or a constant's opcode and its value.
    pub fn operand(&mut self, draft: &mut Draft, code: u8, value: i32) -> Result<(), Fault>
        requires { Inside (draft_at draft.old self.old) }
        ensures { Marks (λ d. pass_fit d (operand_cells code value)) draft.old self.old result draft.new self.new }
    {
        self.room(2)?;
        self.code(draft, u16::from(code));
        self.put(draft, value, Open::Known);
        Ok(())
    }

    // A predicate's or a call's opcode and its false exit.
    pub fn test(&mut self, draft: &mut Draft, b: u8) -> Result<(), Fault>
        requires { Inside (draft_at draft.old self.old) }
        ensures { Marks (λ d. pass_fit d (test_cells b d.level)) draft.old self.old result draft.new self.new }
    {
        self.room(2)?;
        self.code(draft, u16::from(b));
        self.put(draft, 0, Open::Exit(self.depth()));
        Ok(())
    }

    // A counter's opcode, -n, its order in the text and its false exit.
    pub fn counter(&mut self, draft: &mut Draft, n: u32) -> Result<(), Fault>
        requires { Countable (draft_at draft.old self.old) n }
        ensures { Marks (λ d. pass_counted d n) draft.old self.old result draft.new self.new }
    {
        let order = draft.counters;
        if Table::COUNTERS <= order {
            return Err(Fault::ManyCounters);
        }
        self.room(4)?; // "9 before 8"
        draft.counters = order + 1;
        self.code(draft, u16::from(COUNTER_CODE));
        self.code(draft, n as u16);
        self.put(draft, order as i32, Open::Known);
        self.put(draft, 0, Open::Exit(self.depth()));
        Ok(())
    }

    // A `;`.
    pub fn semicolon(&mut self, draft: &mut Draft) -> Result<(), Fault>
        requires { Inside (draft_at draft.old self.old) }
        ensures { Marks (λ d. pass_fit d (semi_at d.level ∷ [])) draft.old self.old result draft.new self.new }
    {
        self.room(1)?;
        self.put(draft, 0, Open::End(self.depth()));
        Ok(())
    }

    // A `:`, which holds the first cell of its expression.
    pub fn colon(&mut self, draft: &mut Draft) -> Result<(), Fault>
        requires { Inside (draft_at draft.old self.old) }
        ensures { Marks pass_coloned draft.old self.old result draft.new self.new }
    {
        self.room(1)?;
        let start = draft.starts[self.level];
        self.put(draft, start, Open::Colon(self.depth()));
        Ok(())
    }

    // A `(` inside the outermost one.
    pub fn open(&mut self, draft: &mut Draft) -> Result<(), Fault>
        requires { Inside (draft_at draft.old self.old) }
        ensures { Marks opened draft.old self.old result draft.new self.new }
    {
        if Table::LEVELS <= self.level {
            return Err(Fault::Deep);
        }
        let deeper = self.level + 1;
        draft.starts[deeper] = (self.used + 1) as i32;
        self.level = deeper;
        Ok(())
    }

    // A `)`, which belongs to the expression around it; the last one has two cells.
    pub fn close(&mut self, draft: &mut Draft) -> Result<(), Fault>
        requires { Inside (draft_at draft.old self.old) }
        ensures { Marks pass_closed draft.old self.old result draft.new self.new }
    {
        if self.level == 1 {
            self.room(2)?; // "both its cells"
            self.level = 0;
            self.put(draft, 0, Open::Close(0));
            self.put(draft, 1, Open::Known);
            return Ok(());
        }
        self.room(1)?;
        self.level -= 1;
        self.put(draft, 0, Open::Close(self.depth()));
        Ok(())
    }

    // A print's opcode, its length and its bytes.
    pub fn print(&mut self, draft: &mut Draft, bytes: &[u8]) -> Result<(), Fault>
        requires { Printable (draft_at draft.old self.old) bytes.now }
        ensures { Marks (λ d. pass_fit d (print_cells bytes.now)) draft.old self.old result draft.new self.new }
    {
        self.room(2 + bytes.len())?;
        self.code(draft, u16::from(PRINT_CODE));
        self.put(draft, bytes.len() as i32, Open::Known);
        for i in 0..bytes.len() {
            self.put(draft, i32::from(bytes[i]), Open::Known);
        }
        Ok(())
    }
}

// The marks of a draft: those of a pass from where the draft stands, which it follows. They write what is open of each cell that they lay, of a known one too.
#[tactic(auto)]
impl Draft {
    // A pass from where the draft stands.
    fn pass(&self) -> Pass
        ensures { draft_at self.now result ≡ self.now }
    {
        Pass {
            level: self.level,
            used: self.used,
        }
    }

    // So many cells from `at` on are known.
    fn clear(&mut self, at: usize, cells: usize)
        requires { at + cells ≤ max_cells }
        ensures { self.new ≡ record self.old { opens = cleared self.old.opens at cells } }
    {
        for i in at..at + cells {
            self.opens[i] = Open::Known;
        }
    }

    // The draft stands where the pass has come to.
    fn follow(&mut self, pass: Pass)
        ensures { self.new ≡ draft_at self.old pass }
    {
        self.level = pass.level;
        self.used = pass.used;
    }

    // A mark of one cell.
    pub fn operator(&mut self, b: u8) -> Result<(), Fault>
        requires { Inside self.old }
        ensures { Steps (λ d. fit d (known (opcode b) ∷ [])) self.old result self.new }
    {
        let at = self.used;
        let mut pass = self.pass();
        let marked = pass.operator(self, b);
        self.follow(pass);
        if marked.is_ok() {
            self.clear(at, 1); // its one cell
        }
        marked
    }

    // A variable's or a constant's opcode and its value.
    pub fn operand(&mut self, code: u8, value: i32) -> Result<(), Fault>
        requires { Inside self.old }
        ensures { Steps (λ d. fit d (operand_cells code value)) self.old result self.new }
    {
        let at = self.used;
        let mut pass = self.pass();
        let marked = pass.operand(self, code, value);
        self.follow(pass);
        if marked.is_ok() {
            self.clear(at, 2);
        }
        marked
    }

    // A predicate's or a call's opcode and its false exit.
    pub fn test(&mut self, b: u8) -> Result<(), Fault>
        requires { Inside self.old }
        ensures { Steps (λ d. fit d (test_cells b d.level)) self.old result self.new }
    {
        let at = self.used;
        let mut pass = self.pass();
        let marked = pass.test(self, b);
        self.follow(pass);
        if marked.is_ok() {
            self.clear(at, 1); // the exit waits
        }
        marked
    }

    // A counter's opcode, -n, its order in the text and its false exit.
    pub fn counter(&mut self, n: u32) -> Result<(), Fault>
        requires { Countable self.old n }
        ensures { Steps (λ d. counted d n) self.old result self.new }
    {
        let at = self.used;
        let mut pass = self.pass();
        let marked = pass.counter(self, n);
        self.follow(pass);
        if marked.is_ok() {
            self.clear(at, 3);
        }
        marked
    }

    // A `;`.
    pub fn semicolon(&mut self) -> Result<(), Fault>
        requires { Inside self.old }
        ensures { Steps (λ d. fit d (semi_at d.level ∷ [])) self.old result self.new }
    {
        let mut pass = self.pass();
        let marked = pass.semicolon(self);
        self.follow(pass);
        marked
    }

    // A `:`, which holds the first cell of its expression.
    pub fn colon(&mut self) -> Result<(), Fault>
        requires { Inside self.old }
        ensures { Steps coloned self.old result self.new }
    {
        let mut pass = self.pass();
        let marked = pass.colon(self);
        self.follow(pass);
        marked
    }

    // A `(` inside the outermost one.
    pub fn open(&mut self) -> Result<(), Fault>
        requires { Inside self.old }
        ensures { Steps opened self.old result self.new }
    {
        let mut pass = self.pass();
        let marked = pass.open(self);
        self.follow(pass);
        marked
    }

    // A `)`, which belongs to the expression around it; the last one has two cells, the second of which is known.
    pub fn close(&mut self) -> Result<(), Fault>
        requires { Inside self.old }
        ensures { Steps closed self.old result self.new }
    {
        let at = self.used;
        let last = usize::from(self.level == 1);
        let mut pass = self.pass();
        let marked = pass.close(self);
        self.follow(pass);
        if marked.is_ok() {
            self.clear(at + 1, last);
        }
        marked
    }

    // A print's opcode, its length and its bytes.
    pub fn print(&mut self, bytes: &[u8]) -> Result<(), Fault>
        requires { Printable self.old bytes.now }
        ensures { Steps (λ d. fit d (print_cells bytes.now)) self.old result self.new }
    {
        let at = self.used;
        let mut pass = self.pass();
        let marked = pass.print(self, bytes);
        self.follow(pass);
        if marked.is_ok() {
            self.clear(at, 2 + bytes.len());
        }
        marked
    }
}
