// What code and definitions share: a letter's code table with its limits, and the answers of document 01.
#![tactic(auto)]

ghost use Rattle.std.specs.Prelude.{◌≡◌};
ghost use Rattle.language.specs.Answers.{fault_number, ending_number};
ghost use Rattle.language.specs.Layout.{cleared};
ghost use Rattle.language.specs.Roles.{bars};

// The letters of a store, `a` to `z`.
pub const LETTERS: usize = 26;

// The byte of `a`. Letters are 32-bit numbers, of which most are no letter.
pub const FIRST_LETTER: u32 = 97;

// The byte of `z`.
pub const LAST_LETTER: u32 = 122;

// The cells of all letters' tables.
pub const STORE_CELLS: usize = LETTERS * Table::CELLS;

// The counts of all letters' counters.
pub const COUNTS: usize = LETTERS * Table::COUNTERS;

// "ten variables"
pub const VARIABLES: usize = 10;

// "The list starts empty and holds 64."
pub const HEIGHT: usize = 64;

// "A text has at most 256 bytes."
pub const TEXT: usize = 256;

// "Values lie in ±999,999,999."
pub const MOST_VALUE: i32 = 999999999;

// The least of them.
pub const LEAST_VALUE: i32 = -999999999;

// Document 02, U6: "right-justified in 14 columns"
pub const WRITE_WIDTH: usize = 14;

// Document 02, U7: the permission of a letter that anyone may run, "open (0) or steward (1)".
pub const OPEN: u32 = 0;

// The permission of a letter that only a steward may run.
pub const STEWARDS: u32 = 1;

// The role of a run's caller who may run open letters only, "cashier (0) or steward (1)".
pub const CASHIER: u32 = 0;

// The role of a caller who may run every letter.
pub const STEWARD: u32 = 1;

// Whether a letter with this permission is not for a caller with this role.
pub fn bars(role: u32, mark: u32) -> bool
    ensures { result ≡ bars role mark }
{
    if role == CASHIER {
        mark == STEWARDS
    } else {
        false
    }
}

// The code of a constant, which its cell holds negated: "(byte of `/` or `'` plus 128)".
pub const CONSTANT_CODE: u8 = b'/' + 128;

// The same for a print.
pub const PRINT_CODE: u8 = b'\'' + 128;

// One letter's code table: how many of its cells are used, and its cells. Cell 1 of document 01 is `cells[0]`.
#[derive(Clone, Copy, Debug, PartialEq, Eq)]
pub struct Table {
    pub used: usize,
    pub cells: [i32; Table::CELLS],
}

impl Table {
    // The deepest nesting level of a text; the outermost expression is level 1.
    pub const LEVELS: usize = 10;
    // The cells of one letter.
    pub const CELLS: usize = 250;
    // The counters of one text.
    pub const COUNTERS: usize = 16;
    // The calls that may be open at once, the run's own letter not counted.
    pub const CALLS: usize = 100;
    // "Cell 1 holds 2000"
    pub const FIRST_CELL: i32 = 2000;

    // "Code starts at cell 2."
    pub const CODE_START: usize = 2;

    // The table of a cleared letter.
    pub fn fresh() -> Table
        ensures { result ≡ cleared }
    {
        Table {
            used: 0,
            cells: [0i32; Table::CELLS],
        }
    }
}

// The first fault of a text that is refused, in the order of document 01's numbers, 2 to 9.
#[derive(Clone, Copy, Debug, PartialEq, Eq)]
pub enum Fault {
    LongText,
    StrayMark,
    Deep,
    BadCounter,
    BadConstant,
    Unfinished,
    TableFull,
    ManyCounters,
}

impl Fault {
    // Document 01's number.
    pub fn number(self) -> u32
        ensures { result ≡ fault_number self }
    {
        match self {
            Fault::LongText => 2,
            Fault::StrayMark => 3,
            Fault::Deep => 4,
            Fault::BadCounter => 5,
            Fault::BadConstant => 6,
            Fault::Unfinished => 7,
            Fault::TableFull => 8,
            Fault::ManyCounters => 9,
        }
    }
}

// How a run ends: 0 and the documents' numbers 20 to 29 and 34.
#[derive(Clone, Copy, Debug, PartialEq, Eq)]
pub enum Ending {
    Finished,
    Spent,
    ListEmpty,
    ListFull,
    Range,
    ZeroDivisor,
    NoInput,
    PaperOut,
    NoText,
    DeepCalls,
    Damaged,
    StewardCall,
}

impl Ending {
    // The documents' number.
    pub fn number(self) -> u32
        ensures { result ≡ ending_number self }
    {
        match self {
            Ending::Finished => 0,
            Ending::Spent => 20,
            Ending::ListEmpty => 21,
            Ending::ListFull => 22,
            Ending::Range => 23,
            Ending::ZeroDivisor => 24,
            Ending::NoInput => 25,
            Ending::PaperOut => 26,
            Ending::NoText => 27,
            Ending::DeepCalls => 28,
            Ending::Damaged => 29,
            Ending::StewardCall => 34,
        }
    }
}
