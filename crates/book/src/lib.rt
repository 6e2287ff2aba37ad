// What code and definitions share of a call's answer.
#![tactic(auto)]

ghost use Rattle.std.specs.Prelude.{◌≡◌};
ghost use Rattle.book.specs.Replies.{plain};
ghost use Rattle.book.specs.Refusals.{refusal_number, answer_number};
ghost use Rattle.book.specs.declared.Refusal.TheVariants.{BadText};

use language::Fault;

// Why a call on a store is refused, in the order of the documents' numbers: 1, 2 to 9, 10 to 13, 33 and 35.
#[derive(Clone, Copy, Debug, PartialEq, Eq)]
pub enum Refusal {
    NoSuchLetter,
    BadText(Fault),
    NotStanding,
    BadInput,
    BadList,
    BadStore,
    NotForCashiers,
    BadMark,
}

impl Refusal {
    // The documents' number.
    pub fn number(self) -> u32
        ensures { result ≡ refusal_number self }
    {
        match self {
            Refusal::NoSuchLetter => 1,
            Refusal::BadText(fault) => fault.number(),
            Refusal::NotStanding => 10,
            Refusal::BadInput => 11,
            Refusal::BadList => 12,
            Refusal::BadStore => 13,
            Refusal::NotForCashiers => 33,
            Refusal::BadMark => 35,
        }
    }
}

impl From<Fault> for Refusal {
    ghost from_gives = { λ f r. r ≡ BadText f };

    // The refusal of a text with this fault.
    fn from(fault: Fault) -> Refusal {
        Refusal::BadText(fault)
    }
}

// "Define and withdraw return 0 or a refusal"
pub fn answer_number(answer: Result<(), Refusal>) -> u32
    ensures { result ≡ answer_number answer }
{
    match answer {
        Ok(()) => 0,
        Err(refusal) => refusal.number(),
    }
}

// The figures that a call returns: "the ending, truth (false unless finished), steps, list height, inputs taken and output length". The number is
// 0, the ending's or the refusal's.
#[derive(Clone, Copy, Debug, PartialEq, Eq)]
pub struct Report {
    pub number: u32,
    pub truth: bool,
    pub steps: u32,
    pub height: usize,
    pub taken: usize,
    pub written: usize,
}

impl Report {
    // "A refusal of any call returns its number, every other figure 0 and truth false."
    pub fn plain(number: u32) -> Report
        ensures { result ≡ plain number }
    {
        Report {
            number,
            truth: false,
            steps: 0,
            height: 0,
            taken: 0,
            written: 0,
        }
    }
}
