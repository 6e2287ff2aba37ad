// The win dividend: what a pool pays on each winning stake.
#![tactic(auto)]

ghost use Rattle.std.specs.Prelude.{◌≡◌, ◌≤◌};
ghost use Rattle.dividend.specs.Dividend.{takeout_of, in_bounds, IsDividend, Settles, pool_error_number, SettledInto};

// "the pool in cents (0 to 999,999,999)"
const MOST_POOL: u32 = 999999999;

// "the takeout in tenths of a percent (0 to 1000)"
const MOST_RATE: u32 = 1000;

// "the number of winning one-unit stakes (0 to 999,999,999)"
const MOST_STAKES: u32 = 999999999;

// The whole in tenths of a percent.
const WHOLE_RATE: u64 = 1000;

// A dividend is a multiple of so many cents.
const DIVIDEND_STEP: u64 = 10;

// "31 bad pool, a figure outside its bounds"
const BAD_POOL: u32 = 31;

// "32 no winner, stakes are 0"
const NO_WINNER: u32 = 32;

// How many figures a payout has.
pub const FIGURES: usize = 5;

// The figures of a pool that is paid out: the dividend in cents for one stake, the others in cents.
#[derive(Clone, Copy, Debug, PartialEq, Eq)]
pub struct Payout {
    pub takeout: u64,
    pub net: u64,
    pub dividend: u64,
    pub payments: u64,
    pub breakage: u64,
}

// Why a pool is not paid out.
#[derive(Clone, Copy, Debug, PartialEq, Eq)]
pub enum PoolError {
    BadPool,
    NoWinner,
}

impl PoolError {
    // Document 02's number.
    pub fn number(self) -> u32
        ensures { result ≡ pool_error_number self }
    {
        match self {
            PoolError::BadPool => BAD_POOL,
            PoolError::NoWinner => NO_WINNER,
        }
    }
}

// The three figures are within their bounds.
fn in_bounds(pool: u32, rate: u32, stakes: u32) -> bool
    ensures { result ≡ in_bounds pool rate stakes }
{
    pool <= MOST_POOL && rate <= MOST_RATE && stakes <= MOST_STAKES
}

// "takeout is pool × rate / 1000 with the rest dropped": the product has up to 64 bits.
fn takeout_of(pool: u32, rate: u32) -> u64
    ensures { result ≡ takeout_of pool rate }
{
    u64::from(pool) * u64::from(rate) / WHOLE_RATE
}

// "The dividend is the greatest multiple of 10 cents that, times the stakes, is not above the net."
fn dividend_of(net: u64, stakes: u32) -> u64
    requires { 1 ≤ stakes }
    ensures { IsDividend net stakes result }
{
    net / (u64::from(stakes) * DIVIDEND_STEP) * DIVIDEND_STEP
}

// What a pool in cents pays, with the takeout in tenths of a percent and the number of winning stakes, or why it pays nothing.
pub fn settle(pool: u32, rate: u32, stakes: u32) -> Result<Payout, PoolError>
    ensures { Settles pool rate stakes result }
{
    if !in_bounds(pool, rate, stakes) {
        return Err(PoolError::BadPool);
    }
    if stakes == 0 {
        return Err(PoolError::NoWinner);
    }
    let takeout = takeout_of(pool, rate);
    let net = u64::from(pool) - takeout;
    let dividend = dividend_of(net, stakes);
    let payments = dividend * u64::from(stakes);
    Ok(Payout {
        takeout,
        net,
        dividend,
        payments,
        breakage: net - payments,
    })
}

// The same for C: the number, and takeout, net, dividend, payments and breakage beside it; five zeros where it is refused.
pub fn settle_into(pool: u32, rate: u32, stakes: u32, figures: &mut [u64; FIGURES]) -> u32
    ensures { SettledInto pool rate stakes result figures.new }
{
    match settle(pool, rate, stakes) {
        Ok(p) => {
            *figures = [p.takeout, p.net, p.dividend, p.payments, p.breakage];
            0 // paid out
        }
        Err(e) => {
            *figures = [0; FIGURES];
            e.number()
        }
    }
}
