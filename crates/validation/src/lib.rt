// What refuses a letter (1), inputs (11), a store (13), and a mark or a role (35).
#![tactic(auto)]

ghost use Rattle.std.specs.Prelude.{◌≡◌, ◌&&◌};
ghost use Rattle.language.specs.Letters.{is_letter};
ghost use Rattle.language.specs.Roles.{is_permission, is_role};
ghost use Rattle.language.specs.Tables.{sound_count, sound_used, sound_permissions};
ghost use Rattle.language.specs.Values.{is_value, lawful};

use language::{
    CASHIER, FIRST_LETTER, LAST_LETTER, LEAST_VALUE, LETTERS, MOST_VALUE, OPEN, STEWARD, STEWARDS,
    Table, VARIABLES,
};

// "no such letter: not `a` to `z`"
pub fn is_letter(letter: u32) -> bool
    ensures { result ≡ is_letter letter }
{
    (FIRST_LETTER..=LAST_LETTER).contains(&letter)
}

// "bad mark, a mark or role neither of the two": of a mark this is not so.
#[tactic(auto, unfolding(language::specs::Roles::is_permission))]
pub fn is_permission(permission: u32) -> bool
    ensures { result ≡ is_permission permission }
{
    permission == OPEN || permission == STEWARDS
}

// Nor of a role.
#[tactic(auto, unfolding(language::specs::Roles::is_role))]
pub fn is_role(role: u32) -> bool
    ensures { result ≡ is_role role }
{
    role == CASHIER || role == STEWARD
}

// "Values lie in ±999,999,999."
#[tactic(auto, unfolding(language::specs::Values::is_value))]
pub fn is_value(v: i32) -> bool
    ensures { result ≡ is_value v }
{
    (LEAST_VALUE..=MOST_VALUE).contains(&v)
}

// Every number is within the values.
pub fn lawful(values: &[i32]) -> bool
    ensures { result ≡ lawful values.now }
{
    values.iter().all(|x| is_value(*x))
}

// A used-cell count is 0 or 3 to 250.
#[tactic(auto, unfolding(language::specs::Tables::sound_count))]
fn sound_count(n: usize) -> bool
    ensures { result ≡ sound_count n }
{
    n == 0 || (3..=Table::CELLS).contains(&n)
}

// Every used-cell count is sound.
fn sound_used(used: &[usize]) -> bool
    ensures { result ≡ sound_used used.now }
{
    used.iter().all(|x| sound_count(*x))
}

// Every mark is one of the two.
fn sound_permissions(permissions: &[u32]) -> bool
    ensures { result ≡ sound_permissions permissions.now }
{
    permissions.iter().all(|x| is_permission(*x))
}

// "bad store: a used count neither 0 nor 3 to 250, or a variable outside the values", or "a mark with any other value", is not so.
pub fn sound_store(
    used: &[usize; LETTERS],
    permissions: &[u32; LETTERS],
    vars: &[i32; VARIABLES],
) -> bool
    ensures { result ≡ sound_used used.now && sound_permissions permissions.now && lawful vars.now }
{
    sound_used(used) && sound_permissions(permissions) && lawful(vars)
}
