// The numbers that are held, and the next free one.
ghost use Rattle.std.specs.Prelude.{◌≡◌};
ghost use Rattle.conduct.specs.Lists.{among, distinct};
ghost use Rattle.conduct.specs.Numbers.{next_free, takes_number};

use conduct::codes;

// The library's test under the definition's name, which callers' proofs cite.
pub fn is_among(numbers: &[u32], number: u32) -> bool
    ensures { result ≡ among number numbers.now }
{
    numbers.contains(&number)
}

pub fn all_differ(numbers: &[u32]) -> bool
    ensures { result ≡ distinct numbers.now }
{
    let mut left = numbers;
    while let Some((number, rest)) = left.split_first() {
        if is_among(rest, *number) {
            return false;
        }
        left = rest;
    }
    true
}

// The next number after the last one taken that is not held.
#[tactic(auto, using(crate::proofs::Free::passed_over), unfolding(conduct::specs::Numbers::next_free))]
pub fn next_free(numbers: &[u32], last: u32) -> u32
    ensures { result ≡ next_free numbers.now last }
{
    let mut number = last.wrapping_add(1);
    for _held in numbers {
        if !is_among(numbers, number) {
            return number;
        }
        number = number.wrapping_add(1);
    }
    number
}

// The send events but 5.
pub fn takes_number(code: u32) -> bool
    ensures { result ≡ takes_number code }
{
    matches!(
        code,
        codes::SEND_SESSION_OPEN_REQUEST
            | codes::SEND_SESSION_OK
            | codes::SEND_RESPONSE
            | codes::SEND_ADVISORY
            | codes::SEND_ALERT
            | codes::SEND_GOING_OUT_OF_SERVICE
    )
}
