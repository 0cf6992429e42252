// What a message says to the session. A value that is not there names nothing and means other, whatever stands beside it.
ghost use Rattle.std.specs.Prelude.{◌≡◌, cond};
ghost use Rattle.conduct.specs.Lists.{among};
ghost use Rattle.conduct.specs.Session.{awaited_numbers};
ghost use Rattle.conduct.specs.Rules as Rules;

use conduct::Sweep;
use message::{Advice, Status, Value};

fn meant_or<M: Copy>(value: Value<M>, otherwise: M) -> M
    ensures { result ≡ cond value.there value.meaning otherwise }
{
    if value.there {
        value.meaning
    } else {
        otherwise
    }
}

pub fn named_by(value: Value<Option<u32>>) -> Option<u32>
    ensures { result ≡ Rules.named_by value }
{
    meant_or(value, None)
}

pub fn status_by(value: Value<Status>) -> Status
    ensures { result ≡ Rules.status_by value }
{
    meant_or(value, Status::Other)
}

pub fn advice_by(value: Value<Advice>) -> Advice
    ensures { result ≡ Rules.advice_by value }
{
    meant_or(value, Advice::Other)
}

pub fn is_awaited(awaited: Option<u32>, number: u32) -> bool
    ensures { result ≡ among number (awaited_numbers awaited) }
{
    awaited == Some(number)
}

pub fn advises(advice: Advice, n: u32) -> Sweep
    ensures { result ≡ Rules.advises advice n }
{
    match advice {
        Advice::UnreadableMessage => Sweep::UnreadableMessage(n),
        Advice::Other => Sweep::Advised(n),
    }
}
