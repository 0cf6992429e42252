// One open push.
ghost use Rattle.std.specs.Prelude.{◌≡◌, ◌+◌, ◌≤◌};
ghost use Rattle.conduct.specs.Pushes.{terms_of, event_of, sent_again, is_response, may_go_again, again_or, fate_of};
ghost use Rattle.conduct.specs.Sound.{most_sendings, sound_push};
ghost use Rattle.conduct.specs.declared.Sweep.TheVariants as sweeps;

use crate::sound::MOST_RESENDS;
use conduct::{Event, Fate, Push, Pushed, Site, Sweep, Terms, codes};

// What the open pushes of a session are held to.
pub fn terms_of(site: Site) -> Terms
    ensures { result ≡ terms_of site }
{
    Terms {
        ticks: 20,
        resends: site.resends,
    }
}

fn event_of(code: u32, p: Push) -> Event
    ensures { result ≡ event_of code p }
{
    Event {
        code,
        number: p.number,
        detail: p.handle,
    }
}

fn sent_again(p: Push) -> Push
    requires { p.sent ≤ 3 }
    ensures { result ≡ sent_again p }
{
    Push {
        sent: p.sent + 1,
        age: 0,
        ..p
    }
}

pub fn is_response(what: Pushed) -> bool
    ensures { result ≡ is_response what }
{
    matches!(what, Pushed::Response)
}

// Never beyond the most resends that a site may have, whatever the terms say, so that no count of sendings overflows.
fn may_go_again(terms: Terms, p: Push) -> bool
    ensures { result ≡ may_go_again terms p }
{
    is_response(p.what) && p.sent <= terms.resends && p.sent <= MOST_RESENDS
}

// Sent again if that may be, and else closed with the code.
fn again_or(terms: Terms, code: u32, p: Push) -> Fate
    ensures { result ≡ again_or terms code p }
{
    if may_go_again(terms, p) {
        return Fate::Again(sent_again(p), event_of(codes::SEND_RESPONSE_AGAIN, p));
    }
    Fate::Close(event_of(code, p))
}

// What a tick does to it. Its age is compared before it is added to, so that it does not overflow.
fn ticked(terms: Terms, p: Push) -> Fate
    ensures { result ≡ fate_of terms sweeps.Older p }
{
    if p.age < terms.ticks && p.age + 1 < terms.ticks {
        return Fate::Keep(Push {
            age: p.age + 1,
            ..p
        });
    }
    again_or(terms, codes::CLOSED_TIMED_OUT, p)
}

// What a sweep does to an open push.
pub fn fate_of(terms: Terms, sweep: Sweep, p: Push) -> Fate
    ensures { result ≡ fate_of terms sweep p }
{
    match sweep {
        Sweep::Older => ticked(terms, p),
        Sweep::Lost => Fate::Close(event_of(codes::CLOSED_LOST, p)),
        Sweep::Acknowledged(number) if p.number == number => {
            Fate::Close(event_of(codes::CLOSED_ACKNOWLEDGED, p))
        }
        Sweep::UnreadableMessage(number) if p.number == number => {
            again_or(terms, codes::CLOSED_ADVISED, p)
        }
        Sweep::Advised(number) if p.number == number => {
            Fate::Close(event_of(codes::CLOSED_ADVISED, p))
        }
        Sweep::Still | Sweep::Acknowledged(_) | Sweep::UnreadableMessage(_) | Sweep::Advised(_) => {
            Fate::Keep(p)
        }
    }
}

// The sendings after the first.
fn most_again(terms: Terms, what: Pushed) -> u32
    ensures { most_sendings terms what ≡ result + 1 }
{
    match what {
        Pushed::Response => terms.resends,
        Pushed::Advisory => 0,
    }
}

pub fn is_sound(terms: Terms, p: Push) -> bool
    ensures { result ≡ sound_push terms p }
{
    1 <= p.sent && p.sent - 1 <= most_again(terms, p.what) && p.age < terms.ticks
}
