// The test behind refusal 27, as far as it is about the site and the state.
ghost use Rattle.std.specs.Prelude.{◌≡◌, ◌||◌, ◌==◌};
ghost use Rattle.conduct.specs.Session.{is_up, allowed_interval, allowed_resends};
ghost use Rattle.conduct.specs.Sound.{sound_state};

use crate::states::is_up;
use conduct::State;

// The most that a site may have.
pub(crate) const MOST_RESENDS: u32 = 3;

pub fn is_allowed(interval: u32) -> bool
    ensures { result ≡ allowed_interval interval }
{
    (21..=6000).contains(&interval)
}

pub fn is_resends_allowed(resends: u32) -> bool
    ensures { result ≡ allowed_resends resends }
{
    resends <= MOST_RESENDS
}

pub fn is_state_sound(interval: u32, state: State) -> bool
    ensures { result ≡ sound_state interval state }
{
    match state {
        State::Waiting(left) => (1..=300).contains(&left),
        State::Opening(age) | State::Confirming(_, age) | State::Up(Some(_), age) => age < 20,
        State::Up(None, age) => age < interval,
        State::Connecting | State::Stopped => true,
    }
}

// Whether so many pushes may be open in a state: none but in Up.
pub fn is_count_sound(state: State, count: usize) -> bool
    ensures { result ≡ (is_up state || count == 0) }
{
    is_up(state) || count == 0
}
