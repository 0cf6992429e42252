// Which call fits which state.
ghost use Rattle.std.specs.Prelude.{◌≡◌};
ghost use Rattle.conduct.specs.Session.{is_connecting, is_linked, is_stopped, is_up, given_by_reader, fits, is_push};

use conduct::{Call, State};

fn is_connecting(state: State) -> bool
    ensures { result ≡ is_connecting state }
{
    matches!(state, State::Connecting)
}

pub(crate) fn is_linked(state: State) -> bool
    ensures { result ≡ is_linked state }
{
    matches!(
        state,
        State::Opening(_) | State::Confirming(_, _) | State::Up(_, _)
    )
}

pub fn is_stopped(state: State) -> bool
    ensures { result ≡ is_stopped state }
{
    matches!(state, State::Stopped)
}

pub(crate) fn is_up(state: State) -> bool
    ensures { result ≡ is_up state }
{
    matches!(state, State::Up(_, _))
}

// Whether an item or the reader gives this refusal.
fn given_by_reader(refusal: u32) -> bool
    ensures { result ≡ given_by_reader refusal }
{
    (8..=14).contains(&refusal)
}

pub fn fits(state: State, call: Call) -> bool
    ensures { result ≡ fits state call }
{
    match call {
        Call::Tick | Call::Stop => !is_stopped(state),
        Call::Connected => is_connecting(state),
        Call::Lost => is_connecting(state) || is_linked(state),
        Call::Push(_, _) => is_up(state),
        Call::Heard(_) => is_linked(state),
        Call::Unreadable(refusal) => is_linked(state) && given_by_reader(refusal),
    }
}

pub fn is_push(call: Call) -> bool
    ensures { result ≡ is_push call }
{
    matches!(call, Call::Push(_, _))
}
