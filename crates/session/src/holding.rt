// The numbers that are held when a call begins.
ghost use Rattle.std.specs.Prelude.{◌≡◌, ◌≤◌, take};
ghost use Rattle.conduct.specs.Session.{awaited_numbers, session_ok_numbers, held};
ghost use Rattle.session.specs.Record.{session_of};

use crate::Session;
use conduct::State;

// A session, and the numbers that it holds: the first `count` ones, that of the open SessionOk, if any, and then those of the open pushes.
#[derive(Clone, Copy)]
pub(crate) struct Holding {
    pub(crate) session: Session,
    numbers: [u32; 33],
    count: usize,
    ghost fits: { count ≤ 33 },
    ghost held: { take count numbers ≡ held (session_of session) },
}

// The SessionOk that is open in a state.
fn awaited_in(state: State) -> Option<u32>
    ensures { awaited_numbers result ≡ session_ok_numbers state }
{
    match state {
        State::Confirming(number, _) => Some(number),
        State::Up(awaited, _) => awaited,
        State::Waiting(_) | State::Connecting | State::Opening(_) | State::Stopped => None,
    }
}

impl Holding {
    pub(crate) fn of(session: &Session) -> Holding
        requires { session.now.pushes.count ≤ 32 }
        ensures { result.session ≡ session.now }
    {
        let mut numbers = [0; 33];
        let mut count = 0;
        if let Some(number) = awaited_in(session.state) {
            numbers[0] = number;
            count = 1;
        }
        for p in session.pushes.open_rows() {
            numbers[count] = p.number;
            count += 1;
        }
        Holding {
            session: *session,
            numbers,
            count,
        }
    }

    pub(crate) fn numbers(&self) -> &[u32]
        ensures { result.now ≡ held (session_of self.now.session) }
    {
        &self.numbers[..self.count]
    }
}
