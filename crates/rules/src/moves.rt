// Moves: where a call leads, what it means for the pushes and what it says; those of a tick, of stop, and of a message that opens the session or names nothing.
ghost use Rattle.std.specs.Prelude.{◌≡◌};
ghost use Rattle.std.specs.Prelude.{None};
ghost use Rattle.conduct.specs.declared.State.TheVariants as states;
ghost use Rattle.conduct.specs.Rules as Rules;

use crate::states::is_linked;
use conduct::{Conduct, Move, Parting, Remark, State, Sweep, codes};
use message::Status;

// The tick after this age is the 20th.
const LAST_AGE: u32 = 19;

pub fn goes(to: State, remark: Remark) -> Move
    ensures { result ≡ Rules.goes to remark }
{
    Move {
        to,
        parting: Parting::Nothing,
        sweep: Sweep::Still,
        remark,
    }
}

// To a state, and each push is one tick older.
fn ages(to: State, remark: Remark) -> Move
    ensures { result ≡ Rules.ages to remark }
{
    Move {
        sweep: Sweep::Older,
        ..goes(to, remark)
    }
}

// The same state, and what a message does to the push that it names.
pub fn touches(state: State, sweep: Sweep) -> Move
    ensures { result ≡ Rules.touches state sweep }
{
    Move {
        sweep,
        ..goes(state, Remark::Nothing)
    }
}

fn leaves(to: State, parting: Parting) -> Move
    ensures { result ≡ Rules.leaves to parting }
{
    Move {
        parting,
        sweep: Sweep::Lost,
        ..goes(to, Remark::Nothing)
    }
}

pub fn waits(parting: Parting) -> Move
    ensures { result ≡ Rules.waits parting }
{
    leaves(State::Waiting(300), parting)
}

// In Up while no SessionOk is open: the heartbeat is due at the last tick of the interval. An age past the interval, which no consistent record has,
// is not added to, so that it does not overflow.
fn tick_quiet(interval: u32, next: u32, age: u32) -> Move
    ensures { result ≡ Rules.tick interval next (states.Up None age) }
{
    if age < interval && age + 1 < interval {
        return ages(State::Up(None, age + 1), Remark::Nothing);
    }
    ages(
        State::Up(Some(next), 0),
        Remark::Note(codes::SEND_SESSION_OK, 0),
    )
}

// A tick, where the next send event would take the number `next`.
pub fn tick(interval: u32, next: u32, state: State) -> Move
    ensures { result ≡ Rules.tick interval next state }
{
    match state {
        State::Waiting(left) if 1 < left => goes(State::Waiting(left - 1), Remark::Nothing),
        State::Waiting(_) => goes(State::Connecting, Remark::Note(codes::CONNECT, 0)),
        State::Opening(age) if age < LAST_AGE => goes(State::Opening(age + 1), Remark::Nothing),
        State::Opening(_) => waits(Parting::Alert),
        State::Confirming(number, age) if age < LAST_AGE => {
            goes(State::Confirming(number, age + 1), Remark::Nothing)
        }
        State::Up(Some(number), age) if age < LAST_AGE => {
            ages(State::Up(Some(number), age + 1), Remark::Nothing)
        }
        State::Confirming(_, _) | State::Up(Some(_), _) => waits(Parting::GoingOut),
        State::Up(None, age) => tick_quiet(interval, next, age),
        State::Connecting | State::Stopped => goes(state, Remark::Nothing),
    }
}

pub fn stop(state: State) -> Move
    ensures { result ≡ Rules.stop state }
{
    if is_linked(state) {
        leaves(State::Stopped, Parting::GoingOut)
    } else {
        leaves(State::Stopped, Parting::Nothing)
    }
}

// The answer to the SessionOpenRequest.
pub fn answered(next: u32, status: Status) -> Move
    ensures { result ≡ Rules.answered next status }
{
    match status {
        Status::Ok | Status::RedundantSession => goes(
            State::Confirming(next, 0),
            Remark::Note(codes::SEND_SESSION_OK, 0),
        ),
        Status::Other => waits(Parting::Disconnect),
    }
}

// As which status one counts: in the new conduct RedundantSession is like any unknown one.
pub fn counted_in(conduct: Conduct, status: Status) -> Status
    ensures { result ≡ Rules.counted_in conduct status }
{
    match (conduct, status) {
        (Conduct::New, Status::RedundantSession) => Status::Other,
        _ => status,
    }
}

pub fn matches_nothing(state: State) -> Move
    ensures { result ≡ Rules.matches_nothing state }
{
    goes(state, Remark::Note(codes::UNMATCHED, 0))
}
