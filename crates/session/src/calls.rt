// Any call: the refusals in their order, then what the call does.
ghost use Rattle.std.specs.Prelude.{◌≡◌, true, ◌≤◌, Ok};
ghost use Rattle.conduct.specs.Session.{fits, refusal_of};
ghost use Rattle.conduct.specs.Rules.{move_of};
ghost use Rattle.conduct.specs.Step.{answer};
ghost use Rattle.session.specs.Record.{session_of, consistent};
ghost use Rattle.session.specs.Answers.{told_of, told, told_said, number_of_refused};

use crate::holding::Holding;
use crate::{Accepted, Refusal, Session, consistency, tables};
use conduct::{Call, Move, Parting, Remark, State, codes};
use rules::{moves, numbers, states};

// The shortest event list.
const PLACES: usize = 40;

// Whether a consistent session takes the call.
#[tactic(auto, using(crate::proofs::Rows::rows_count))]
fn allowed(s: &Session, call: Call) -> Result<(), Refusal>
    requires { s.now.pushes.count ≤ 32 }
    ensures { number_of_refused result ≡ refusal_of (session_of s.now) call }
{
    if states::is_stopped(s.state) {
        return Err(Refusal::Stopped);
    }
    if !states::fits(s.state, call) {
        return Err(Refusal::OutOfState);
    }
    if states::is_push(call) && tables::MOST <= s.pushes.count {
        return Err(Refusal::TooManyPushes);
    }
    Ok(())
}

impl Holding {
    // What an accepted call does, before the numbers are given.
    fn move_of(&self, call: Call) -> Move
        requires { fits self.now.session.state call ≡ true }
        ensures { result ≡ move_of (session_of self.now.session) call }
    {
        let state = self.session.state;
        match call {
            Call::Tick => moves::tick(
                self.session.site.interval,
                numbers::next_free(self.numbers(), self.session.last),
                state,
            ),
            Call::Connected => moves::goes(
                State::Opening(0),
                Remark::Note(codes::SEND_SESSION_OPEN_REQUEST, 0),
            ),
            Call::Lost => moves::waits(Parting::Nothing),
            Call::Stop => moves::stop(state),
            Call::Push(what, handle) => moves::goes(state, Remark::Send(what, handle)),
            Call::Heard(m) => self.heard(m),
            Call::Unreadable(refusal) => moves::goes(
                state,
                Remark::Note(codes::UNREADABLE, refusal),
            ),
        }
    }
}

// An accepted call of a consistent session.
fn accepted(s: &Session, call: Call) -> Accepted
    requires s_value { consistent s.now ≡ true }
    requires call_value { refusal_of (session_of s.now) call ≡ 0 }
    ensures { told_said s.now (Ok result) ≡ told_of (answer 0 (session_of s.now) call) }
{
    let holding = Holding::of(s);
    holding.perform(holding.move_of(call))
}

#[tactic(auto, using(crate::proofs::Records::when_refused))]
pub(crate) fn told(s: Session, call: Call, places: usize) -> Result<Accepted, Refusal>
    ensures { told_said s result ≡ told places s call }
{
    if places < PLACES {
        return Err(Refusal::ListTooShort);
    }
    if !consistency::is_consistent(&s) {
        return Err(Refusal::Inconsistent);
    }
    allowed(&s, call)?;
    Ok(accepted(&s, call))
}
