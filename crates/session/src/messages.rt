// Moves of a message, by the table of actions.
ghost use Rattle.std.specs.Prelude.{◌≡◌, true};
ghost use Rattle.conduct.specs.Table.{action_of};
ghost use Rattle.conduct.specs.Session.{is_linked};
ghost use Rattle.conduct.specs.Rules as Rules;
ghost use Rattle.session.specs.Record.{session_of};

use crate::holding::Holding;
use conduct::{Action, Move, Parting, Remark, State, Sweep, codes};
use message::{Advice, Kind, Message};
use rules::{heard, moves, numbers};

// A row for Opening, Confirming and Up; a column for each kind, in the order of the kinds' numbers. A table by numbers, and no match, since document 01 has
// it as one and `action_of` of specs/Table looks in it so.
const ACTIONS: [[Action; 7]; 3] = [
    [
        Action::OutOfPlace,
        Action::Answer,
        Action::OutOfPlace,
        Action::OutOfPlace,
        Action::OutOfPlace,
        Action::OutOfPlace,
        Action::OutOfPlace,
    ],
    [
        Action::OutOfPlace,
        Action::OutOfPlace,
        Action::OutOfPlace,
        Action::Acknowledge,
        Action::Advise,
        Action::OutOfPlace,
        Action::OutOfPlace,
    ],
    [
        Action::OutOfPlace,
        Action::OutOfPlace,
        Action::OutOfPlace,
        Action::Acknowledge,
        Action::Advise,
        Action::Request,
        Action::OutOfPlace,
    ],
];

// What is done with a kind in a linked state.
fn action_of(state: State, kind: Kind) -> Action
    requires { is_linked state ≡ true }
    ensures { result ≡ action_of state kind }
{
    ACTIONS[(u32::from(state) - 3) as usize][kind as usize]
}

impl Holding {
    // An Ok that names a number, or none.
    fn acknowledged(&self, number: Option<u32>) -> Move
        ensures { result ≡ Rules.acknowledged (session_of self.now.session) number }
    {
        let state = self.session.state;
        let Some(n) = number else {
            return moves::matches_nothing(state);
        };
        match state {
            State::Confirming(number, age) if n == number => {
                moves::goes(State::Up(None, age), Remark::Note(codes::UP, 0))
            }
            State::Up(awaited, age) if heard::is_awaited(awaited, n) => {
                moves::goes(State::Up(None, age), Remark::Nothing)
            }
            State::Up(_, _) if numbers::is_among(self.numbers(), n) => {
                moves::touches(state, Sweep::Acknowledged(n))
            }
            _ => moves::matches_nothing(state),
        }
    }

    // An Advisory that names a number, or none.
    fn advised_about(&self, advice: Advice, number: Option<u32>) -> Move
        ensures { result ≡ Rules.advised_about (session_of self.now.session) advice number }
    {
        let state = self.session.state;
        let Some(n) = number else {
            return moves::matches_nothing(state);
        };
        match state {
            State::Confirming(number, _) if n == number => moves::waits(Parting::Disconnect),
            State::Up(awaited, age) if heard::is_awaited(awaited, n) => moves::goes(
                State::Up(None, age),
                Remark::Note(codes::ADVISORY_ARRIVED, 0),
            ),
            State::Up(_, _) if numbers::is_among(self.numbers(), n) => {
                moves::touches(state, heard::advises(advice, n))
            }
            _ => moves::matches_nothing(state),
        }
    }

    fn advised(&self, m: Message) -> Move
        ensures { result ≡ Rules.advised (session_of self.now.session) m }
    {
        if !m.in_relation_to.there {
            return moves::goes(self.session.state, Remark::Note(codes::ADVISORY_ARRIVED, 0));
        }
        self.advised_about(heard::advice_by(m.advisory_type), m.in_relation_to.meaning)
    }

    fn acted(&self, m: Message, action: Action) -> Move
        ensures { result ≡ Rules.acted (session_of self.now.session) m action }
    {
        let state = self.session.state;
        match action {
            Action::OutOfPlace => moves::goes(state, Remark::Note(codes::OUT_OF_PLACE, 0)),
            Action::Answer => moves::answered(
                numbers::next_free(self.numbers(), self.session.last),
                moves::counted_in(self.session.site.conduct, heard::status_by(m.status)),
            ),
            Action::Acknowledge => self.acknowledged(heard::named_by(m.in_response_to)),
            Action::Advise => self.advised(m),
            Action::Request => moves::goes(state, Remark::Note(codes::REQUEST_ARRIVED, 0)),
        }
    }

    // A message, in a linked state.
    pub(crate) fn heard(&self, m: Message) -> Move
        requires { is_linked self.now.session.state ≡ true }
        ensures { result ≡ Rules.acted (session_of self.now.session) m (action_of self.now.session.state m.kind) }
    {
        self.acted(m, action_of(self.session.state, m.kind))
    }
}
