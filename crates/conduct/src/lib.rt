// What a provider's session is made of (document 01, "The session"): its states, its pushes, its calls and its events. `specs/` has the paper's rules as
// definitions, and what is promised about them; `proofs/` shows it. The code is in crates/rules and crates/session.
#![tactic(auto)]

pub mod codes;

ghost use Rattle.std.specs.Prelude.{◌≡◌};
ghost use Rattle.conduct.specs.Session.{state_number};

use message::Message;

// A state with its timer. Waiting has the ticks that are left; the others have the ticks since they were entered or, where a SessionOk was sent,
// since the last one was. Confirming has the number of its SessionOk in front, Up that of an open one, if any.
#[derive(Clone, Copy, PartialEq, Eq)]
pub enum State {
    Waiting(u32),
    Connecting,
    Opening(u32),
    Confirming(u32, u32),
    Up(Option<u32>, u32),
    Stopped,
}

// The state's number, in the paper's order.
impl From<State> for u32 {
    ghost from_gives = { λ state number. number ≡ state_number state };

    fn from(state: State) -> u32 {
        match state {
            State::Waiting(_) => 1,
            State::Connecting => 2,
            State::Opening(_) => 3,
            State::Confirming(_, _) => 4,
            State::Up(_, _) => 5,
            State::Stopped => 6,
        }
    }
}

// What the host pushes.
#[derive(Clone, Copy, PartialEq, Eq)]
pub enum Pushed {
    Response,
    Advisory,
}

// An open push: its number, the host's handle, how often it was sent, and the ticks since it was sent last.
#[derive(Clone, Copy, PartialEq, Eq)]
pub struct Push {
    pub what: Pushed,
    pub number: u32,
    pub handle: u32,
    pub sent: u32,
    pub age: u32,
}

// How a SessionOpenResponse with the status RedundantSession counts: like one with an unknown status or, in the old conduct, with Ok.
#[derive(Clone, Copy, PartialEq, Eq)]
pub enum Conduct {
    New,
    Old,
}

// What a session is made with.
#[derive(Clone, Copy, PartialEq, Eq)]
pub struct Site {
    // The ticks from one SessionOk to the next.
    pub interval: u32,
    pub conduct: Conduct,
    // How often a Response is sent again at most.
    pub resends: u32,
}

// What an open push is held to: the ticks that each sending has for an answer, and how often a Response is sent again at most.
#[derive(Clone, Copy, PartialEq, Eq)]
pub struct Terms {
    pub ticks: u32,
    pub resends: u32,
}

#[derive(Clone, Copy, PartialEq, Eq)]
pub struct Event {
    pub code: u32,
    pub number: u32,
    pub detail: u32,
}

#[derive(Clone, Copy, PartialEq, Eq)]
pub enum Call {
    Tick,
    Connected,
    Lost,
    Stop,
    // A push of the host, with its handle.
    Push(Pushed, u32),
    // A message that was read, and the refusal of one that was not.
    Heard(Message),
    Unreadable(u32),
}

// What is done with a message, by the state and its kind.
#[derive(Clone, Copy, PartialEq, Eq)]
pub enum Action {
    OutOfPlace,
    Answer,
    Acknowledge,
    Advise,
    Request,
}

// What a call means for every open push.
#[derive(Clone, Copy, PartialEq, Eq)]
pub enum Sweep {
    Still,
    Older,
    Lost,
    Acknowledged(u32),
    UnreadableMessage(u32),
    Advised(u32),
}

// What becomes of an open push: it stays, is sent again and stays, or is closed.
#[derive(Clone, Copy, PartialEq, Eq)]
pub enum Fate {
    Keep(Push),
    Again(Push, Event),
    Close(Event),
}

// What the session sends before it goes: nothing, 7, 19 and 7, or 18, 19 and 7.
#[derive(Clone, Copy, PartialEq, Eq)]
pub enum Parting {
    Nothing,
    Disconnect,
    GoingOut,
    Alert,
}

// What a call says beside that: nothing, an event of a code and a detail, or the sending of a push that it opens.
#[derive(Clone, Copy, PartialEq, Eq)]
pub enum Remark {
    Nothing,
    Note(u32, u32),
    Send(Pushed, u32),
}

// What an accepted call does, before its events have their numbers.
#[derive(Clone, Copy, PartialEq, Eq)]
pub struct Move {
    pub to: State,
    pub parting: Parting,
    pub sweep: Sweep,
    pub remark: Remark,
}
