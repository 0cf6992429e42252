// The provider's session (document 01, "The session"): each call takes a session by value and hands back the one that follows it, or refuses, and then the caller
// has its own as it was. What the calls do is said in crates/conduct; specs/ says how a session lies in the record below. The record is public, so that a host can
// keep it where it likes: whatever is in it, every call has an answer.
#![tactic(auto)]

mod calls;
mod consistency;
mod holding;
mod lent;
mod messages;
mod tables;
mod writing;

ghost use Rattle.std.specs.Prelude.{◌≡◌, length};
ghost use Rattle.conduct.specs.declared.Call.TheVariants as variants;
ghost use Rattle.conduct.specs.declared.Pushed.TheVariants as pushed;
ghost use Rattle.conduct.specs.Session.{usual};
ghost use Rattle.session.specs.Record.{refused_of, made_of, with_last};
ghost use Rattle.session.specs.Answers.{told, told_said, SaysAndWrites, said_in_list, call_of_bytes, refusal_number};

use conduct::{Call, Conduct, Event, Push, Pushed, Site, State};
use message::Message;
use rules::sound;

// The open pushes, in order of acceptance: the first `count` rows. The other rows are blank. Rows with a count beside them, and no more: so any host can
// make one, whatever is in it has an answer, and it needs no heap.
#[derive(Clone, Copy, PartialEq, Eq)]
pub struct Table {
    pub rows: [Push; 32],
    pub count: usize,
}

#[derive(Clone, Copy, PartialEq, Eq)]
pub struct Session {
    pub site: Site,
    pub state: State,
    pub pushes: Table,
    // The last number taken.
    pub last: u32,
}

// The events of a call: the first `count` places, without a heap. The other places are blank. An event's code is a number, as the lent lists are any host's.
#[derive(Clone, Copy, PartialEq, Eq)]
pub struct Events {
    pub list: [Event; 40],
    pub count: usize,
}

// What an accepted call answers: the session that follows it, and its events. A refused one leaves the session that it was called with.
#[derive(Clone, Copy, PartialEq, Eq)]
pub struct Accepted {
    pub next: Session,
    pub events: Events,
}

// What an accepted call answers that writes its events to a lent list: how many it wrote.
#[derive(Clone, Copy, PartialEq, Eq)]
pub struct Said {
    pub next: Session,
    pub count: usize,
}

// Why a call is refused.
#[derive(Clone, Copy, PartialEq, Eq)]
pub enum Refusal {
    ListTooShort,
    Stopped,
    OutOfState,
    TooManyPushes,
    Inconsistent,
}

// Document 01's number of the refusal.
impl From<Refusal> for u32 {
    ghost from_gives = { λ refusal number. number ≡ refusal_number refusal };

    fn from(refusal: Refusal) -> u32 {
        match refusal {
            Refusal::ListTooShort => 3,
            Refusal::Stopped => 5,
            Refusal::OutOfState => 6,
            Refusal::TooManyPushes => 7,
            Refusal::Inconsistent => 27,
        }
    }
}

// What making a session answers: refusal 4, 18 or 0, and the session. No Result: a refused making has a session too (theorem MadeRefused).
#[derive(Clone, Copy, PartialEq, Eq)]
pub struct Made {
    pub refusal: u32,
    pub session: Session,
}

// The site of which only the interval is said: its conduct is the new one, and a Response is sent again once.
pub fn usual(interval: u32) -> Site
    ensures { result ≡ usual interval }
{
    Site {
        interval,
        conduct: Conduct::New,
        resends: 1,
    }
}

// A fresh session of the site; a stopped one where that is refused.
#[tactic(auto, unfolding(crate::specs::Rows::table_of))]
pub fn make(site: Site) -> Made
    ensures { result ≡ made_of site }
{
    if !sound::is_allowed(site.interval) {
        return refused_making(4);
    }
    if !sound::is_resends_allowed(site.resends) {
        return refused_making(18);
    }
    Made {
        refusal: 0,
        session: Session {
            site,
            state: State::Waiting(1),
            pushes: tables::EMPTY,
            last: 0,
        },
    }
}

#[tactic(auto, unfolding(crate::specs::Rows::table_of))]
fn refused_making(refusal: u32) -> Made
    ensures { result ≡ refused_of refusal }
{
    Made {
        refusal,
        session: Session {
            site: Site {
                resends: 0,
                ..usual(21)
            },
            state: State::Stopped,
            pushes: tables::EMPTY,
            last: 0,
        },
    }
}

impl Session {
    // Any call, for a host whose event list has so many places.
    pub fn told(self, call: Call, places: usize) -> Result<Accepted, Refusal>
        ensures { told_said self result ≡ told places self call }
    {
        calls::told(self, call, places)
    }

    pub fn tick(self, places: usize) -> Result<Accepted, Refusal>
        ensures { told_said self result ≡ told places self variants.Tick }
    {
        self.told(Call::Tick, places)
    }

    // The link that event 1 asked for is there.
    pub fn connected(self, places: usize) -> Result<Accepted, Refusal>
        ensures { told_said self result ≡ told places self variants.Connected }
    {
        self.told(Call::Connected, places)
    }

    // The link is gone.
    pub fn lost(self, places: usize) -> Result<Accepted, Refusal>
        ensures { told_said self result ≡ told places self variants.Lost }
    {
        self.told(Call::Lost, places)
    }

    pub fn stop(self, places: usize) -> Result<Accepted, Refusal>
        ensures { told_said self result ≡ told places self variants.Stop }
    {
        self.told(Call::Stop, places)
    }

    // The host pushes a Response, or an Advisory.
    pub fn respond(self, handle: u32, places: usize) -> Result<Accepted, Refusal>
        ensures { told_said self result ≡ told places self (variants.Push pushed.Response handle) }
    {
        self.told(Call::Push(Pushed::Response, handle), places)
    }

    pub fn advise(self, handle: u32, places: usize) -> Result<Accepted, Refusal>
        ensures { told_said self result ≡ told places self (variants.Push pushed.Advisory handle) }
    {
        self.told(Call::Push(Pushed::Advisory, handle), places)
    }

    // A message that the reader has read, and the reader's refusal of one.
    pub fn heard(self, message: Message, places: usize) -> Result<Accepted, Refusal>
        ensures { told_said self result ≡ told places self (variants.Heard message) }
    {
        self.told(Call::Heard(message), places)
    }

    pub fn unreadable(self, refusal: u32, places: usize) -> Result<Accepted, Refusal>
        ensures { told_said self result ≡ told places self (variants.Unreadable refusal) }
    {
        self.told(Call::Unreadable(refusal), places)
    }

    // The bytes of a message: they are read, and what the reader answers is handed in.
    pub fn hear(self, message: &[u8], places: usize) -> Result<Accepted, Refusal>
        ensures { told_said self result ≡ told places self (call_of_bytes message.now) }
    {
        match reader::read(message) {
            Ok(read) => self.heard(read, places),
            Err(refusal) => self.unreadable(u32::from(refusal.reason), places),
        }
    }

    // Any call, with its events written to the start of the list that the host lends.
    pub fn told_into(self, call: Call, list: &mut [Event]) -> Result<Said, Refusal>
        ensures { SaysAndWrites (told (length list.old) self call) list.old (said_in_list self result) list.new }
    {
        let told = self.told(call, list.len());
        lent::said_in(list, told)
    }

    // The same for the bytes of a message.
    pub fn hear_into(self, message: &[u8], list: &mut [Event]) -> Result<Said, Refusal>
        ensures { SaysAndWrites (told (length list.old) self (call_of_bytes message.now)) list.old (said_in_list self result) list.new }
    {
        let heard = self.hear(message, list.len());
        lent::said_in(list, heard)
    }

    // The same session with another number as the last one taken: so that a trial can begin where the numbers wrap.
    pub fn with_last(self, last: u32) -> Session
        ensures { result ≡ with_last last self }
    {
        Session { last, ..self }
    }
}
