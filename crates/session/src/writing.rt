// What an accepted call writes: the pushes that it leaves open, and its events, in their order.
ghost use Rattle.std.specs.Prelude.{◌≡◌, [], ◌+◌, ◌≤◌, ◌<◌, length};
ghost use Rattle.conduct.specs.Codes.{sending};
ghost use Rattle.conduct.specs.Session.{held};
ghost use Rattle.conduct.specs.Step.{noted as note, parting_notes, opens, moved_by, events_by};
ghost use Rattle.session.specs.Rows.{Packed, rows_of, Listed, events_of, list_of};
ghost use Rattle.session.specs.Record.{session_of, record_of};
ghost use Rattle.session.specs.Written.{Draft, kept_in, said_in, noted_by, all_noted, swept_by, remarked_by};

use crate::holding::Holding;
use crate::{Accepted, Events, Session, Table, tables};
use conduct::{Event, Fate, Move, Parting, Push, Pushed, Remark, Sweep, Terms, codes};
use rules::{numbers, pushes};
use std::marker::Model;

const NO_EVENT: Event = Event {
    code: 0,
    number: 0,
    detail: 0,
};

// What is written so far, and the last number taken.
#[derive(Drop)]
struct Written {
    table: Table,
    events: Events,
    last: u32,
}

impl Model for Written {
    ghost Value = { Draft };

    ghost view = { λ w. record { pushes = rows_of w.table; events = list_of w.events; last = w.last } };

    ghost invariant = { λ w. Packed w.table × Listed w.events };
}

impl Written {
    fn new(last: u32) -> Written
        ensures { result ≡ record { pushes = []; events = []; last = last } }
    {
        Written {
            table: tables::EMPTY,
            events: Events {
                list: [NO_EVENT; 40],
                count: 0,
            },
            last,
        }
    }

    // This and the next are of one shape; a common one would be handed the rows and the count apart, and be no plainer.
    fn keep(&mut self, p: Push)
        requires { length self.old.pushes < 32 }
        ensures { self.new ≡ kept_in self.old p }
    {
        self.table.rows[self.table.count] = p;
        self.table.count += 1;
    }

    fn say(&mut self, e: Event)
        requires { length self.old.events < 40 }
        ensures { self.new ≡ said_in self.old e }
    {
        self.events.list[self.events.count] = e;
        self.events.count += 1;
    }

    // A note with its number.
    fn note(&mut self, held: &[u32], code: u32, detail: u32)
        requires { length self.old.events < 40 }
        ensures { self.new ≡ noted_by held.now self.old (note code detail) }
    {
        let mut number = 0;
        if numbers::takes_number(code) {
            number = numbers::next_free(held, self.last);
            self.last = number;
        }
        self.say(Event {
            code,
            number,
            detail,
        });
    }

    // What the session says before it goes.
    fn part(&mut self, held: &[u32], parting: Parting)
        requires { self.old.events ≡ [] }
        ensures { self.new ≡ all_noted held.now self.old (parting_notes parting) }
    {
        match parting {
            Parting::Nothing => (),
            Parting::Disconnect => self.note(held, codes::DISCONNECT, 0),
            Parting::GoingOut => {
                self.note(held, codes::SEND_GOING_OUT_OF_SERVICE, 0);
                self.note(held, codes::DISCONNECT, 0);
            }
            Parting::Alert => {
                self.note(held, codes::SEND_ALERT, 0);
                self.note(held, codes::SEND_GOING_OUT_OF_SERVICE, 0);
                self.note(held, codes::DISCONNECT, 0);
            }
        }
    }

    // What a sweep leaves of the open pushes, in order of acceptance, and what it says of them.
    fn sweep(&mut self, terms: Terms, sweep: Sweep, rows: &[Push])
        requires nothing_kept { self.old.pushes ≡ [] }
        requires rows_bound { length rows.now ≤ 32 }
        requires events_bound { length self.old.events ≤ 3 }
        ensures { self.new ≡ swept_by terms sweep rows.now self.old }
    {
        for p in rows {
            match pushes::fate_of(terms, sweep, *p) {
                Fate::Keep(kept) => self.keep(kept),
                Fate::Again(kept, e) => {
                    self.keep(kept);
                    self.say(e);
                }
                Fate::Close(e) => self.say(e),
            }
        }
    }

    // What the call says beside that, and the push that it opens.
    fn remark(&mut self, held: &[u32], remark: Remark)
        requires pushes_bound { length self.old.pushes + length (opens 0 remark) ≤ 32 }
        requires events_bound { length self.old.events < 40 }
        ensures { self.new ≡ remarked_by held.now remark self.old }
    {
        match remark {
            Remark::Nothing => (),
            Remark::Note(code, detail) => self.note(held, code, detail),
            Remark::Send(what, handle) => {
                self.note(held, sending(what), handle);
                self.keep(Push {
                    what,
                    number: self.last,
                    handle,
                    sent: 1,
                    age: 0,
                });
            }
        }
    }
}

fn sending(what: Pushed) -> u32
    ensures { result ≡ sending what }
{
    match what {
        Pushed::Response => codes::SEND_RESPONSE,
        Pushed::Advisory => codes::SEND_ADVISORY,
    }
}

impl Holding {
    // What an accepted call does: its move, with the numbers given.
    #[tactic(auto, using(crate::proofs::Rows::rows_few, crate::proofs::Partings::few_partings, conduct::proofs::Kept::kept_few, conduct::proofs::Few::told_few))]
    pub(crate) fn perform(&self, m: Move) -> Accepted
        requires { self.now.session.pushes.count + length (opens 0 m.remark) ≤ 32 }
        ensures next { result.next ≡ record_of (moved_by (session_of self.now.session) m) }
        ensures events { result.events ≡ events_of (events_by (session_of self.now.session) m) }
    {
        let s = &self.session;
        let mut written = Written::new(s.last);
        written.part(self.numbers(), m.parting);
        written.sweep(pushes::terms_of(s.site), m.sweep, s.pushes.open_rows());
        written.remark(self.numbers(), m.remark);
        Accepted {
            next: Session {
                site: s.site,
                state: m.to,
                pushes: written.table,
                last: written.last,
            },
            events: written.events,
        }
    }
}
