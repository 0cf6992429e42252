// Rounds of one call of the session with 32 pushes open, for bench/run to time: standard input says `tick N` or `ok N`. It prints how many pushes are open in the end.
#![tactic(auto)]

ghost use Rattle.std.specs.Prelude.{◌≤◌, length};

use conduct::State;
use message::{Advice, Kind, Message, Status, Value};
use session::{Accepted, Refusal, Session};
use std::io::Read;

const PLACES: usize = 40;

// So many rounds go on from one another before the 32 pushes are open again: less than 20, so that no push falls due.
const STRETCH: u32 = 16;

fn nothing<M>(meaning: M) -> Value<M> {
    Value {
        there: false,
        place: 0,
        length: 0,
        meaning,
    }
}

// An Ok that names a number.
fn ok_naming(number: u32) -> Message {
    Message {
        kind: Kind::Ok,
        status: nothing(Status::Other),
        id: nothing(None),
        in_response_to: Value {
            there: true,
            ..nothing(Some(number))
        },
        in_relation_to: nothing(None),
        advisory_type: nothing(Advice::Other),
    }
}

// The session that a call leaves.
fn after(called: Session, told: Result<Accepted, Refusal>) -> Session {
    told.map_or(called, |accepted| accepted.next)
}

// A session in Up with 32 pushes, numbered from 1 on.
fn full() -> Session {
    let site = session::usual(6000);
    let mut s = Session {
        state: State::Up(None, 0),
        ..session::make(site).session
    };
    for handle in 0..32 {
        s = after(s, s.respond(handle, PLACES));
    }
    s
}

fn ticks(first: Session, rounds: u32) -> Session {
    let mut s = first;
    for i in 0..rounds {
        if i % STRETCH == 0 {
            s = first;
        }
        s = after(s, s.tick(PLACES));
    }
    s
}

// Each round's Ok names the newest open push, so that the whole table is gone through.
fn oks(first: Session, rounds: u32) -> Session {
    let mut s = first;
    for i in 0..rounds {
        let place = i % STRETCH;
        if place == 0 {
            s = first;
        }
        s = after(s, s.heard(ok_naming(32 - place), PLACES));
    }
    s
}

fn rounds_of(line: &[u8], from: usize) -> u32 {
    texts::number(line, from).unwrap_or(0)
}

fn run(line: &[u8]) -> Session {
    let first = full();
    if texts::begins(line, b"tick ") {
        return ticks(first, rounds_of(line, 5));
    }
    if texts::begins(line, b"ok ") {
        return oks(first, rounds_of(line, 3));
    }
    first
}

// Reads until `line` is full, the input ends or a read fails, and answers how many bytes came.
fn read_full<R: Read>(input: &mut R, line: &mut [u8]) -> usize
    ensures { result ≤ length line.new }
{
    let mut done = 0;
    while done < line.len() {
        match input.read(&mut line[done..]) {
            Ok(0) => return done,
            Ok(n) => done += n,
            Err(_) => return done,
        }
    }
    done
}

// Where the number cannot be printed there is nothing left to do.
fn main(rt: HostRuntime) {
    let mut line = [0u8; 64];
    let n = read_full(&mut rt.stdin(), &mut line);
    let last = run(&line[..n]);
    let _ = rt.print(last.pushes.count);
}
