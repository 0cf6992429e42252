// The program `replay`: one provider session over a script on standard input (specs/Replay.antt says what is printed for a whole script).
// What is printed for a call and a line, and what a line does to the run, are proved; reading and writing have no contract. What a failed
// read or write cuts off gets no last line, so that it does not look whole.
#![tactic(auto)]

mod lines;
mod output;
mod runs;
mod script;

ghost use Rattle.std.specs.Prelude.{◌≡◌, ◌≤◌, length, take};
ghost use Rattle.framing.specs.Cutting.{link_limit, item_length, store_after};
ghost use Rattle.session.specs.Answers.{told_said};
ghost use Rattle.replay.specs.Script.{bytes_of_word};
ghost use Rattle.replay.specs.Runs.{after_call, ticked, ran, set, taken as line_taken};
ghost use Rattle.replay.specs.Replay.{taken_rest};
ghost use Rattle.replay.specs.Turns.{boundary, taken_after, turn_of};

use framing::{Item, LINK_LIMIT};
use output::Output;
use runs::{Phase, Run};
use script::Line;
use session::{Accepted, Refusal};
use std::io::{self, ErrorKind, Read, Write};

// The event list of a call has this many places.
const PLACES: usize = 40;

// The bytes of a message stand behind the word and its space.
const MESSAGE_AT: usize = 8;

// What is kept from one piece of the script to the next: the bytes of a line that wait in the store, and the run.
#[derive(Clone, Copy)]
struct Held {
    gathered: u32,
    run: Run,
}

// What one item of a piece took, and what is held then.
#[derive(Clone, Copy)]
struct Turn {
    taken: usize,
    held: Held,
}

fn run_call<W: Write>(output: &mut Output<W>, run: Run, told: Result<Accepted, Refusal>) -> Run
    requires { (told_said run.session told).events.count ≤ 40 }
    ensures { result ≡ after_call run (told_said run.session told) }
{
    lines::answer(&mut output.line, run, told);
    output.write();
    runs::after_call(run, told)
}

fn run_ticks<W: Write>(output: &mut Output<W>, first: Run, count: u32) -> Run
    ensures { result ≡ (ticked count first).run }
{
    let mut run = first;
    for _ in 0..count {
        run = run_call(output, run, run.session.tick(PLACES));
    }
    run
}

// A line of a running session.
#[tactic(auto, unfolding(crate::specs::Runs::ran))]
fn run_line<W: Write>(output: &mut Output<W>, run: Run, line: Line, bytes: &[u8]) -> Run
    requires { bytes_of_word line ≤ length bytes.now }
    ensures { result ≡ (ran run line bytes.now).run }
{
    match line {
        Line::Nothing => run,
        Line::Set(_) | Line::Bad => {
            lines::bad(&mut output.line, run.line);
            output.write();
            run
        }
        Line::Ticks(count) => run_ticks(output, run, count),
        Line::Other(call) => run_call(output, run, run.session.told(call, PLACES)),
        Line::Message => run_call(output, run, run.session.hear(&bytes[MESSAGE_AT..], PLACES)),
        Line::Last(last) => runs::renumbered(run, last),
    }
}

// A line among the settings.
#[tactic(auto, unfolding(crate::specs::Runs::set))]
fn set_line(run: Run, line: Line) -> Run
    ensures { result ≡ set run line }
{
    match line {
        Line::Set(setting) => runs::settled(run, setting),
        _ => run,
    }
}

fn take_line<W: Write>(output: &mut Output<W>, before: Run, line: Line, bytes: &[u8]) -> Run
    requires { bytes_of_word line ≤ length bytes.now }
    ensures { result ≡ (line_taken before line bytes.now).run }
{
    let run = runs::ready(before, line);
    match run.phase {
        Phase::Settling => runs::next_line(set_line(run, line)),
        Phase::Running => runs::next_line(run_line(output, run, line, bytes)),
        Phase::Refused(_) => run,
    }
}

// What the framing has completed: a line, or nothing yet.
#[tactic(auto, unfolding(crate::specs::Turns::taken_after))]
fn take_item<W: Write>(output: &mut Output<W>, run: Run, item: Item, store: &[u8]) -> Run
    requires { item_length item ≤ length store.now }
    ensures { result ≡ (taken_after run item store.now).run }
{
    match item {
        Item::NotYet => run,
        Item::Empty => take_line(output, run, Line::Nothing, b""),
        Item::Message(length) => {
            let bytes = &store[..length as usize];
            take_line(output, run, script::line_of(bytes), bytes)
        }
        Item::TooLong => take_line(output, run, Line::Bad, b""),
    }
}

// Cuts the piece, up to the end of one line, and does what it says. A boundary of one byte is there or not, so that no match is ever held.
// A call that the framing refuses takes nothing; the program makes none.
fn take_next<W: Write>(
    output: &mut Output<W>,
    store: &mut [u8; 65536],
    piece: &[u8],
    held: Held,
) -> Turn
    ensures within { result.taken ≤ length piece.now }
    ensures turned { result ≡ turn_of store.old piece.now held }
    ensures stored { store.new ≡ store_after link_limit boundary store.old piece.now held.gathered 0 }
{
    let before = framing::Held {
        gathered: held.gathered,
        matched: 0,
    };
    let Ok(said) = framing::gather(b"\n", store, piece, before) else {
        return Turn { taken: 0, held };
    };
    Turn {
        taken: said.taken,
        held: Held {
            gathered: said.held.gathered,
            run: take_item(output, held.run, said.item, store),
        },
    }
}

// A last line without an LF counts too.
fn take_rest<W: Write>(output: &mut Output<W>, store: &[u8; 65536], held: Held) -> Run
    ensures { result ≡ (taken_rest held.run (take held.gathered store.now)).run }
{
    if held.gathered == 0 {
        return held.run;
    }
    if LINK_LIMIT < held.gathered {
        return take_line(output, held.run, Line::Bad, b"");
    }
    let bytes = &store[..held.gathered as usize];
    take_line(output, held.run, script::line_of(bytes), bytes)
}

// A script as far as it is played: where the lines go, the store of the framing, and what is held.
#[derive(Drop)]
struct Player<'a, W> {
    output: Output<W>,
    store: &'a mut [u8; 65536],
    held: Held,
}

impl<'a, W: Write> Player<'a, W> {
    // Takes the lines that end in a piece. Each turn takes a byte or more, so that no piece uses up its turns. What is held is large, and is
    // written back once.
    fn piece(&mut self, piece: &[u8]) {
        let mut rest = piece;
        let mut held = self.held;
        for _ in 0..piece.len() {
            if rest.is_empty() {
                break;
            }
            let turn = take_next(&mut self.output, self.store, rest, held);
            held = turn.held;
            rest = &rest[turn.taken..];
        }
        self.held = held;
    }

    // Reads to the end of the script. Whether the lines of a piece could be written is known behind it: where a write failed nothing more is
    // read. A loop has to end, and nothing says that the input does: so the turns are counted, up to a number that no run comes to.
    fn read<R: Read>(&mut self, input: &mut R) -> io::Result<()> {
        let mut piece = [0u8; 4096];
        for _ in 0..u64::MAX {
            let length = input.read(&mut piece)?;
            if length == 0 {
                return Ok(());
            }
            self.piece(&piece[..length]);
            if self.output.failed() {
                break;
            }
        }
        Err(io::Error::from(ErrorKind::Other))
    }

    // The end of the script: it ends a last line, and the settings too.
    fn finish(&mut self) {
        let run = take_rest(&mut self.output, self.store, self.held);
        let ended = runs::ready(run, Line::Bad);
        lines::last(&mut self.output.line, ended);
        self.output.write();
    }
}

// The exit status is always 0: what failed shows by the last line, which is not there.
fn main(rt: HostRuntime) {
    let mut player = Player {
        output: Output::new(rt.stdout()),
        store: &mut [0u8; 65536],
        held: Held {
            gathered: 0,
            run: runs::fresh(),
        },
    };
    if player.read(&mut rt.stdin()).is_ok() {
        player.finish();
    }
}
