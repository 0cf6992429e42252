// The lines that are printed, each written to a lent line, which is emptied first.
ghost use Rattle.std.specs.Prelude.{◌≡◌, ◌++◌, ◌+◌, ◌≤◌, length};
ghost use Rattle.conduct.specs.Session.{state_number};
ghost use Rattle.session.specs.Answers.{told_said};
ghost use Rattle.session.specs.Rows.{list_of};
ghost use Rattle.replay.specs.Lines.{event_line, event_lines, refused_line, answer_lines, bad_line, stop_line, end_line, state_name, last_line};

use crate::runs::{Phase, Run};
use conduct::{Event, State};
use session::{Accepted, Events, Refusal, Session};
use texts::{LINE_END, SPACE};

// The lines of the 40 events of a call have room.
const MOST_LINE: usize = 4096;

pub(crate) type Line = texts::Line<MOST_LINE>;

// One event of the call with this number.
fn put_event(line: &mut Line, call: u64, e: Event)
    requires { length line.old + 84 ≤ 4096 }
    ensures written { line.new ≡ line.old ++ event_line call e }
    ensures ends { length line.new ≤ length line.old + 84 }
{
    line.put_number(call, SPACE);
    line.put_number(u64::from(e.code), SPACE);
    line.put_number(u64::from(e.number), SPACE);
    line.put_number(u64::from(e.detail), LINE_END);
}

// A line for each event, in order.
fn events(line: &mut Line, call: u64, events: Events)
    requires { events.count ≤ 40 }
    ensures { line.new ≡ event_lines call (list_of events) }
{
    line.clear();
    for event in &events.list[..events.count] {
        put_event(line, call, *event);
    }
}

fn refused(line: &mut Line, call: u64, refusal: u32)
    ensures { line.new ≡ refused_line call refusal }
{
    line.clear();
    line.put_number(call, SPACE);
    line.put(b"refused", SPACE);
    line.put_number(u64::from(refusal), LINE_END);
}

// What the next call of a run answers.
pub(crate) fn answer(line: &mut Line, run: Run, told: Result<Accepted, Refusal>)
    requires { (told_said run.session told).events.count ≤ 40 }
    ensures { line.new ≡ answer_lines run.call (told_said run.session told) }
{
    match told {
        Ok(accepted) => events(line, run.call, accepted.events),
        Err(refusal) => refused(line, run.call, u32::from(refusal)),
    }
}

// A line of the script that stands for nothing.
pub(crate) fn bad(line: &mut Line, number: u64)
    ensures { line.new ≡ bad_line number }
{
    line.clear();
    line.put(b"line", SPACE);
    line.put_number(number, SPACE);
    line.put(b"bad", LINE_END);
}

// A refused making.
fn stop(line: &mut Line, refusal: u32)
    ensures { line.new ≡ stop_line refusal }
{
    line.clear();
    line.put(b"stop", SPACE);
    line.put_number(u64::from(refusal), LINE_END);
}

fn name(state: State) -> &'static [u8]
    ensures named { result.now ≡ state_name (state_number state) }
    ensures within { length result.now ≤ 10 }
{
    match state {
        State::Waiting(_) => b"waiting",
        State::Connecting => b"connecting",
        State::Opening(_) => b"opening",
        State::Confirming(_, _) => b"confirming",
        State::Up(_, _) => b"up",
        State::Stopped => b"stopped",
    }
}

// The last line.
fn end(line: &mut Line, session: Session)
    ensures { line.new ≡ end_line session }
{
    line.clear();
    line.put(b"end", SPACE);
    line.put(name(session.state), SPACE);
    line.put_number(session.pushes.count as u64, LINE_END);
}

// What is printed when the script has ended.
#[tactic(auto, unfolding(crate::specs::Lines::last_line))]
pub(crate) fn last(line: &mut Line, run: Run)
    ensures { line.new ≡ last_line run }
{
    match run.phase {
        Phase::Settling => line.clear(),
        Phase::Running => end(line, run.session),
        Phase::Refused(refusal) => stop(line, refusal),
    }
}
