// A run of a script: what is kept from one line to the next.
ghost use Rattle.std.specs.Prelude.{◌≡◌};
ghost use Rattle.session.specs.Answers.{told_said};
ghost use Rattle.replay.specs.Runs.{following, fresh_run, made_run, ends_settings, ready_for, after_call, next_line, site_with, settled, renumbered};

use crate::script::{Line, Setting};
use conduct::Site;
use session::{Accepted, Refusal, Session};

// Settings come first; then the session runs, or its making was refused.
#[derive(Clone, Copy)]
pub(crate) enum Phase {
    Settling,
    Running,
    Refused(u32),
}

#[derive(Clone, Copy)]
pub(crate) struct Run {
    pub(crate) phase: Phase,
    pub(crate) site: Site,
    pub(crate) session: Session,
    // The numbers of the next call and of the next line.
    pub(crate) call: u64,
    pub(crate) line: u64,
}

// The next number; no run comes to the last one, which stays as it is.
fn next(number: u64) -> u64
    ensures { result ≡ following number }
{
    number.saturating_add(1)
}

#[tactic(auto, unfolding(crate::specs::Runs::fresh_run))]
pub(crate) fn fresh() -> Run
    ensures { result ≡ fresh_run }
{
    let site = session::usual(100);
    Run {
        phase: Phase::Settling,
        site,
        session: session::make(site).session,
        call: 1,
        line: 1,
    }
}

#[tactic(auto, unfolding(crate::specs::Runs::made_run))]
fn made(run: Run) -> Run
    ensures { result ≡ made_run run }
{
    let made = session::make(run.site);
    let phase = if made.refusal == 0 {
        Phase::Running
    } else {
        Phase::Refused(made.refusal)
    };
    Run {
        phase,
        session: made.session,
        ..run
    }
}

fn ends_settings(line: Line) -> bool
    ensures { result ≡ ends_settings line }
{
    !matches!(line, Line::Nothing | Line::Set(_))
}

// The session is made as soon as a line, or the end of the script, ends the settings.
#[tactic(auto, unfolding(crate::specs::Runs::ready_for))]
pub(crate) fn ready(run: Run, line: Line) -> Run
    ensures { result ≡ ready_for run line }
{
    match run.phase {
        Phase::Settling if ends_settings(line) => made(run),
        _ => run,
    }
}

// The session that follows an accepted call, and the same session behind a refused one.
#[tactic(auto, unfolding(crate::specs::Runs::after_call))]
pub(crate) fn after_call(run: Run, told: Result<Accepted, Refusal>) -> Run
    ensures { result ≡ after_call run (told_said run.session told) }
{
    Run {
        session: told.map_or(run.session, |accepted| accepted.next),
        call: next(run.call),
        ..run
    }
}

#[tactic(auto, unfolding(crate::specs::Runs::next_line))]
pub(crate) fn next_line(run: Run) -> Run
    ensures { result ≡ next_line run }
{
    Run {
        line: next(run.line),
        ..run
    }
}

fn site_with(setting: Setting, site: Site) -> Site
    ensures { result ≡ site_with setting site }
{
    match setting {
        Setting::Interval(interval) => Site { interval, ..site },
        Setting::Conduct(conduct) => Site { conduct, ..site },
        Setting::Resends(resends) => Site { resends, ..site },
    }
}

#[tactic(auto, unfolding(crate::specs::Runs::settled))]
pub(crate) fn settled(run: Run, setting: Setting) -> Run
    ensures { result ≡ settled run setting }
{
    Run {
        site: site_with(setting, run.site),
        ..run
    }
}

#[tactic(auto, unfolding(crate::specs::Runs::renumbered))]
pub(crate) fn renumbered(run: Run, last: u32) -> Run
    ensures { result ≡ renumbered run last }
{
    Run {
        session: run.session.with_last(last),
        ..run
    }
}
