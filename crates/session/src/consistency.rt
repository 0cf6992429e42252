// The test behind refusal 27.
ghost use Rattle.std.specs.Prelude.{◌≡◌};
ghost use Rattle.session.specs.Record.{consistent};

use crate::holding::Holding;
use crate::{Session, tables};
use rules::{numbers, pushes, sound};

// What every session has that was made, or reached from one that was; others may have it too.
#[tactic(auto, using(crate::proofs::Rows::rows_count))]
pub(crate) fn is_consistent(s: &Session) -> bool
    ensures { result ≡ consistent s.now }
{
    s.pushes.count <= tables::MOST
        && s.pushes.is_blank_after()
        && sound::is_allowed(s.site.interval)
        && sound::is_resends_allowed(s.site.resends)
        && sound::is_state_sound(s.site.interval, s.state)
        && sound::is_count_sound(s.state, s.pushes.count)
        && tables::all_sound(pushes::terms_of(s.site), s.pushes.open_rows())
        && numbers::all_differ(Holding::of(s).numbers())
}
