// Events are written to a lent list.
ghost use Rattle.session.specs.Answers.{told_said, HasRoom, SaysAndWrites, said_in_list};
ghost use Rattle.session.specs.declared.Session.{Session as Record};

use crate::{Accepted, Refusal, Said};
use conduct::Event;

// Writes the events of an answer to the start of the list. Its later places stay as they are.
#[tactic(auto, unfolding(crate::specs::Rows::list_of))]
pub(crate) fn said_in(
    list: &mut [Event],
    answer: Result<Accepted, Refusal>,
) -> Result<Said, Refusal>
    requires { HasRoom list.old answer }
    ensures { (d : Record) → SaysAndWrites (told_said d answer) list.old (said_in_list d result) list.new }
{
    let accepted = answer?;
    let count = accepted.events.count;
    list[..count].copy_from_slice(&accepted.events.list[..count]);
    Ok(Said {
        next: accepted.next,
        count,
    })
}
