// What stands in and between tags: characters, references, text, values, comments, the declaration (document 01, "The restricted XML").
// Each function is given the message, mostly the table of classes, and a place, and has an answer for every place and every table.
#![tactic(auto)]

pub mod characters;
pub mod declaration;
pub mod markup;
pub mod references;
pub mod runs;

ghost use Rattle.std.specs.Prelude.{◌≡◌, ◌+◌, ◌<◌, ◌^◌, true, cond};
ghost use Rattle.message.specs.Reading.{said};
ghost use Rattle.message.specs.Reading.Reading.{whole, refused};

use message::{Reason, Refusal};

// Reads the byte at the place if it is one that is wanted, as the caller has found.
fn one_if(wanted: bool, at: usize) -> Result<usize, Refusal>
    requires { wanted ≡ true → at + 1 < 2 ^ 64 }
    ensures { said result ≡ cond wanted (whole (at + 1)) (refused 9 at) }
{
    if wanted {
        Ok(at + 1)
    } else {
        scan::refused(Reason::NotWellFormed, at)
    }
}
