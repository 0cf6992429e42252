// The kinds of the messages, by the name of the root after any colon.
ghost use Rattle.std.specs.Prelude.{◌≡◌};
ghost use Rattle.message.specs.Elements.{part};
ghost use Rattle.message.specs.Messages.{kind_of};
ghost use Rattle.reader.specs.Roots.{kind_said};

use elements::noted;
use message::Kind;

// The kind that the name from b to e stands for. No `match` on the bytes: it has some 75 ways to return, of which the check finds few.
#[tactic(auto, unfolding(message::specs::Messages::kind_of))]
pub(crate) fn kind(s: &[u8], b: usize, e: usize) -> Option<Kind>
    ensures { kind_said result ≡ kind_of (part s.now b e) }
{
    if noted::called(s, b, e, b"SessionOpenRequest") {
        Some(Kind::SessionOpenRequest)
    } else if noted::called(s, b, e, b"SessionOpenResponse") {
        Some(Kind::SessionOpenResponse)
    } else if noted::called(s, b, e, b"SessionOk") {
        Some(Kind::SessionOk)
    } else if noted::called(s, b, e, b"Ok") {
        Some(Kind::Ok)
    } else if noted::called(s, b, e, b"Advisory") {
        Some(Kind::Advisory)
    } else if noted::called(s, b, e, b"Request") {
        Some(Kind::Request)
    } else if noted::called(s, b, e, b"Response") {
        Some(Kind::Response)
    } else {
        None
    }
}
