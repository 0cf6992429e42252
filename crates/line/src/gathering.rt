// `framing::gather` for C.
ghost use Rattle.std.specs.Prelude.{◌≡◌};
ghost use Rattle.line.specs.Gather.{gather_refusal, gather_store, gather_list};

use crate::lists;
use framing::Held;

// Returns 0, or the number of the refusal; a refused call writes nothing anywhere. Otherwise the bytes taken, the item's number, a
// message's length and the two numbers to hold stand at the start of `answer`.
#[tactic(auto, using(framing::proofs::Unchanged::answer_refusal), unfolding(crate::specs::Gather::gather_refusal, crate::specs::Gather::gather_store, crate::specs::Gather::gather_list))]
#[unsafe(no_mangle)]
pub extern "C" fn ali_gather(
    boundary: &[u8],
    store: &mut [u8],
    piece: &[u8],
    gathered: u32,
    matched: u32,
    answer: &mut [u64],
) -> u32
    ensures number { result ≡ gather_refusal boundary.now store.old gathered matched answer.old }
    ensures store { store.new ≡ gather_store boundary.now store.old piece.now gathered matched answer.old }
    ensures list { answer.new ≡ gather_list boundary.now store.old piece.now gathered matched answer.old }
{
    if answer.len() < lists::PLACES {
        return 3;
    }
    let call = match framing::gather(boundary, store, piece, Held { gathered, matched }) {
        Ok(call) => call,
        Err(refusal) => return refusal.into(),
    };
    let numbers = [
        call.taken as u64,
        u32::from(call.item) as u64,
        call.item.length() as u64,
        call.held.gathered as u64,
        call.held.matched as u64,
    ];
    lists::write(answer, 0, &numbers);
    0
}
