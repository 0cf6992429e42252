// `reader::read` for C.
ghost use Rattle.std.specs.Prelude.{◌≡◌, ◌≤◌, ◌+◌, length};
ghost use Rattle.message.specs.Reading.{reason_number};
ghost use Rattle.line.specs.Lists.{written, placed};
ghost use Rattle.line.specs.Read.{value_numbers, number_numbers, message_numbers, refusal_numbers, read_return, read_list};

use crate::lists;
use message::{Message, Refusal, Value};

// Writes the five numbers of a value to the places from `at` on: what it means is told as a number, with the number that it names, if any.
fn write_value<M>(list: &mut [u64], at: usize, value: &Value<M>, meaning: u32, named: u32)
    requires { at + 5 ≤ length list.old }
    ensures { list.new ≡ placed at (value_numbers value.now.there value.now.place value.now.length meaning named) list.old }
{
    let numbers = [
        u64::from(value.there),
        value.place as u64,
        value.length as u64,
        u64::from(meaning),
        u64::from(named),
    ];
    lists::write(list, at, &numbers);
}

#[tactic(auto, unfolding(crate::specs::Read::number_numbers))]
fn write_number(list: &mut [u64], at: usize, value: Value<Option<u32>>)
    requires { at + 5 ≤ length list.old }
    ensures { list.new ≡ placed at (number_numbers value) list.old }
{
    let number = value.meaning;
    write_value(
        list,
        at,
        &value,
        u32::from(number.is_some()),
        number.unwrap_or(0),
    );
}

// Writes a message that was read to the first 28 places.
fn write_message(list: &mut [u64], message: Message)
    requires { 28 ≤ length list.old }
    ensures { list.new ≡ written (message_numbers message) list.old }
{
    let head = [0, 0, u64::from(u32::from(message.kind))];
    lists::write(list, 0, &head);
    let status = u32::from(message.status.meaning);
    write_value(list, 3, &message.status, status, 0);
    write_number(list, 8, message.id);
    write_number(list, 13, message.in_response_to);
    write_number(list, 18, message.in_relation_to);
    let advice = u32::from(message.advisory_type.meaning);
    write_value(list, 23, &message.advisory_type, advice, 0);
}

// Writes a refusal to the first 28 places.
#[tactic(auto, unfolding(crate::specs::Read::refusal_numbers))]
fn write_refusal(list: &mut [u64], refusal: Refusal)
    requires { 28 ≤ length list.old }
    ensures { list.new ≡ written (refusal_numbers (reason_number refusal.reason) refusal.place) list.old }
{
    let mut numbers = [0; 28];
    numbers[0] = u64::from(u32::from(refusal.reason));
    numbers[1] = refusal.place as u64;
    lists::write(list, 0, &numbers);
}

// Returns 0, or 3 where the list is too short. The refusals of the reader are answers: the first 28 places say which, or what was read.
#[unsafe(no_mangle)]
pub extern "C" fn ali_read(message: &[u8], answer: &mut [u64]) -> u32
    ensures number { result ≡ read_return answer.old }
    ensures list { answer.new ≡ read_list message.now answer.old }
{
    if answer.len() < lists::PLACES {
        return 3;
    }
    match reader::read(message) {
        Ok(read) => write_message(answer, read),
        Err(refusal) => write_refusal(answer, refusal),
    }
    0
}
