//! Whether a reply is surely too long, told before it is written. It takes no memory.
ghost use Rattle.std.specs.Prelude.{◌≡◌, ◌+◌, ◌-◌, ◌≤◌, length, decimal};
ghost use Rattle.std.specs.Fmt.{signed_decimal};
ghost use Rattle.pg_json.specs.Replies.{data_of, outs, named_outs, text_items};
ghost use Rattle.pg_json.specs.Room.{least, items_least, members_least};
ghost use Rattle.pg_value_core.specs.declared.out.Out.TheVariants.{Int};

use pg_value_core::Out;

/// What is left of the room behind the value's text, which is at least as long as counted here; 0 also where
/// there was too little.
#[cycle(room)]
pub fn room_behind(room: usize, value: &Out) -> usize
    ensures { result ≡ room - least (data_of value.now) }
{
    match value {
        Out::Null | Out::Bool(_) => room.saturating_sub(4),
        Out::Int(i) => room_behind_integer(room, i),
        Out::Text(text) => room_behind_text(room, text),
        Out::List(items) => room_behind_items(room.saturating_sub(1), items),
        Out::Map(members) => room_behind_members(room.saturating_sub(1), members),
        Out::Node {
            id,
            labels,
            properties,
        } => {
            let room = room_before_properties(room, id.0, labels);
            room_behind_members(room, properties)
        }
        Out::Rel {
            id,
            kind,
            start,
            end,
            properties,
        } => {
            let room = room_behind_ids(room, id.0, start.0, end.0);
            room_behind_members(room_behind_text(room, kind), properties)
        }
        Out::Path(elements) => room_behind_items(room.saturating_sub(11), elements),
    }
}

/// The same of an integer, of which no value is made.
#[inline(always)]
#[tactic(auto, using(crate::proofs::Elements::integer_least))]
pub fn room_behind_integer(room: usize, number: &i64) -> usize
    ensures { result ≡ room - least (data_of (Int number.now)) }
{
    room.saturating_sub(signed_digits(*number))
}

#[cycle(room)]
fn room_behind_items(mut room: usize, items: &[Out]) -> usize
    ensures { result ≡ room - items_least (outs items.now) }
{
    for item in items {
        if room == 0 {
            return 0;
        }
        room = room_behind(room - 1, item);
    }
    room
}

#[cycle(room)]
fn room_behind_members(mut room: usize, members: &[(String, Out)]) -> usize
    ensures { result ≡ room - members_least (named_outs members.now) }
{
    for (key, member) in members {
        if room == 0 {
            return 0;
        }
        room = room_behind(room_behind_key(room, key), member);
    }
    room
}

/// A node's keys, brackets, number and labels.
fn room_before_properties(room: usize, id: u64, labels: &[String]) -> usize
    ensures { result ≡ room - (36 + length (decimal id) + items_least (text_items labels.now)) }
{
    let mut left = room.saturating_sub(36 + digits(id));
    for label in labels {
        left = room_behind_text(left.saturating_sub(1), label);
    }
    left
}

fn room_behind_text(room: usize, text: &str) -> usize
    ensures { result ≡ room - (length text.now + 2) }
{
    room.saturating_sub(2).saturating_sub(text.len())
}

fn room_behind_key(room: usize, key: &str) -> usize
    ensures { result ≡ room - (length key.now + 4) }
{
    room.saturating_sub(4).saturating_sub(key.len())
}

/// A relationship's keys, brackets and numbers.
fn room_behind_ids(room: usize, id: u64, start: u64, end: u64) -> usize
    ensures { result
        ≡ room - (48 + length (decimal id) + length (decimal start) + length (decimal end)) }
{
    room.saturating_sub(48 + digits(id) + digits(start) + digits(end))
}

#[tactic(auto, using(crate::proofs::Digits::digits_between, crate::proofs::Digits::digits_of_zero))]
fn digits(n: u64) -> usize
    ensures count { result ≡ length (decimal n) }
    ensures few { result ≤ 20 }
{
    match n.checked_ilog10() {
        Some(power) => power as usize + 1,
        None => 1,
    }
}

fn signed_digits(n: i64) -> usize
    ensures { result ≡ length (signed_decimal n) }
{
    if n < 0 {
        1 + digits(n.unsigned_abs())
    } else {
        digits(n.unsigned_abs())
    }
}
