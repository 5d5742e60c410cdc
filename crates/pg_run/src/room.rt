//! Room for what is spelt out.
ghost use Rattle.std.specs.Prelude.{◌≡◌, ◌≢◌, ◌+◌, ◌-◌, length, IfErr, IfOk};
ghost use Rattle.pg_json.specs.Replies.{data_of};
ghost use Rattle.pg_json.specs.Room.{least};
ghost use Rattle.pg_meaning.specs.declared.fault.Fault.TheVariants.{OutOfMemory};
ghost use Rattle.pg_value_core.specs.declared.out.Out.TheVariants.{Null};
ghost use Rattle.serde_json.specs.Data.{string};

use pg_json::room_behind;
use pg_meaning::Fault;
use pg_value_core::Out;
use std::alloc::Global;

/// This, or null in its place where no room is left behind it.
pub(crate) fn within(out: Out, room: &mut usize) -> Out
    ensures room { room.new ≡ room.old - least (data_of out) }
    ensures out { room.new ≢ 0 → result ≡ out }
    ensures none { room.new ≡ 0 → result ≡ Null }
{
    *room = room_behind(*room, &out);
    if *room == 0 { Out::Null } else { out }
}

/// A copy of the text, or null in its place where no room is left behind it.
pub(crate) fn spell_text(alloc: Global, text: &str, room: &mut usize) -> Result<Out, Fault>
    ensures room { IfOk result (λ out. room.new ≡ room.old - (length text.now + 2)) }
    ensures out { IfOk result (λ out. room.new ≢ 0 → data_of out ≡ string text.now) }
    ensures err { IfErr result (λ e. e ≡ OutOfMemory) }
{
    *room = room.saturating_sub(2).saturating_sub(text.len());
    if *room == 0 {
        return Ok(Out::Null);
    }
    Ok(Out::Text(String::from_str(alloc, text)?))
}
