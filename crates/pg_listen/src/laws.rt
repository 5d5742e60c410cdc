//! What the definitions promise. A function without a body says that a law holds.
ghost use Rattle.pg_listen.specs.Moments.{CrashesKeep, RunsAgain};

use pg_journal::Device;
use pg_server::law_two_worlds;

/// What was done before bytes were sent is there after a crash at any moment from then on.
pub fn law_crashes<D: Device>()
    ensures { CrashesKeep D.seen D.may_leave D.moment D.left_since }
{}

/// To answer again what was kept in a run leads each tenant from where it began to where the run led it.
pub fn law_again<D: Device>()
    ensures { RunsAgain D.seen D.may_leave D.moment D.left_since }
{
    law_two_worlds();
}
