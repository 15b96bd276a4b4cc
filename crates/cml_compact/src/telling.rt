ghost use Rattle.std.specs.Prelude.{◌≡◌, ◌≢◌, ◌+◌, None, OnOk, IfErr};
ghost use Rattle.cml_board.specs.{Fits, Lawful, answer, no_entries, entries_in};
ghost use Rattle.cml_compact.specs.Stepping.{Tells};
ghost use Rattle.cml_compact.specs.{AllBy, Stops};

use cml_board::{Board, Call, Message, Refusal, Response, Who};
use cml_log::MessageLog;

/// Makes a call that fits and does not wait.
pub fn tell<M: Message, L: MessageLog<M>>(
    new: &mut Board<M, L>,
    who: Who,
    call: Call<M>,
) -> Result<(), Refusal>
    requires begins { new.old.past ≡ no_entries }
    requires fits { Fits new.old.history call }
    requires answered { answer new.old.history call ≢ None }
    ensures ok { OnOk result (Tells new.old new.new who call) }
    ensures whose { AllBy who new.old.history → AllBy who new.new.history }
    ensures err { IfErr result (Stops new.old.limit (entries_in new.old.history + 1)) }
{
    // The contract of `limit` says that it is bounded.
    let _limit = new.limit();
    match new.call(who, call) {
        Response::Reply(_) => {
            new.facts();
            Ok(())
        }
        Response::WouldWait(_) => unreachable!(),
        Response::Refused(refusal, _) => Err(refusal),
    }
}
