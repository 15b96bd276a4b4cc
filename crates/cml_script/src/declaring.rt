//! The objects that a script declares.
ghost use Rattle.std.specs.Prelude.{◌≡◌, ◌<◌, true, Some, None, length, IfSome, IfOk, IfErr, OnOk, MatchOption};
ghost use Rattle.std.specs.Option.{option_map};
ghost use Rattle.cml_report.specs.{IsKnown, IsMadeOfDeclared};
ghost use Rattle.cml_script.specs.{BeginsAt, Declares, with_refused, HasCapacity, HasMade, making};

use crate::caller::Caller;
use cml_board::{Call, Refusal, Text};
use cml_grammar::Makes;
use cml_report::Plan;
use std::alloc::AllocError;

/// Makes the declared objects in text order, a feed's port by opening the feed. It stops at the first that is refused.
pub fn declare<C: Caller>(plan: &Plan<'_>, caller: &mut C) -> Result<(), Refusal>
    requires known { IsKnown plan.now }
    requires goes_on { C.goes_on caller.old ≡ true }
    requires begins { BeginsAt 0 (C.made caller.old) }
    ensures { IfSome (C.made caller.new) (λ made. Declares plan.now made result) }
{
    for declaration in plan.script().declarations() {
        make(plan, &declaration.makes, caller)?;
    }
    Ok(())
}

/// Makes what a declaration makes.
fn make<C: Caller>(plan: &Plan<'_>, makes: &Makes, caller: &mut C) -> Result<(), Refusal>
    requires declared { IsMadeOfDeclared plan.now makes.now }
    requires capacity { HasCapacity makes.now }
    requires goes_on { C.goes_on caller.old ≡ true }
    ensures goes_on { OnOk result (C.goes_on caller.new ≡ true) }
    ensures made { OnOk result (HasMade plan.now makes.now (C.made caller.old) (C.made caller.new)) }
    ensures refused { IfErr result (λ refusal. C.made caller.new ≡ option_map (with_refused refusal) (C.made caller.old)) }
{
    if let Makes::Feed(feed) = makes {
        caller.open_feed(plan.number(feed.channel), feed.capacity)?;
        return Ok(());
    }
    match making(plan, makes) {
        Ok(Some(call)) => {
            drop(caller.call(call)?);
            Ok(())
        }
        Ok(None) => Ok(()),
        Err(_) => Err(caller.lack_memory()),
    }
}

/// The call that makes this, if it is an object. Only want of memory refuses it.
fn making(plan: &Plan<'_>, makes: &Makes) -> Result<Option<Call<Text>>, AllocError>
    requires { IsMadeOfDeclared plan.now makes.now }
    ensures { IfOk result (λ call. call ≡ making plan.now makes.now) }
{
    match makes {
        Makes::Thread => Ok(None),
        Makes::Mailbox => Ok(Some(Call::NewMailbox)),
        Makes::Channel => Ok(Some(Call::NewChannel)),
        Makes::IVar => Ok(Some(Call::NewIVar)),
        Makes::MVar => Ok(Some(Call::NewMVar)),
        Makes::MVarInit(message) => Ok(Some(Call::MVarInit(message.clone()?))),
        Makes::Port(channel) => Ok(Some(Call::NewPort(plan.number(*channel)))),
        Makes::Feed(feed) => Ok(Some(Call::NewPort(plan.number(feed.channel)))),
    }
}
