//! How a line is read as an entry.
ghost use Rattle.std.specs.Prelude.{◌≡◌, IfOk, Ok};
ghost use Rattle.cml_board.specs.{row_of, Entry, may_have, is_of};
ghost use Rattle.cml_journal.specs.declared.fault.What.TheVariants.{BadMessage};
ghost use Rattle.cml_journal.specs.{line_of, HasLine, Gives, ok_or, who_by, who_at, made_in, given_at, asked_at, filled_at, called_at};
ghost use Rattle.cml_journal.specs.{call_at, made_known, told_in, reply_in, entry_in};

use crate::fault::{Unread, What};
use crate::words::{cut, last_at, name_in, number_in, without_colon, word_at};
use crate::written::Written;
use cml_board::{Ask, Call, Entry, Give, Make, Reply, ReplyKind, Who};
use cml_calls::shape_of_filled;
use std::alloc::Global;

#[tactic(auto, unfolding(crate::specs::Reading::who_by))]
fn who_by(word: &str, number: u64) -> Result<Who, Unread>
    ensures { Gives (λ who. who) result (who_by word.now number) }
{
    match word {
        "seat" => Ok(Who::Seat(number)),
        "lane" => Ok(Who::Lane(number)),
        "feed" => Ok(Who::Feed(number)),
        _ => Err(Unread::Fault(What::UnknownWord)),
    }
}

#[tactic(auto, unfolding(crate::specs::Reading::who_at))]
fn who_at(line: &str) -> Result<(Who, &str), Unread>
    ensures { Gives (λ parts. (parts.0, parts.1.now)) result (who_at line.now) }
{
    let (word, rest) = word_at(line)?;
    let (number, rest) = word_at(rest)?;
    let who = who_by(word, number_in(number)?)?;
    Ok((who, rest))
}

#[tactic(auto, unfolding(crate::specs::Reading::made_in))]
fn made_in<M>(word: &str) -> Result<Call<M>, Unread>
    ensures { Gives (λ call. call) result (made_in word.now) }
{
    match Make::of_word(word) {
        Some(make) => Ok(Call::make(make)),
        None => Err(Unread::Fault(What::UnknownWord)),
    }
}

/// The message that a word is.
fn message_in<M: Written>(alloc: Global, word: &str) -> Result<M, Unread>
    ensures { Gives (λ message. message) result (ok_or BadMessage (M.meaning word.now)) }
{
    match M::read(alloc, word)? {
        Some(message) => Ok(message),
        None => Err(Unread::Fault(What::BadMessage)),
    }
}

#[tactic(auto, unfolding(crate::specs::Reading::given_at))]
fn given_at<M: Written>(alloc: Global, give: Give, line: &str) -> Result<(Call<M>, &str), Unread>
    ensures { Gives (λ parts. (parts.0, parts.1.now)) result (given_at M.meaning give line.now) }
{
    let (object, rest) = word_at(line)?;
    let name = name_in(object)?;
    let (word, rest) = last_at(rest)?;
    let message = message_in(alloc, word)?;
    Ok((Call::give(give, name, message), rest))
}

#[tactic(auto, unfolding(crate::specs::Reading::asked_at))]
fn asked_at<M>(ask: Ask, line: &str) -> Result<(Call<M>, &str), Unread>
    ensures { Gives (λ parts. (parts.0, parts.1.now)) result (asked_at ask line.now) }
{
    let (word, rest) = last_at(line)?;
    let name = name_in(word)?;
    Ok((Call::ask(ask, name), rest))
}

/// The call that makes an m-variable with its first message.
#[tactic(auto, unfolding(crate::specs::Reading::filled_at))]
fn filled_at<M: Written>(alloc: Global, line: &str) -> Result<(Call<M>, &str), Unread>
    ensures { Gives (λ parts. (parts.0, parts.1.now)) result (filled_at M.meaning line.now) }
{
    let (word, rest) = last_at(line)?;
    let message = message_in(alloc, word)?;
    Ok((Call::MVarInit(message), rest))
}

/// A call after its word.
#[tactic(auto, unfolding(crate::specs::Reading::called_at))]
fn called_at<'a, M: Written>(
    alloc: Global,
    word: &str,
    line: &'a str,
) -> Result<(Call<M>, &'a str), Unread>
    ensures { Gives (λ parts. (parts.0, parts.1.now)) result (called_at M.meaning word.now line.now) }
{
    if let Some(give) = Give::of_word(word) {
        return given_at(alloc, give, line);
    }
    if let Some(ask) = Ask::of_word(word) {
        return asked_at(ask, line);
    }
    if word == shape_of_filled().word {
        return filled_at(alloc, line);
    }
    Err(Unread::Fault(What::UnknownWord))
}

#[tactic(auto, unfolding(crate::specs::Reading::call_at))]
fn call_at<M: Written>(alloc: Global, line: &str) -> Result<(Call<M>, &str), Unread>
    ensures { Gives (λ parts. (parts.0, parts.1.now)) result (call_at M.meaning line.now) }
{
    let (word, rest) = word_at(line)?;
    match without_colon(word) {
        Some(whole) => Ok((made_in(whole)?, rest)),
        None => called_at(alloc, word, rest),
    }
}

/// The number of an object that was made.
#[tactic(auto, unfolding(crate::specs::Reading::made_known))]
fn made_known<M>(word: &str) -> Result<Reply<M>, Unread>
    ensures { Gives (λ reply. reply) result (made_known word.now) }
{
    Ok(Reply::Made(name_in(word)?))
}

/// A reply of two words, or a message.
#[tactic(auto, unfolding(crate::specs::Reading::told_in))]
fn told_in<M: Written>(alloc: Global, text: &str) -> Result<Reply<M>, Unread>
    ensures { Gives (λ reply. reply) result (told_in M.meaning text.now) }
{
    match cut(text) {
        Some((word, number)) if word == "made" => made_known(number),
        Some(_) => Err(Unread::Fault(What::UnknownWord)),
        None => Ok(Reply::Got(message_in(alloc, text)?)),
    }
}

#[tactic(auto, unfolding(crate::specs::Reading::reply_in))]
fn reply_in<M: Written>(alloc: Global, text: &str) -> Result<Reply<M>, Unread>
    ensures { Gives (λ reply. reply) result (reply_in M.meaning text.now) }
{
    match text {
        "done" => Ok(Reply::Done),
        "none" => Ok(Reply::Nothing),
        "put" => Ok(Reply::Put),
        "closed" => Ok(Reply::Closed),
        _ => told_in(alloc, text),
    }
}

fn is_of<M>(reply: &Reply<M>, kind: ReplyKind) -> bool
    ensures { result ≡ is_of reply.now kind }
{
    matches!(
        (reply, kind),
        (Reply::Done, ReplyKind::Done)
            | (Reply::Made(_), ReplyKind::Made)
            | (Reply::Got(_), ReplyKind::Got)
            | (Reply::Nothing, ReplyKind::Nothing)
            | (Reply::Put, ReplyKind::Put)
            | (Reply::Closed, ReplyKind::Closed)
    )
}

/// Whether a call may have this reply.
fn may_have<M>(call: &Call<M>, reply: &Reply<M>) -> bool
    ensures { result ≡ may_have (row_of call.now) reply.now }
{
    call.shape().replies.iter().any(|kind| is_of(reply, *kind))
}

/// Reads a line as an entry.
#[tactic(auto, unfolding(crate::specs::Reading::entry_in))]
fn entry_in<M: Written>(alloc: Global, line: &str) -> Result<Entry<M>, Unread>
    ensures { Gives (λ entry. entry) result (entry_in M.meaning line.now) }
{
    let (who, rest) = who_at(line)?;
    let (call, rest) = call_at(alloc, rest)?;
    let reply = reply_in(alloc, rest)?;
    if !may_have(&call, &reply) {
        return Err(Unread::Fault(What::WrongReply));
    }
    Ok(Entry { who, call, reply })
}

/// Reads a line, without its line end, as an entry.
///
/// Fails with `Memory` if an allocation fails, and else with the first fault of the line.
pub fn read_entry<M: Written>(alloc: Global, line: &str) -> Result<Entry<M>, Unread>
    // What is read is written so.
    ensures found { IfOk result (λ entry. (line.now ≡ line_of M.text entry) × HasLine M.fits entry) }
    // What is written so is read, unless there is no memory.
    ensures only { (entry : Entry M) → HasLine M.fits entry → line.now ≡ line_of M.text entry → Gives (λ entry. entry) result (Ok entry) }
    // Which fault it is.
    ensures exact { Gives (λ entry. entry) result (entry_in M.meaning line.now) }
{
    entry_in(alloc, line)
}
