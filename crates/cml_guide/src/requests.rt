//! Your own type of messages that own memory: sharing one allocates memory too, and may fail.
ghost use Rattle.std.specs.Prelude.{◌≡◌, false, IfOk, IfErr, OnErr};
ghost use Rattle.cml_board.specs.{IsAsBefore};

use crate::calls::{BoardOf, SEAT, Trouble, make};
use cml_board::{Call, Message, Name, Outcome, Refusal};
use std::alloc::{AllocError, Global};
use std::marker::Model;

/// What a client asks for: a name, which it owns, and a number. Contracts see both, and not where the name lies.
#[derive(Debug, Drop)]
pub struct Request {
    name: String,
    number: u64,
}

impl Model for Request {
    ghost use Rattle.std.specs.Prelude.{ℕ, List, string_bytes};

    ghost Value = { List ℕ × ℕ };

    ghost view = { λ request. (string_bytes request.name, request.number) };
}

impl Request {
    pub fn new(alloc: Global, name: &str, number: u64) -> Result<Request, AllocError>
        ensures { IfOk result (λ request. request ≡ (name.now, number)) }
    {
        let name = String::from_str(alloc, name)?;
        Ok(Request { name, number })
    }
}

impl Message for Request {
    ghost SURE = { false };

    fn share(&self, _alloc: Global) -> Result<Request, AllocError> {
        let name = self.name.clone()?;
        Ok(Request {
            name,
            number: self.number,
        })
    }

    fn same(&self, other: &Request) -> bool {
        self.number == other.number && self.name == other.name
    }
}

/// Sends a request, or any other message. If that fails, for example for want of memory for its share, it comes back with
/// the reason, and the board is as it was.
pub fn send_or_keep<M: Message>(
    board: &mut BoardOf<M>,
    requests: Name,
    request: M,
) -> Result<(), (Refusal, M)>
    ensures kept { IfErr result (λ back. back.1 ≡ request) }
    ensures unchanged { OnErr result (IsAsBefore board.old board.new) }
{
    match board.apply(SEAT, Call::Send(requests, request)) {
        Outcome::Refused(refusal, Call::Send(_, kept)) => Err((refusal, kept)),
        _ => Ok(()),
    }
}

/// A board whose journal has room for one request: the second comes back.
pub fn kept(alloc: Global) -> Result<Result<(), (Refusal, Request)>, Trouble> {
    let mut board = BoardOf::<Request>::new(alloc, 2)?;
    let requests = make(&mut board, Call::NewMailbox)?;
    if let Err(refused) = send_new(alloc, &mut board, requests, ("coffee", 7))? {
        return Ok(Err(refused));
    }
    let kept = send_new(alloc, &mut board, requests, ("tea", 8))?;
    Ok(kept)
}

/// Makes a request and sends it, or keeps it.
fn send_new(
    alloc: Global,
    board: &mut BoardOf<Request>,
    requests: Name,
    what: (&str, u64),
) -> Result<Result<(), (Refusal, Request)>, AllocError> {
    let request = Request::new(alloc, what.0, what.1)?;
    Ok(send_or_keep(board, requests, request))
}
