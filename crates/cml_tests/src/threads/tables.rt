//! What seats do on a switchboard, step by step, with the result of each step. In the end the counts are of all entries, and
//! the journal has those that were not cut away.
use super::forms::Form::{
    Close, Copy, IGet, IGetPoll, IPut, IVar, MChannel, MGet, MGetPoll, MPut, MSwap, MTake,
    MTakePoll, MVar, MVarInit, Mailbox, Multicast, Port, Recv, RecvPoll, Send,
};
use super::steps::Step;
use Step::*;
use cml_board::{Ask, Name};

/// Steps, each with its result.
pub type Rows = &'static [(Step, &'static str)];

/// How many entries a journal takes, the steps of a seat, those of another, and the counts and the journal in the end.
pub type Scene = (u64, Rows, Rows, &'static str);

pub const SCENES: &[Scene] = &[
    (100, FORMS, &[], FORMS_END),
    (2, REFUSALS, &[], REFUSALS_END),
    (2, CUTS, &[], CUTS_END),
    (2, OPEN_CUTS, &[], OPEN_CUTS_END),
    (5, SHORT, &[], SHORT_END),
    (100, SENDS, POLLS, SETTLED),
];

/// The first object is a mailbox, and the second a channel, if there are two.
const MAILBOX: Name = Name(0);

const CHANNEL: Name = Name(1);

const PORT: Name = Name(2);

const COPY: Name = Name(3);

const ONCE: Name = Name(4);

const MUTABLE: Name = Name(5);

/// Each named form.
const FORMS: Rows = &[
    (Form(Mailbox), "Ok(Made(Name(0)))"),
    (Form(Send(MAILBOX, 5)), "Ok(Done)"),
    (Form(Recv(MAILBOX)), "Ok(Got(5))"),
    (Form(RecvPoll(MAILBOX)), "Ok(Nothing)"),
    (Form(MChannel), "Ok(Made(Name(1)))"),
    (Form(Port(CHANNEL)), "Ok(Made(Name(2)))"),
    (Form(Multicast(CHANNEL, 6)), "Ok(Done)"),
    (Form(Copy(PORT)), "Ok(Made(Name(3)))"),
    (Form(Close(PORT)), "Ok(Done)"),
    (Form(Recv(COPY)), "Ok(Got(6))"),
    (Form(IVar), "Ok(Made(Name(4)))"),
    (Form(IPut(ONCE, 7)), "Ok(Done)"),
    (Form(IGet(ONCE)), "Ok(Got(7))"),
    (Form(IGetPoll(ONCE)), "Ok(Got(7))"),
    (Form(MVar), "Ok(Made(Name(5)))"),
    (Form(MPut(MUTABLE, 8)), "Ok(Done)"),
    (Form(MGet(MUTABLE)), "Ok(Got(8))"),
    (Form(MGetPoll(MUTABLE)), "Ok(Got(8))"),
    (Form(MSwap(MUTABLE, 9)), "Ok(Got(8))"),
    (Form(MTake(MUTABLE)), "Ok(Got(9))"),
    (Form(MTakePoll(MUTABLE)), "Ok(Nothing)"),
    (Form(MVarInit(10)), "Ok(Made(Name(6)))"),
];

/// Each form has made its own call.
const FORMS_END: &str = "Count { seats: 22, rings: 0, total: 22 }
(Seat(0), NewMailbox, Made(Name(0)))
(Seat(0), Send(Name(0), 5), Done)
(Seat(0), Recv(Name(0)), Got(5))
(Seat(0), Poll(Name(0)), Nothing)
(Seat(0), NewChannel, Made(Name(1)))
(Seat(0), NewPort(Name(1)), Made(Name(2)))
(Seat(0), Cast(Name(1), 6), Done)
(Seat(0), CopyPort(Name(2)), Made(Name(3)))
(Seat(0), ClosePort(Name(2)), Done)
(Seat(0), Recv(Name(3)), Got(6))
(Seat(0), NewIVar, Made(Name(4)))
(Seat(0), Put(Name(4), 7), Done)
(Seat(0), Get(Name(4)), Got(7))
(Seat(0), GetPoll(Name(4)), Got(7))
(Seat(0), NewMVar, Made(Name(5)))
(Seat(0), Put(Name(5), 8), Done)
(Seat(0), Get(Name(5)), Got(8))
(Seat(0), GetPoll(Name(5)), Got(8))
(Seat(0), Swap(Name(5), 9), Got(8))
(Seat(0), Take(Name(5)), Got(9))
(Seat(0), TakePoll(Name(5)), Nothing)
(Seat(0), MVarInit(10), Made(Name(6)))
";

/// By a named form and by `call` each call returns its refusal and the call, and adds no entry. Nor does a reservation. With
/// the mailbox and one message the journal is full.
const REFUSALS: Rows = &[
    (Reserve(2), "Ok(())"),
    (Form(Recv(MAILBOX)), "Err((NoSuch, Recv(Name(0))))"),
    (Call(Ask::Recv, MAILBOX), "Err((NoSuch, Recv(Name(0))))"),
    (Form(Mailbox), "Ok(Made(Name(0)))"),
    (Form(MTake(MAILBOX)), "Err((WrongKind, Take(Name(0))))"),
    (Call(Ask::Take, MAILBOX), "Err((WrongKind, Take(Name(0))))"),
    (Form(Recv(MAILBOX)), "Err((Stalled, Recv(Name(0))))"),
    (Call(Ask::Recv, MAILBOX), "Err((Stalled, Recv(Name(0))))"),
    (Form(Send(MAILBOX, 5)), "Ok(Done)"),
    (Form(Recv(MAILBOX)), "Err((JournalFull, Recv(Name(0))))"),
    (
        Call(Ask::Recv, MAILBOX),
        "Err((JournalFull, Recv(Name(0))))",
    ),
];

const REFUSALS_END: &str = "Count { seats: 2, rings: 0, total: 2 }
(Seat(0), NewMailbox, Made(Name(0)))
(Seat(0), Send(Name(0), 5), Done)
";

/// Cuts fail while a lane is open, and else drop or return the entries. What waits is received after a cut, and there is room
/// for as many entries again.
const CUTS: Rows = &[
    (Form(Mailbox), "Ok(Made(Name(0)))"),
    (Form(Send(MAILBOX, 5)), "Ok(Done)"),
    (OpenLane(MAILBOX), "0"),
    (Cut, "Err(Busy)"),
    (TakeJournal, "Err(Busy)"),
    (AbandonLane, "Ok(())"),
    (Cut, "Ok(())"),
    (Form(Recv(MAILBOX)), "Ok(Got(5))"),
    (Form(Send(MAILBOX, 6)), "Ok(Done)"),
    (TakeJournal, "Ok(2)"),
    (Form(Recv(MAILBOX)), "Ok(Got(6))"),
];

const CUTS_END: &str = "Count { seats: 5, rings: 0, total: 5 }
(Seat(0), Recv(Name(0)), Got(6))
";

/// A lane, and then a feed, with a full journal that only open cuts make room in.
const OPEN_CUTS: Rows = &[
    (Form(Mailbox), "Ok(Made(Name(0)))"),
    (OpenLane(MAILBOX), "0"),
    (Push(5), "Ok(())"),
    (Form(Send(MAILBOX, 4)), "Ok(Done)"),
    (Cut, "Err(Busy)"),
    (CutOpen, "()"),
    (CloseLane, "Ok(())"),
    (Form(MChannel), "Ok(Made(Name(1)))"),
    (TakeJournal, "Ok(2)"),
    (OpenFeed(CHANNEL), "(0, Name(2))"),
    (Form(Multicast(CHANNEL, 6)), "Ok(Done)"),
    (TakeJournal, "Err(Busy)"),
    (TakeJournalOpen, "2"),
    (Pump, "Ok(1)"),
    (Form(Recv(MAILBOX)), "Ok(Got(4))"),
    (TakeJournalOpen, "2"),
    (Pop, "Some(6)"),
    (EndFeed, "Ok(true)"),
    (Form(Recv(MAILBOX)), "Ok(Got(5))"),
];

const OPEN_CUTS_END: &str = "Count { seats: 6, rings: 3, total: 9 }
(Seat(0), Recv(Name(0)), Got(5))
";

/// Short journals. Of three messages one waits, and a lane is open, which is dropped with what it has.
const SHORT: Rows = &[
    (Form(Mailbox), "Ok(Made(Name(0)))"),
    (OpenLane(MAILBOX), "0"),
    (Form(Send(MAILBOX, 4)), "Ok(Done)"),
    (Form(Recv(MAILBOX)), "Ok(Got(4))"),
    (Form(Send(MAILBOX, 5)), "Ok(Done)"),
    (Compact(1), "Err(JournalFull)"),
    (Compact(2), "Ok(2)"),
    (CompactAndCut(1), "Err(JournalFull)"),
    (CompactAndCut(2), "Ok(2)"),
    (Push(6), "Ok(())"),
    (DropLane, "Ok((1, true))"),
    (Form(Recv(MAILBOX)), "Ok(Got(5))"),
    (CompactAndCut(2), "Ok(2)"),
    (Form(Recv(MAILBOX)), "Ok(Got(6))"),
];

const SHORT_END: &str = "Count { seats: 6, rings: 1, total: 7 }
(Seat(0), Recv(Name(0)), Got(6))
";

/// Six calls by two seats. With the left of the first `settle` fails and returns all, and with both it succeeds.
const SENDS: Rows = &[
    (Form(Mailbox), "Ok(Made(Name(0)))"),
    (Form(Send(MAILBOX, 5)), "Ok(Done)"),
    (Form(Send(MAILBOX, 6)), "Ok(Done)"),
];

const POLLS: Rows = &[
    (Form(RecvPoll(MAILBOX)), "Ok(Got(5))"),
    (Form(RecvPoll(MAILBOX)), "Ok(Got(6))"),
    (Form(RecvPoll(MAILBOX)), "Ok(Nothing)"),
];

const SETTLED: &str = "Count { seats: 6, rings: 0, total: 6 }
(Seat(0), NewMailbox, Made(Name(0)))
(Seat(0), Send(Name(0), 5), Done)
(Seat(0), Send(Name(0), 6), Done)
(Seat(1), Poll(Name(0)), Got(5))
(Seat(1), Poll(Name(0)), Got(6))
(Seat(1), Poll(Name(0)), Nothing)
";
