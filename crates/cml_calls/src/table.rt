//! The table itself, by what a call needs: nothing, an object and a message, or an object alone.
ghost use Rattle.std.specs.Prelude.{◌≡◌, ◌==◌, true, false};
ghost use Rattle.std.specs.Str.{bytes_eq};
ghost use Rattle.cml_calls.specs.{shown, row, made, filled, given, asked, make_of, give_of, ask_of, make_at, give_at, ask_at};

use crate::shape::{ReplyKind, Shape, Takers};

/// A call that makes an object of nothing.
#[derive(Clone, Copy, Debug, PartialEq, Eq)]
pub enum Make {
    Mailbox,
    Channel,
    IVar,
    MVar,
}

/// A call that gives an object a message.
#[derive(Clone, Copy, Debug, PartialEq, Eq)]
pub enum Give {
    Send,
    Cast,
    Put,
    Swap,
}

/// A call that needs an object alone.
#[derive(Clone, Copy, Debug, PartialEq, Eq)]
pub enum Ask {
    NewPort,
    CopyPort,
    ClosePort,
    Recv,
    Poll,
    Get,
    GetPoll,
    Take,
    TakePoll,
}

const MAKES: &[Make] = &[Make::Mailbox, Make::Channel, Make::IVar, Make::MVar];

const GIVES: &[Give] = &[Give::Send, Give::Cast, Give::Put, Give::Swap];

const ASKS: &[Ask] = &[
    Ask::NewPort,
    Ask::CopyPort,
    Ask::ClosePort,
    Ask::Recv,
    Ask::Poll,
    Ask::Get,
    Ask::GetPoll,
    Ask::Take,
    Ask::TakePoll,
];

const MADE: &[ReplyKind] = &[ReplyKind::Made];

const DONE: &[ReplyKind] = &[ReplyKind::Done];

const GOT: &[ReplyKind] = &[ReplyKind::Got];

const POLLED: &[ReplyKind] = &[ReplyKind::Got, ReplyKind::Nothing];

/// A row of a call that never blocks.
#[inline(always)]
fn row(number: u32, word: &'static str, takers: Takers, replies: &'static [ReplyKind]) -> Shape
    ensures { shown result ≡ row number word.now takers replies.now false }
{
    Shape {
        number,
        word,
        takers,
        replies,
        blocks: false,
    }
}

/// A row of a call that may block.
#[inline(always)]
fn blocking(number: u32, word: &'static str, takers: Takers, replies: &'static [ReplyKind]) -> Shape
    ensures { shown result ≡ row number word.now takers replies.now true }
{
    Shape {
        number,
        word,
        takers,
        replies,
        blocks: true,
    }
}

impl Make {
    /// Returns the call's row in the table.
    #[inline(always)]
    pub fn shape(self) -> Shape
        ensures { shown result ≡ made self }
    {
        match self {
            Make::Mailbox => row(0, "mailbox", Takers::Nobody, MADE),
            Make::Channel => row(1, "channel", Takers::Nobody, MADE),
            Make::IVar => row(5, "ivar", Takers::Nobody, MADE),
            Make::MVar => row(6, "mvar", Takers::Nobody, MADE),
        }
    }

    fn has_word(self, word: &str) -> bool
        ensures { result ≡ bytes_eq word.now (made self).word }
    {
        self.shape().word == word
    }

    /// Finds the call that has this word.
    pub fn of_word(word: &str) -> Option<Make>
        ensures { result ≡ make_of word.now }
    {
        MAKES.iter().find(|make| make.has_word(word)).copied()
    }

    fn has_number(self, number: u32) -> bool
        ensures { result ≡ ((made self).number == number) }
    {
        self.shape().number == number
    }

    /// Finds the call that has this number.
    pub fn of_number(number: u32) -> Option<Make>
        ensures { result ≡ make_at number }
    {
        MAKES.iter().find(|make| make.has_number(number)).copied()
    }
}

/// Returns the row of the call that makes an m-variable with its first message. Its word is the one of `Make::MVar`.
#[inline(always)]
pub fn shape_of_filled() -> Shape
    ensures { shown result ≡ filled }
{
    row(7, "mvar", Takers::Nobody, MADE)
}

impl Give {
    /// Returns which objects take the call.
    #[inline(always)]
    pub fn takers(self) -> Takers
        ensures { result ≡ (given self).takers }
    {
        match self {
            Give::Send => Takers::Mailboxes,
            Give::Cast => Takers::Channels,
            Give::Put => Takers::Variables,
            Give::Swap => Takers::MVars,
        }
    }

    /// Returns the call's row in the table.
    #[inline(always)]
    pub fn shape(self) -> Shape
        ensures { shown result ≡ given self }
    {
        let takers = self.takers();
        match self {
            Give::Send => row(8, "send", takers, DONE),
            Give::Cast => row(9, "multicast", takers, DONE),
            Give::Put => row(12, "put", takers, &[ReplyKind::Done, ReplyKind::Put]),
            Give::Swap => blocking(17, "swap", takers, GOT),
        }
    }

    fn has_word(self, word: &str) -> bool
        ensures { result ≡ bytes_eq word.now (given self).word }
    {
        self.shape().word == word
    }

    /// Finds the call that has this word.
    pub fn of_word(word: &str) -> Option<Give>
        ensures { result ≡ give_of word.now }
    {
        GIVES.iter().find(|give| give.has_word(word)).copied()
    }

    fn has_number(self, number: u32) -> bool
        ensures { result ≡ ((given self).number == number) }
    {
        self.shape().number == number
    }

    /// Finds the call that has this number.
    pub fn of_number(number: u32) -> Option<Give>
        ensures { result ≡ give_at number }
    {
        GIVES.iter().find(|give| give.has_number(number)).copied()
    }
}

impl Ask {
    /// Returns which objects take the call.
    #[inline(always)]
    pub fn takers(self) -> Takers
        ensures { result ≡ (asked self).takers }
    {
        match self {
            Ask::NewPort => Takers::Channels,
            Ask::CopyPort | Ask::ClosePort => Takers::Ports,
            Ask::Recv | Ask::Poll => Takers::Receivers,
            Ask::Get | Ask::GetPoll => Takers::Variables,
            Ask::Take | Ask::TakePoll => Takers::MVars,
        }
    }

    /// Returns the call's row in the table.
    #[inline(always)]
    pub fn shape(self) -> Shape
        ensures { shown result ≡ asked self }
    {
        let takers = self.takers();
        match self {
            Ask::NewPort => row(2, "port", takers, MADE),
            Ask::CopyPort => row(3, "copy", takers, &[ReplyKind::Made, ReplyKind::Closed]),
            Ask::ClosePort => row(4, "close", takers, &[ReplyKind::Done, ReplyKind::Closed]),
            Ask::Recv => blocking(10, "recv", takers, &[ReplyKind::Got, ReplyKind::Closed]),
            Ask::Poll => row(
                11,
                "poll",
                takers,
                &[ReplyKind::Got, ReplyKind::Nothing, ReplyKind::Closed],
            ),
            Ask::Get => blocking(13, "get", takers, GOT),
            Ask::GetPoll => row(14, "getpoll", takers, POLLED),
            Ask::Take => blocking(15, "take", takers, GOT),
            Ask::TakePoll => row(16, "takepoll", takers, POLLED),
        }
    }

    fn has_word(self, word: &str) -> bool
        ensures { result ≡ bytes_eq word.now (asked self).word }
    {
        self.shape().word == word
    }

    /// Finds the call that has this word.
    pub fn of_word(word: &str) -> Option<Ask>
        ensures { result ≡ ask_of word.now }
    {
        ASKS.iter().find(|ask| ask.has_word(word)).copied()
    }

    fn has_number(self, number: u32) -> bool
        ensures { result ≡ ((asked self).number == number) }
    {
        self.shape().number == number
    }

    /// Finds the call that has this number.
    pub fn of_number(number: u32) -> Option<Ask>
        ensures { result ≡ ask_at number }
    {
        ASKS.iter().find(|ask| ask.has_number(number)).copied()
    }
}
