ghost use Rattle.std.specs.Prelude.{◌≡◌, List, ◌^◌, ◌<◌, ◌≤◌, ◌↔◌, ◌&&◌, false, [], ◌++◌, length, reverse, Some, None, option_map};
ghost use Rattle.std.specs.Prelude.{option_copied, IfOk, OnOk, OnErr, IsOk, IsTrue, MatchOption, MatchBool};
ghost use Rattle.cml_board.specs.{Entry, no_entries, entries_in, Lawful, made, origin_of, kind_of, is_open, is_a, sent_count, got_count};
ghost use Rattle.cml_board.specs.{owed_count, owed_to, channel_of, start_of, first_of, kept_count, port_is_open, held_by, map_log};
ghost use Rattle.cml_board.specs.{log_at, HasLog, ReadsAt, Stands, IsNoted, IsAsBefore, HasRoom, Cuts, IsSound, base_of};
ghost use Rattle.cml_board.specs.{next_base, full_at};
ghost use Rattle.cml_calls.specs.{is_receiver};

mod apply;
mod making;
mod messages;
mod note;
mod objects;
mod variables;
mod waiting;

use crate::answer::Answer;
use crate::call::Name;
use crate::cut_entries::CutEntries;
use crate::entry::Entry;
use crate::message::Message;
use crate::object::{self, Object, Reading, share_each};
use cml_calls::Kind;
use cml_log::{ChunkLog, Key, MessageLog};
use objects::log_at;
use std::alloc::{AllocError, Global};
use std::marker::Model;
use std::mem;

/// The log to make boards with. It has chunks of four messages.
pub type BoardLog<M> = ChunkLog<M, 4>;

/// Mailboxes, channels, ports and variables, with the journal of all calls that were accepted since it was last cut. None of
/// its calls blocks.
#[derive(Drop)]
pub struct Board<M, L: MessageLog<M>> {
    alloc: Global,
    limit: u64,
    past: CutEntries<Entry<M>>,
    journal: Vec<Entry<M>>,
    objects: Vec<Object<M, L>>,
}

impl<M, L: MessageLog<M>> Model for Board<M, L> {
    ghost use Rattle.cml_board.specs.Shown.{Shown};

    ghost Value = { Shown M };

    ghost use Rattle.std.specs.Prelude.{◌-◌, vec_len, vec_capacity};
    ghost use Rattle.cml_board.specs.Keeps.{shown, Keeps};

    ghost view = { λ b. shown L.log b.past b.journal.items b.limit b.objects.items (vec_capacity b.journal - vec_len b.journal) };

    ghost invariant = { λ b.
        Keeps L.CHUNK (shown L.log b.past b.journal.items b.limit b.objects.items (vec_capacity b.journal - vec_len b.journal)) };
}

impl<M: Message, L: MessageLog<M>> Board<M, L> {
    /// Makes a board with no objects. Its journal takes `limit` entries, and as many again after each cut. Never fails.
    pub fn new(alloc: Global, limit: u64) -> Result<Board<M, L>, AllocError>
        requires least { 1 ≤ limit }
        requires most { limit ≤ 2 ^ 32 }
        ensures history { IfOk result (λ board. board.history ≡ no_entries) }
        ensures past { IfOk result (λ board. board.past ≡ no_entries) }
        ensures limit { IfOk result (λ board. board.limit ≡ limit) }
        ensures objects { IfOk result (λ board. board.objects ≡ []) }
        ensures succeeds { IsOk result }
    {
        Ok(Board::fresh(alloc, limit))
    }

    /// Makes a board with no objects, and reserves memory for this many entries and objects. What a mailbox or a channel
    /// allocates for its messages is not reserved.
    pub fn with_capacity(
        alloc: Global,
        limit: u64,
        entries: usize,
        objects: usize,
    ) -> Result<Board<M, L>, AllocError>
        requires least { 1 ≤ limit }
        requires most { limit ≤ 2 ^ 32 }
        ensures history { IfOk result (λ board. board.history ≡ no_entries) }
        ensures past { IfOk result (λ board. board.past ≡ no_entries) }
        ensures limit { IfOk result (λ board. board.limit ≡ limit) }
        ensures objects { IfOk result (λ board. board.objects ≡ []) }
        ensures reserved { IfOk result (λ board. board.reserved ≡ entries) }
        ensures succeeds { (entries ≡ 0) × (objects ≡ 0) → IsOk result }
    {
        let mut board = Board::fresh(alloc, limit);
        board.journal = Vec::with_capacity(alloc, entries)?;
        board.objects = Vec::with_capacity(alloc, objects)?;
        Ok(board)
    }

    /// Makes a board with no objects, which takes no memory yet.
    pub(crate) fn fresh(alloc: Global, limit: u64) -> Board<M, L>
        requires least { 1 ≤ limit }
        requires most { limit ≤ 2 ^ 32 }
        ensures history { result.history ≡ no_entries }
        ensures past { result.past ≡ no_entries }
        ensures limit { result.limit ≡ limit }
        ensures objects { result.objects ≡ [] }
    {
        Board {
            alloc,
            limit,
            past: CutEntries::none(),
            journal: Vec::new(alloc),
            objects: Vec::new(alloc),
        }
    }

    /// Returns how many entries the journal takes between two cuts.
    pub fn limit(&self) -> u64
        ensures limit { result ≡ self.now.limit }
        ensures bounded { result ≤ 2 ^ 32 }
    {
        self.limit
    }

    /// Returns the calls that were accepted since the last cut, oldest first. Without a cut, these are all accepted calls.
    pub fn journal(&self) -> &[Entry<M>]
        ensures entries { reverse result.now ++ self.now.past ≡ self.now.history }
        ensures room { entries_in self.now.history ≤ full_at self.now }
        ensures sound { IsSound L.CHUNK self.now }
    {
        self.journal.as_slice()
    }

    /// Does nothing: a caller that needs what always holds of a board reads it here.
    pub fn facts(&self)
        ensures sound { IsSound L.CHUNK self.now }
    {
        let _journal = self.journal();
    }

    /// Returns how many calls were accepted since the board was made.
    #[inline]
    pub fn entries(&self) -> u64
        ensures { result ≡ entries_in self.now.history }
    {
        self.past.count() + self.journal.len() as u64
    }

    /// Returns how many entries were cut away, which is the position of the journal's first entry.
    pub fn cut_at(&self) -> u64
        ensures { result ≡ entries_in self.now.past }
    {
        self.past.count()
    }

    /// Says whether the journal is full. It is full if it has as many entries as its limit. It is also full if 2^64 - 1
    /// calls, the highest count, were accepted since the board was made.
    #[inline]
    pub fn is_full(&self) -> bool
        ensures full { MatchBool result (entries_in self.now.history ≡ full_at self.now) (HasRoom self.now) }
        ensures lawful { Lawful self.now.history }
    {
        self.journal.len() as u64 == self.limit || self.entries() == u64::MAX
    }

    /// Cuts the journal: drops its entries, so that it takes as many again. Objects keep what waits in them. Names and
    /// positions of entries go on counting. Never fails, and keeps the reserved memory.
    pub fn cut(&mut self)
        ensures cut { Cuts self.old self.new }
        ensures reserved { self.old.reserved ≤ self.new.reserved }

        // What is left of all that was cut away is the next base, made of the one before and the entries since.
        ensures base { (since : List (Entry M)) → self.old.history ≡ since ++ self.old.past
            → base_of L.CHUNK self.new.past ≡ next_base L.CHUNK (base_of L.CHUNK self.old.past) since }
    {
        self.past.add_all(&self.journal);
        self.journal.clear();
    }

    /// Returns the same board with another limit. All its entries must have been cut away.
    pub(crate) fn with_limit(mut self, limit: u64) -> Board<M, L>
        requires least { 1 ≤ limit }
        requires most { limit ≤ 2 ^ 32 }
        requires cut { self.past ≡ self.history }
        ensures history { result.history ≡ self.history }
        ensures past { result.past ≡ self.past }
        ensures limit { result.limit ≡ limit }
        ensures objects { result.objects ≡ self.objects }
    {
        self.limit = limit;
        self
    }

    /// Cuts the journal, and returns the entries that it had. The reserved memory goes with them.
    pub fn take_journal(&mut self) -> Vec<Entry<M>>
        ensures taken { reverse result.items ++ self.old.past ≡ self.old.history }
        ensures cut { Cuts self.old self.new }
    {
        self.past.add_all(&self.journal);
        mem::replace(&mut self.journal, Vec::new(self.alloc))
    }

    /// Says whether the journal has this answer's call and reply at the answer's position. It does for each answer of this
    /// board since the last cut. It does not for an answer from before the last cut.
    pub fn confirm(&self, answer: &Answer<M>) -> bool
        ensures { IsTrue result ↔ ((entries_in self.now.past ≤ answer.now.at) × IsNoted (reverse self.now.history) answer.now) }
    {
        let Some(at) = answer.at().checked_sub(self.past.count()) else {
            return false;
        };
        match self.journal.get(at as usize) {
            Some(entry) => { entry.call.same(answer.call()) && entry.reply.same(answer.reply()) }
            None => false,
        }
    }

    /// Reserves memory for `n` more entries. Until `n` calls are answered, a call fails with `NoMemory` only if it makes an
    /// object, fills a chunk, or shares a message whose `share` can fail. A `cut` keeps the reserved memory; a `take_journal`
    /// hands it over with the entries. If it fails, the board is unchanged.
    pub fn reserve(&mut self, n: usize) -> Result<(), AllocError>
        ensures kept { IsAsBefore self.old self.new }
        ensures reserved { OnOk result (n ≤ self.new.reserved) }
        ensures refused { OnErr result (self.old.reserved < n) }
    {
        self.journal.reserve(n)
    }

    /// Returns how many objects there are. Their names are the numbers below it.
    pub fn object_count(&self) -> u64
        ensures { result ≡ length (made self.now.history) }
    {
        self.objects.len() as u64
    }

    /// Returns the object's kind, or `None` if no object has this name.
    #[inline]
    pub fn kind(&self, name: Name) -> Option<Kind>
        ensures { result ≡ kind_of self.now.history name.0 }
    {
        match self.object(name)? {
            Object::Mailbox(_, _) => Some(Kind::Mailbox),
            Object::Channel(_) => Some(Kind::Channel),
            Object::Port(_) => Some(Kind::Port),
            Object::Variable(form, _) => Some(form.kind()),
        }
    }

    /// Returns how many messages were sent to a mailbox, or multicast on a channel. Returns `None` for any other name.
    pub fn sent_count(&self, name: Name) -> Option<u64>
        ensures { result ≡ sent_count self.now.history name.0 }
    {
        match self.object(name)? {
            Object::Mailbox(log, _) => Some(log.next()),
            Object::Channel(log) => Some(log.next()),
            Object::Port(_) | Object::Variable(_, _) => None,
        }
    }

    /// Returns how many messages were received from a mailbox or a port. Returns `None` for any other name.
    pub fn got_count(&self, name: Name) -> Option<u64>
        ensures { result ≡ got_count self.now.history name.0 }
    {
        match self.object(name)? {
            Object::Mailbox(log, key) => Some(log.place(*key)),
            Object::Channel(_) | Object::Variable(_, _) => None,
            Object::Port(port) => match port.reading {
                Reading::Open(key) => Some(self.log(port.channel).place(key) - port.start),
                Reading::Closed(received) => Some(received),
            },
        }
    }

    /// Returns how many messages wait in a mailbox, or are owed to an open port. Returns `None` for any other name.
    pub fn owed_count(&self, name: Name) -> Option<u64>
        ensures { result ≡ owed_count self.now.history name.0 }
    {
        let (source, key) = self.cursor(name)?;
        Some(self.log(source).owed(key))
    }

    /// Returns a port's channel. Returns `None` for any other name.
    pub fn channel_of(&self, name: Name) -> Option<Name>
        ensures { result ≡ channel_of self.now.history name.0 }
    {
        match self.object(name)? {
            Object::Mailbox(_, _) | Object::Channel(_) | Object::Variable(_, _) => None,
            Object::Port(port) => Some(port.channel),
        }
    }

    /// Returns how many messages were multicast on a port's channel before the first that the port receives. Returns `None`
    /// for any other name.
    pub fn start_of(&self, name: Name) -> Option<u64>
        ensures { result ≡ start_of self.now.history name.0 }
    {
        match self.object(name)? {
            Object::Mailbox(_, _) | Object::Channel(_) | Object::Variable(_, _) => None,
            Object::Port(port) => Some(port.start),
        }
    }

    /// Returns how many messages of a mailbox or a channel come before the first that is still kept. Returns `None` for any
    /// other name.
    pub fn first_of(&self, name: Name) -> Option<u64>
        ensures { result ≡ first_of L.CHUNK self.now.history name.0 }
    {
        match self.object(name)? {
            Object::Mailbox(log, _) => Some(log.first()),
            Object::Channel(log) => Some(log.first()),
            Object::Port(_) | Object::Variable(_, _) => None,
        }
    }

    /// Returns how many messages a mailbox or a channel still keeps. Returns `None` for any other name.
    pub fn kept_count(&self, name: Name) -> Option<u64>
        ensures { result ≡ kept_count L.CHUNK self.now.history name.0 }
    {
        match self.object(name)? {
            Object::Mailbox(log, _) => Some(log.next() - log.first()),
            Object::Channel(log) => Some(log.next() - log.first()),
            Object::Port(_) | Object::Variable(_, _) => None,
        }
    }

    /// Says whether a port is open. Returns `None` for any other name.
    pub fn is_open(&self, name: Name) -> Option<bool>
        ensures { result ≡ port_is_open self.now.history name.0 }
    {
        match self.object(name)? {
            Object::Mailbox(_, _) | Object::Channel(_) | Object::Variable(_, _) => None,
            Object::Port(port) => Some(matches!(port.reading, Reading::Open(_))),
        }
    }

    /// Returns what a variable holds: `Some(None)` if it is empty. Returns `None` for any other name.
    pub fn held(&self, name: Name) -> Option<Option<&M>>
        ensures { option_map option_copied result ≡ held_by self.now.history name.0 }
    {
        match self.object(name)? {
            Object::Mailbox(_, _) | Object::Channel(_) | Object::Port(_) => None,
            Object::Variable(_, held) => Some(held.as_ref()),
        }
    }

    /// Returns messages equal to those that wait in a mailbox or are owed to an open port, in the order in which they are
    /// received. Returns an empty list for any other name. Takes one step for each message that it returns, however many the
    /// board keeps.
    pub fn share_owed(&self, name: Name) -> Result<Vec<M>, AllocError>
        ensures { IfOk result (λ messages. messages.items ≡ owed_to self.now.history name.0) }
    {
        let Some(cursor) = self.cursor(name) else {
            return Ok(Vec::new(self.alloc));
        };
        let owed = self.log(cursor.0).lend_owed(self.alloc, cursor.1)?;
        share_each(self.alloc, &owed)
    }

    #[inline]
    fn object(&self, name: Name) -> Option<&Object<M, L>>
        ensures { MatchOption result (origin_of self.now.history name.0 ≡ None)
            (λ object. Stands L.CHUNK self.now name.0 (map_log L.log object.now)) }
    {
        self.objects.get(name.0 as usize)
    }

    /// Where a mailbox or an open port reads: the object with its log, and its cursor there.
    #[inline]
    fn cursor(&self, name: Name) -> Option<(Name, Key)>
        ensures { MatchOption result ((is_a is_receiver self.now.history name.0 && is_open self.now.history name.0) ≡ false)
            (λ cursor. ReadsAt self.now name.0 cursor.0.0 cursor.1) }
    {
        object::cursor_in(self.object(name)?, name)
    }

    #[inline]
    fn log(&self, source: Name) -> &L
        requires { HasLog self.now.objects source.0 }
        ensures { log_at self.now.objects source.0 ≡ Some (L.log result.now) }
    {
        log_at(&self.objects, source)
    }
}
