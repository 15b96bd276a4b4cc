//! Journals against a script: lawful ones of it, foreign entries, and what isn't lawful.
use Verdict::{Foreign, Lawful, Unlawful};
use cml_board::{Ask, Call, Entry, Give, Make, Name, Reply, Text, Who};
use cml_script::{Verdict, audit, read_script};
use std::alloc::Global;
use std::process::Abort;

/// The script, a journal that it judges, and the verdict. An entry has its seat, lane or feed, the words of its call with the
/// numbers of objects, and its reply.
type Case = (&'static str, &'static [&'static str], Verdict);

const MESSAGE: &str = "cml 1\nmailbox m\nthread A\nthread B\nA send m 5\nB recv m\nB poll m\n";

const CLOSED: &str =
    "cml 1\nchannel c\nport c o\nthread A\nA port c p\nA close p\nA copy p q\nA poll q\n";

const TWO: &str = "cml 1\nmailbox m\nthread A\nthread B\nA send m 1\nA send m 2\nB send m 3\n";

const WORDS: &str = "cml 2\nmvar v 05\nthread A\nA swap v =5\nA swap v 05\n";

const MADE: &str = "0 mailbox: made 0";

const SENT: &str = "1 send 0 5: done";

const GOT: &str = "2 recv 0: 5";

const POLLED: &str = "2 poll 0: none";

const CASES: &[Case] = &[
    (MESSAGE, &[], Lawful),
    (MESSAGE, &[MADE, SENT], Lawful),
    (MESSAGE, &[MADE, SENT, GOT, POLLED], Lawful),
    // Another seat, one without a thread, and seat 0 after the declarations.
    (MESSAGE, &[MADE, SENT, "1 recv 0: 5"], Foreign(2)),
    (MESSAGE, &[MADE, "9 send 0 5: done"], Foreign(1)),
    (MESSAGE, &[MADE, "65 send 0 5: done"], Foreign(1)),
    (MESSAGE, &[MADE, "0 send 0 5: done"], Foreign(1)),
    // A lane and a feed that the script doesn't have.
    (MESSAGE, &[MADE, "lane0 send 0 5: done"], Foreign(1)),
    (MESSAGE, &[MADE, "lane1 send 0 5: done"], Foreign(1)),
    (MESSAGE, &[MADE, "feed0 send 0 5: done"], Foreign(1)),
    // Another maker, one object too many, and another object.
    (MESSAGE, &["1 mailbox: made 0"], Foreign(0)),
    (MESSAGE, &[MADE, "0 mailbox: made 1"], Foreign(1)),
    (MESSAGE, &["0 channel: made 0"], Foreign(0)),
    // Another message, another word for the number, another call, and a step too many.
    (MESSAGE, &[MADE, "1 send 0 6: done"], Foreign(1)),
    (MESSAGE, &[MADE, "1 send 0 05: done"], Foreign(1)),
    (MESSAGE, &[MADE, "1 poll 0: none"], Foreign(1)),
    (MESSAGE, &[MADE, SENT, GOT, POLLED, POLLED], Foreign(4)),
    // Another reply, a call that would wait, and a name that isn't made. That is looked for first.
    (MESSAGE, &[MADE, SENT, "2 recv 0: 6"], Unlawful(2)),
    (MESSAGE, &[MADE, GOT], Unlawful(1)),
    (MESSAGE, &[MADE, "1 send 1 5: done"], Unlawful(1)),
    (
        MESSAGE,
        &[MADE, "9 send 0 5: done", "2 recv 0: 6"],
        Unlawful(2),
    ),
    // The name of a copy of a closed port stands for that port, and for no other.
    (
        CLOSED,
        &[
            "0 channel: made 0",
            "0 port 0: made 1",
            "1 port 0: made 2",
            "1 close 2: done",
            "1 copy 2: closed",
            "1 poll 2: closed",
        ],
        Lawful,
    ),
    (
        CLOSED,
        &[
            "0 channel: made 0",
            "0 port 0: made 1",
            "1 port 0: made 2",
            "1 close 2: done",
            "1 copy 2: closed",
            "1 poll 1: none",
        ],
        Foreign(5),
    ),
    // Another order of the threads, and another order of one.
    (
        TWO,
        &[
            MADE,
            "2 send 0 3: done",
            "1 send 0 1: done",
            "1 send 0 2: done",
        ],
        Lawful,
    ),
    (TWO, &[MADE, "1 send 0 2: done"], Foreign(1)),
    // The script's words, another first word, another in a step, and another in a reply.
    (
        WORDS,
        &["0 mvar 05: made 0", "1 swap 0 =5: 05", "1 swap 0 05: =5"],
        Lawful,
    ),
    (WORDS, &["0 mvar 5: made 0", "1 swap 0 =5: 5"], Foreign(0)),
    (
        WORDS,
        &["0 mvar 05: made 0", "1 swap 0 =5: 05", "1 swap 0 5: =5"],
        Foreign(2),
    ),
    (
        WORDS,
        &["0 mvar 05: made 0", "1 swap 0 =5: 05", "1 swap 0 05: 5"],
        Unlawful(2),
    ),
];

fn text(alloc: Global, word: &str) -> Option<Text> {
    Text::from_bytes(alloc, word.as_bytes()).ok()?.ok()
}

fn who(word: &str) -> Option<Who> {
    if let Some(number) = word.strip_prefix("lane") {
        return Some(Who::Lane(number.parse().ok()?));
    }
    if let Some(number) = word.strip_prefix("feed") {
        return Some(Who::Feed(number.parse().ok()?));
    }
    Some(Who::Seat(word.parse().ok()?))
}

fn call(alloc: Global, words: &[&str]) -> Option<Call<Text>> {
    let (word, rest) = words.split_first()?;
    if let Some(make) = Make::of_word(word) {
        return making(alloc, make, rest);
    }
    let name = Name(rest.first()?.parse().ok()?);
    if let Some(give) = Give::of_word(word) {
        return Some(Call::give(give, name, text(alloc, rest.get(1)?)?));
    }
    Some(Call::ask(Ask::of_word(word)?, name))
}

/// The call that makes an object, which holds the word after it, if there is one.
fn making(alloc: Global, make: Make, rest: &[&str]) -> Option<Call<Text>> {
    match rest.first() {
        Some(word) => Some(Call::MVarInit(text(alloc, word)?)),
        None => Some(Call::make(make)),
    }
}

fn reply(alloc: Global, word: &str) -> Option<Reply<Text>> {
    match word {
        "done" => Some(Reply::Done),
        "none" => Some(Reply::Nothing),
        "closed" => Some(Reply::Closed),
        _ => match word.strip_prefix("made ") {
            Some(name) => Some(Reply::Made(Name(name.parse().ok()?))),
            None => Some(Reply::Got(text(alloc, word)?)),
        },
    }
}

fn entry(alloc: Global, line: &str) -> Option<Entry<Text>> {
    let (asked, replied) = line.split_once(": ")?;
    let words = asked.split(' ').collect::<Vec<&str>>(alloc).ok()?;
    let (first, rest) = words.split_first()?;
    let who = who(first)?;
    let reply = reply(alloc, replied)?;
    let call = call(alloc, rest)?;
    Some(Entry { who, call, reply })
}

/// The entries of a journal, or `None` if memory runs out or a line is none.
fn entries(alloc: Global, journal: &[&str]) -> Option<Vec<Entry<Text>>> {
    let mut entries = Vec::new(alloc);
    for line in journal.iter() {
        entries.push(entry(alloc, line)?).ok()?;
    }
    Some(entries)
}

/// The verdict on a short journal.
fn audited(alloc: Global, script: &str, entries: &[Entry<Text>]) -> Option<Verdict> {
    if entries.len() > 16 {
        return None;
    }
    let script = read_script(alloc, script.as_bytes()).ok()?;
    audit(alloc, &script, entries).ok()
}

fn judged(alloc: Global, script: &str, journal: &[&str]) -> Option<Verdict> {
    let entries = entries(alloc, journal)?;
    audited(alloc, script, entries.as_slice())
}

fn judge(rt: &(impl Abort + AllocGlobal), case: &Case) {
    let (script, journal, expected) = case;
    let verdict = judged(rt.alloc(), script, journal);
    assert_eq!(rt; verdict, Some(*expected), "{journal:?}");
}

#[test]
fn judges_journals(rt: HostRuntime) {
    for case in CASES.iter() {
        judge(&rt, case);
    }
}
