//! The links between the members of a queue, and a queue's two ends.
ghost use Rattle.std.specs.Prelude.{◌≡◌, ◌<◌, length, slice_get, IfSome};
ghost use Rattle.cml_room.specs.Links.{next_in, previous_in, next_set, previous_set, end_set, appended, ends_appended, joined, ends_joined};

/// The numbers before and after a member of a queue. It says nothing of a number that is in no queue.
#[derive(Clone, Copy)]
pub(crate) struct Link {
    pub(crate) previous: Option<u64>,
    pub(crate) next: Option<u64>,
}

#[derive(Clone, Copy)]
pub(crate) struct Ends {
    pub(crate) first: Option<u64>,
    pub(crate) last: Option<u64>,
}

// Lets the number at `at` lead to `next`, or where there is none lets the queue begin there.
pub(crate) fn set_next(links: &mut [Link], ends: &mut Ends, at: Option<u64>, next: Option<u64>)
    requires { IfSome at (λ number. number < length links.old) }
    ensures links { links.new ≡ next_set links.old at next }
    ensures first { ends.new.first ≡ end_set ends.old.first at next }
    ensures last { ends.new.last ≡ ends.old.last }
{
    match at {
        None => ends.first = next,
        Some(number) => links[number as usize].next = next,
    }
}

// Lets the number at `at` come after `previous`, or where there is none lets the queue end there.
pub(crate) fn set_previous(
    links: &mut [Link],
    ends: &mut Ends,
    at: Option<u64>,
    previous: Option<u64>,
)
    requires { IfSome at (λ number. number < length links.old) }
    ensures links { links.new ≡ previous_set links.old at previous }
    ensures first { ends.new.first ≡ ends.old.first }
    ensures last { ends.new.last ≡ end_set ends.old.last at previous }
{
    match at {
        None => ends.last = previous,
        Some(number) => links[number as usize].previous = previous,
    }
}

/// The number goes to the end of the queue between `ends`.
pub(crate) fn append(links: &mut [Link], ends: &mut Ends, number: u64)
    requires number { number < length links.old }
    requires last { IfSome ends.old.last (λ last. last < length links.old) }
    ensures links { links.new ≡ appended links.old ends.old number }
    ensures ends { ends.new ≡ ends_appended ends.old number }
{
    let last = ends.last;
    links[number as usize] = Link {
        previous: last,
        next: None,
    };
    set_next(links, ends, last, Some(number));
    ends.last = Some(number);
}

/// The number leaves the queue between `ends`, which it is a member of.
pub(crate) fn unlink(links: &mut [Link], ends: &mut Ends, number: u64)
    requires number { number < length links.old }
    requires previous { IfSome (previous_in (slice_get links.old number)) (λ previous. previous < length links.old) }
    requires next { IfSome (next_in (slice_get links.old number)) (λ next. next < length links.old) }
    ensures links { links.new ≡ joined links.old (slice_get links.old number) }
    ensures ends { ends.new ≡ ends_joined ends.old (slice_get links.old number) }
{
    let Link { previous, next } = links[number as usize];
    set_next(links, ends, previous, next);
    set_previous(links, ends, next, previous);
}
