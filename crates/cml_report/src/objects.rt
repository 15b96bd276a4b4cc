//! The objects that a script declares.
ghost use Rattle.std.specs.Prelude.{◌≡◌, false, slice_get, IfOk};
ghost use Rattle.std.specs.Option.{option_map_or};
ghost use Rattle.cml_report.specs.{is_object, is_feed, positions_where, AreMakers, AreLaid, AreObjects};

use crate::plan::{Plan, makes_feed, makes_object};
use cml_board::Who;
use cml_grammar::Script;
use std::alloc::{AllocError, Global};

/// The objects that a script declares, by their numbers, and its feeds.
#[derive(Drop)]
pub struct Objects {
    /// By object, who makes it.
    pub makers: Vec<Who>,
    /// By object, the position of its declaration.
    pub places: Vec<usize>,
    /// By feed, the position of its declaration.
    pub feeds: Vec<usize>,
    /// By object, whether a lane line leads to it.
    pub laid: Vec<bool>,
}

impl Objects {
    pub fn new(alloc: Global, plan: &Plan<'_>) -> Result<Objects, AllocError>
        ensures { IfOk result (AreObjects plan.now) }
    {
        let script = plan.script();
        let makers = list_makers(alloc, script)?;
        let places = list_places(alloc, script)?;
        let feeds = list_feeds(alloc, script)?;
        let laid = list_laid(alloc, plan)?;
        Ok(Objects {
            makers,
            places,
            feeds,
            laid,
        })
    }

    /// The position of the declaration of this object, if it is a declared one.
    pub fn place(&self, object: u64) -> Option<usize>
        ensures { result ≡ slice_get self.now.places.items object }
    {
        self.places.get(object as usize).copied()
    }

    /// The position of the declaration of this feed, if it is one.
    pub fn feed_place(&self, feed: u64) -> Option<usize>
        ensures { result ≡ slice_get self.now.feeds.items feed }
    {
        self.feeds.get(feed as usize).copied()
    }

    /// Whether a lane line leads to this object.
    pub fn is_laid(&self, object: u64) -> bool
        ensures { result ≡ option_map_or (λ t. t) (slice_get self.now.laid.items object) false }
    {
        self.laid.get(object as usize).copied().unwrap_or(false)
    }
}

/// By object, who makes it.
fn list_makers(alloc: Global, script: &Script) -> Result<Vec<Who>, AllocError>
    ensures { IfOk result (λ makers. AreMakers script.now makers.items) }
{
    let mut makers = Vec::new(alloc);
    let mut feeds = 0;
    for declaration in script.declarations() {
        if makes_feed(&declaration.makes) {
            makers.push(Who::Feed(feeds))?;
            feeds += 1;
        } else if makes_object(&declaration.makes) {
            makers.push(Who::Seat(0))?;
        }
    }
    Ok(makers)
}

/// By object, the position of its declaration.
fn list_places(alloc: Global, script: &Script) -> Result<Vec<usize>, AllocError>
    ensures { IfOk result (λ places. places.items ≡ positions_where (is_object script.now) 0 script.now.declarations) }
{
    let mut places = Vec::new(alloc);
    for (at, declaration) in script.declarations().iter().enumerate() {
        if makes_object(&declaration.makes) {
            places.push(at)?;
        }
    }
    Ok(places)
}

/// By feed, the position of its declaration.
fn list_feeds(alloc: Global, script: &Script) -> Result<Vec<usize>, AllocError>
    ensures { IfOk result (λ feeds. feeds.items ≡ positions_where (is_feed script.now) 0 script.now.declarations) }
{
    let mut feeds = Vec::new(alloc);
    for (at, declaration) in script.declarations().iter().enumerate() {
        if makes_feed(&declaration.makes) {
            feeds.push(at)?;
        }
    }
    Ok(feeds)
}

/// By object, whether a lane line leads to it.
fn list_laid(alloc: Global, plan: &Plan<'_>) -> Result<Vec<bool>, AllocError>
    ensures { IfOk result (λ laid. AreLaid plan.now laid.items) }
{
    let mut laid = vec![in alloc; false; plan.declared()]?;
    for lane in plan.script().lanes() {
        let object = plan.number(lane.target);
        laid[object.0 as usize] = true;
    }
    Ok(laid)
}
