//! Tests of calls on a switchboard, whose board no clause shows, of a floor's feed, and of a log that is refused.
mod floors;
mod forms;
mod restoring;
mod scene;
mod steps;
mod tables;

use cml_log::{ChunkLog, MessageLog};
use scene::{expected, performed};
use std::process::Abort;
use std::test::Fail;
use tables::SCENES;

fn is_same(rt: &impl Abort, text: &str, expected: &str) {
    assert_eq!(rt; text, expected);
}

#[test]
fn plays_scenes(rt: HostRuntime) {
    for scene in SCENES.iter() {
        let told = performed(&rt, rt.alloc(), scene);
        is_same(&rt, told.as_str(), expected(rt.alloc(), scene).as_str());
    }
}

#[test]
fn restores_a_switchboard(rt: HostRuntime) {
    let text = restoring::told(&rt, rt.alloc());
    is_same(&rt, text.as_str(), restoring::TOLD);
}

/// A feed's end gives what is left of it.
#[test]
fn feeds_give_what_is_left(rt: HostRuntime) -> Result<(), Fail> {
    let is_given = floors::gives_what_was_pumped(rt.alloc())?;
    assert!(rt; is_given, "given otherwise");
    Ok(())
}

/// A log's chunks have 1 to 1,024 items.
#[test]
fn logs_of_other_chunks_are_refused(rt: HostRuntime) {
    let (few, many) = (
        ChunkLog::<u64, 0>::new(rt.alloc()),
        ChunkLog::<u64, 1025>::new(rt.alloc()),
    );
    assert!(rt; few.is_err() && many.is_err());
}
