//! Tests of scripts: verdicts on journals, a caller that records its calls, texts of endings, and the order of threads.
mod auditing;
mod caller;
mod endings;
mod flushing;
mod runs;

use std::process::Abort;

/// Compares a text with the expected one.
fn same(rt: &impl Abort, text: String, expected: &str, case: &str) {
    assert_eq!(rt; text.as_str(), expected, "{case}");
}
