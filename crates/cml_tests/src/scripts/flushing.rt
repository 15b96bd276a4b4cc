//! A report that is written whole, and then not flushed.
use cml_script::{Ending, replay};
use std::io::{self, ErrorKind, Write};

const SCRIPT: &str = "cml 1\nmailbox m\nthread A\nA send m 5\n";

const REPORT: &str = "A send m 5: done\nmailbox m: sent 1 got 0 waits 1\nend: done 1\n";

/// Takes all that is written, and fails at a flush.
#[derive(Drop)]
struct Unflushed {
    got: Vec<u8>,
}

impl Write for Unflushed {
    fn write(&mut self, buf: &[u8]) -> io::Result<usize> {
        self.got.extend_from_slice(buf)?;
        Ok(buf.len())
    }

    fn flush(&mut self) -> io::Result<()> {
        Err(ErrorKind::BrokenPipe.into())
    }
}

#[test]
fn tells_a_flush_that_fails(rt: HostRuntime) {
    let mut reader = SCRIPT.as_bytes();
    let mut writer = Unflushed {
        got: Vec::new(rt.alloc()),
    };
    let ended = replay(rt.alloc(), &mut reader, &mut writer, 65_536);
    assert!(rt; ended == Ending::WriteFault && writer.got.as_slice() == REPORT.as_bytes());
}
