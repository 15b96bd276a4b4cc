//! The status and the text of each ending.
use super::same;
use cml_script::{Ending, Fault, What, status_of};
use std::test::Fail;

const BAD_NAME: Ending = Ending::Fault(Fault {
    line: 3,
    what: What::BadName,
});

const TOO_LONG: Ending = Ending::Fault(Fault {
    line: 0,
    what: What::TooLong,
});

/// No run ends so: it has no memory then.
const MEMORY: Ending = Ending::Fault(Fault {
    line: 0,
    what: What::Memory,
});

const ENDINGS: &[(Ending, &str)] = &[
    (Ending::Done, "0 cml: done"),
    (Ending::Stalled, "1 cml: stalled"),
    (Ending::Held, "1 cml: held"),
    (BAD_NAME, "2 script: line 3: bad name"),
    (TOO_LONG, "2 script: too long"),
    (MEMORY, "2 script: no memory"),
    (Ending::ReadFault, "4 cml: read failed"),
    (Ending::WriteFault, "4 cml: write failed"),
    (Ending::NoMemory, "5 cml: no memory"),
    (Ending::Full, "6 cml: full"),
    (Ending::NotLawful(17), "7 cml: not lawful at 17"),
];

#[test]
fn has_a_status_and_a_text_for_each_ending(rt: HostRuntime) -> Result<(), Fail> {
    for (ending, expected) in ENDINGS.iter() {
        let status = status_of(ending);
        let text = format!(in rt.alloc(); "{status} {ending}")?;
        same(&rt, text, expected, "an ending");
    }
    Ok(())
}
