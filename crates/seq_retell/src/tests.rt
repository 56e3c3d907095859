use crate::{Kept, inputs_shown, retell};
use seq_flat::{End, Inputs, StepError, Waits};
use seq_io::PortState;
use seq_samples::one_line;
use seq_words::{Bytes, Entry, Items, Pid};
use std::alloc::Global;
use std::test::Fail;

const ENTRIES: [Entry; 5] = [
    Entry {
        pid: Pid(3),
        count: 8,
    },
    Entry {
        pid: Pid(4),
        count: 9,
    },
    Entry {
        pid: Pid(5),
        count: 10_000,
    },
    Entry {
        pid: Pid(6),
        count: 1,
    },
    Entry {
        pid: Pid(7),
        count: 1,
    },
];

#[test]
fn entries_beyond_the_room_are_passed_over(rt: HostRuntime) -> Result<(), Fail> {
    let mut kept = Kept::with_room(rt.alloc(), 2)?;
    for entry in ENTRIES {
        kept.keep_if_room(entry);
    }
    assert_eq!(rt; kept.entries(), [ENTRIES[0], ENTRIES[1]].as_slice());
    Ok(())
}

#[test]
fn ports_show_what_arrived(rt: HostRuntime) -> Result<(), Fail> {
    let alloc = rt.alloc();
    let port = PortState {
        taken: 1,
        arrived: 2,
        store: Bytes::copy_of(alloc, &[7, 8, 9, 0])?,
        closed: true,
    };
    let inputs = inputs_shown(alloc, &[port])?;
    let Some(input) = inputs.lines.as_slice().first() else {
        return Err(Fail::from("no line"));
    };
    assert_eq!(rt;
        (input.bytes.as_slice(), input.closed),
        ([7, 8].as_slice(), true)
    );
    Ok(())
}

// How process 0 stands after these steps. Its first word is no instruction.
fn end_after(alloc: Global, count: u32) -> Result<Result<End, StepError>, Fail> {
    let desc = one_line(alloc)?;
    let inputs = Inputs {
        lines: Items::new(alloc),
    };
    let entry = Entry { pid: Pid(0), count };
    Ok(match retell(alloc, &desc, &inputs, &[entry]) {
        Ok(flat) => Ok(flat.end(Pid(0))),
        Err(error) => Err(error),
    })
}

#[test]
fn histories_are_told_again(rt: HostRuntime) -> Result<(), Fail> {
    let alloc = rt.alloc();
    assert_eq!(rt; end_after(alloc, 0)?, Ok(End::Live));
    assert_eq!(rt; end_after(alloc, 1)?, Ok(End::Trapped(2, 0)));
    assert_eq!(rt; end_after(alloc, 2)?, Err(StepError::Waits(Waits::Ended)));
    Ok(())
}
