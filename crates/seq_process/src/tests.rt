// Contexts loaded and saved.
use crate::{load, next_cursor, save};
use seq_flat::End;
use seq_layout::Context;
use seq_words::{Half, Pid, Regs};

// A context with every field set, of a process that stands like this.
fn context(end: u8, value: u32, end_pc: u32) -> Context {
    let mut x = [7; 32];
    x[0] = 0;
    Context {
        regs: Regs { x, pc: 0x40 },
        end,
        value,
        end_pc,
        held: 0b101,
        commits: 9,
        reads: [1, 2, 3, 4],
        writes: [5, 6, 7, 8],
    }
}

#[test]
fn a_context_comes_back_with_one_commit_more(rt: HostRuntime) {
    for (end, value, end_pc, wanted) in [
        (0, 0, 0, End::Live),
        (1, 300, 0, End::Exited(300)),
        (2, 7, 0x44, End::Trapped(7, 0x44)),
    ] {
        let before = context(end, value, end_pc);
        if seq_layout::is_context(&before) && (before.end != 2 || before.value <= 255) {
            let mut running = load(Pid(2), &before);
            assert!(rt; running.pid == Pid(2) && running.steps == 0 && running.used == 0);
            assert_eq!(rt; running.end, wanted);
            if running.commits < 10 {
                let after = save(&running);
                assert!(rt; after.is_some_and(|c| c.commits == 10 && c.held == 5));
                assert!(rt;
                    after.is_some_and(|c| (c.end, c.value, c.end_pc) == (end, value, end_pc))
                );
                assert!(rt;
                    after.is_some_and(|c| c.reads == before.reads && c.writes == before.writes)
                );
                if running.pair.struck.is_none() {
                    running.pair.strike(Half::B, 31, 1);
                    assert!(rt; save(&running).is_none());
                }
            }
        } else {
            assert!(rt; false);
        }
    }
}

#[test]
fn the_cursor_goes_round(rt: HostRuntime) {
    for (at, next) in [(0, 1), (1, 2), (2, 0)] {
        if at < 3 {
            assert_eq!(rt; next_cursor(at, 3), next);
        }
    }
}
