//! A run that is traced instruction by instruction.

use crate::same::same;
use bpfvm::{Executed, Stored, read_listing, trace};

#[test]
fn a_run_is_traced(rt: HostRuntime) {
    let program = read_listing(b"3\n40 0 0 0\n2 0 0 3\n6 0 0 1\n").expect(&rt, "a program");
    let run = trace(rt.alloc(), &program, &[1, 2], 2).expect(&rt, "there is memory");
    same(&rt, run.answer, 1);
    same(&rt, run.executed.len(), 3);
    let store = Executed {
        place: 1,
        accumulator: 258,
        index: 0,
        stored: Some(Stored {
            cell: 3,
            value: 258,
        }),
    };
    same(&rt, run.executed.get(1).copied(), Some(store));
}
