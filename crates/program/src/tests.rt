// What no clause says of work that is a closure: it is done once the program was called rightly, and may keep the program; else it is not done.
use crate::{About, End, NO_ARGUMENT, run};

#[test]
fn does_a_closure(rt: HostRuntime) {
    let mut kept = None;
    let about = About {
        name: "rightly",
        most: usize::MAX,
        ..NO_ARGUMENT
    };
    run(&rt, about, |program| {
        kept = Some(program);
        Ok(End::Accepted)
    });
    assert!(rt; kept.is_some());
}

#[test]
fn leaves_a_closure_undone(rt: HostRuntime) {
    let mut done = false;
    let about = About {
        name: "wrongly",
        fewest: usize::MAX,
        most: usize::MAX,
        missing: "it takes more arguments than there are",
        usage: "wrongly ARGUMENT..",
        ..NO_ARGUMENT
    };
    run(&rt, about, |_| {
        done = true;
        Ok(End::Accepted)
    });
    assert!(rt; !done);
}
