use crate::calls::{AMPLE, Answer, Devices, must_answer};
use std::test::Fail;

#[test]
fn demo_tells_a_failed_write(rt: HostRuntime) -> Result<(), Fail> {
    let devices = Devices {
        write_most: 16,
        write_fails: &[1],
        ..AMPLE
    };
    let cut = Answer {
        status: 3,
        out: b"demo 3\nswitches ",
        err: b"snapc: cannot write\n",
    };
    must_answer(&rt, rt.alloc(), &[b"demo", b"3"], &[], devices, cut)
}
