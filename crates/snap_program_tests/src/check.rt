use crate::calls::{AMPLE, Answer, Devices, must_answer};
use std::test::Fail;

const READ_AND_WRITE: &[u8] = b"field srcport; array s; s[srcport] = 1 + s[srcport] <- 1";

const RACE: Answer<'static> = Answer {
    status: 10,
    out: b"",
    err: b"",
};

#[test]
fn a_race_that_cannot_be_told_is_answered(rt: HostRuntime) -> Result<(), Fail> {
    let untold = Devices {
        err_room: 0,
        ..AMPLE
    };
    let files: &[(&[u8], &[u8])] = &[(b"p", READ_AND_WRITE)];
    must_answer(&rt, rt.alloc(), &[b"check", b"p"], files, untold, RACE)
}
