use crate::calls::{AMPLE, Answer, Devices, must_answer};
use std::test::Fail;

const WORDS: &[&[u8]] = &[b"routes", b"t"];

const SQUARE: &[u8] = b"switches = [\"s1\", \"s2\", \"s3\", \"s4\"]
links = [[\"s1\", \"s2\"], [\"s1\", \"s3\"], [\"s2\", \"s4\"], [\"s3\", \"s4\"]]
[ports]
1 = \"s1\"
2 = \"s1\"
3 = \"s2\"
4 = \"s2\"
5 = \"s3\"
6 = \"s4\"
";

const SQUARE_ROUTES: &[u8] = b"route s1 s2 1 s2
route s1 s3 1 s3
route s1 s4 2 s2
route s2 s1 1 s1
route s2 s3 2 s1
route s2 s4 1 s4
route s3 s1 1 s1
route s3 s2 2 s1
route s3 s4 1 s4
route s4 s1 2 s2
route s4 s2 1 s2
route s4 s3 1 s3
diameter 2
end
";

const FILES: &[(&[u8], &[u8])] = &[(b"t", SQUARE)];

#[test]
fn routes_of_a_square_are_written(rt: HostRuntime) -> Result<(), Fail> {
    let whole = Answer {
        status: 0,
        out: SQUARE_ROUTES,
        err: b"",
    };
    must_answer(&rt, rt.alloc(), WORDS, FILES, AMPLE, whole)
}

#[test]
fn routes_stop_where_a_device_fails(rt: HostRuntime) -> Result<(), Fail> {
    // Each line from s1 has 17 bytes.
    let devices = Devices {
        write_most: 17,
        write_fails: &[2],
        ..AMPLE
    };
    let cut = Answer {
        status: 3,
        out: b"route s1 s2 1 s2\nroute s1 s3 1 s3\n",
        err: b"snapc: cannot write\n",
    };
    must_answer(&rt, rt.alloc(), WORDS, FILES, devices, cut)
}
