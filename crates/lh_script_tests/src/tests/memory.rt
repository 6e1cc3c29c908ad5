//! Memory that is refused: run with each request for it refused in turn, one in each run.

use lh_bucket::Call;
use lh_expect::expect_eq;
use lh_script::{Notation, ParseError, parse};
use std::test::Fail;

/// Room for calls is asked for more than once here. Where it is refused that is what is answered, and the same call
/// again reads the script.
#[test]
fn a_refused_script_is_read_again(rt: HostRuntime) -> Result<(), Fail> {
    let text = b"delete 61\ndelete 62\ndelete 63\ndelete 64\ndelete 65\n\
        delete 66\ndelete 67\ndelete 68\ndelete 69\n";
    let calls = match parse::<Call>(rt.alloc(), Notation::Hexadecimal, text.as_slice()) {
        Err(ParseError::Memory) => parse::<Call>(
            rt.alloc(),
            Notation::Hexadecimal,
            text.as_slice(),
        ),
        answer => answer,
    };
    expect_eq!(&rt, calls.map(|calls| calls.len()), Ok(9));
    Ok(())
}
