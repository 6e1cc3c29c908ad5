//! Memory that is refused: run with each request for it refused in turn, one in each run.

use lh_exchange::{ExchangeError, read_records};
use lh_expect::expect_eq;
use std::test::Fail;

/// Room for records is asked for more than once here. Where it is refused that is what is answered, and the same call
/// again reads the stream.
#[test]
fn a_refused_stream_is_read_again(rt: HostRuntime) -> Result<(), Fail> {
    let bytes = b"+1,0:a->\n+1,0:b->\n+1,0:c->\n+1,0:d->\n+1,0:e->\n\
        +1,0:f->\n+1,0:g->\n+1,0:h->\n+1,0:i->\n\n";
    let pairs = match read_records(rt.alloc(), bytes.as_slice()) {
        Err(ExchangeError::Memory) => read_records(rt.alloc(), bytes.as_slice()),
        answer => answer,
    };
    expect_eq!(&rt, pairs.map(|pairs| pairs.len()), Ok(9));
    Ok(())
}
