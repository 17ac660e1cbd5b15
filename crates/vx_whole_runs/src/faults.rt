//! What is printed of a fault that no small run makes, and its status.

use std::test::Fail;
use vx_cli::{Fault, fault_text};
use vx_value::Bytes;

#[test]
fn numbers_that_are_used_up(rt: HostRuntime) -> Result<(), Fail> {
    let fault = Fault::Numbers {
        next: 9_223_372_036_854_775_807,
        wanted: 20,
    };
    let text = b"> vector: copy numbers are used up: next 9223372036854775807, wanted 20\n";
    let mut out = Bytes::copy_of(rt.alloc(), b"> ")?;
    fault_text(rt.alloc(), &fault, &mut out)?;
    assert_eq!(rt; out.as_slice(), text.as_slice());
    assert_eq!(rt; fault.status(), 70);
    Ok(())
}
