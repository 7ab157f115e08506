//! Lines of scripts.

use dv_words::line::{LONGEST_LINE, line};
use dv_words::said::LineFault;
use std::alloc::Global;
use std::test::Fail;

fn is_refused(alloc: Global, text: &[u8]) -> bool {
    matches!(line(alloc, text), Err(LineFault::BadLine))
}

/// Lines that have none of the forms.
const BAD: &[&str] = &[
    " ", " # x", "0", "0 ", "end", "0 en", "0 ends", "0 end ", "0 END", "0  end", "1000 end",
    "00 end", "01 ff", "+1 ff", "-1 ff", "x ff", "7 0", "7 0aa", "7 0a a", "7 0 a0", "7 0a ",
    "7  0a", "7\t0a", "7 0a\tff", "7 0a\r", "7 0g", "7 0a # x",
];

#[test]
fn refuses_what_has_no_form(rt: HostRuntime) {
    for text in BAD {
        assert!(rt; is_refused(rt.alloc(), text.as_bytes()), "{text:?}");
    }
}

#[test]
fn refuses_lines_that_are_too_long(rt: HostRuntime) -> Result<(), Fail> {
    let mut text = vec![in rt.alloc(); b'#'; LONGEST_LINE]?;
    assert!(rt; line(rt.alloc(), text.as_slice()).is_ok());
    text.push(b'#')?;
    assert!(rt; is_refused(rt.alloc(), text.as_slice()));
    Ok(())
}
