//! Tests of `vc_lines`: context lines.

use std::test::Fail;
use vc_context::{AnyLabels, Weights};
use vc_lines::{HeadFault, daut_context};

#[test]
fn context_lines_are_read(rt: HostRuntime) -> Result<(), Fail> {
    for text in [
        b"context = \"lal_char(ab), z\"".as_slice(),
        b"\n # first\n context=lal_char(ab) , z// last\n0",
        b"context = \"[\\#\\\"], z\" # x\n",
        b"context = [\\/\\#] , z\n",
    ] {
        let context = daut_context(text).ok().ok_or("no context")?;
        assert!(rt; context.weights == Weights::Z);
        assert!(rt; matches!(context.labels, AnyLabels::Letters(_)));
    }
    for (text, line) in [
        (b"".as_slice(), 1),
        (b"\n# one\n", 2),
        (b"\ncontext = \"lal_char(ab), z", 2),
        (b"context \"lal_char(ab), z\"", 1),
        (b"context = \"lal_char(ab), z\" 0", 1),
        (b"contexts = \"lal_char(ab), z\"", 1),
    ] {
        assert!(rt; matches!(daut_context(text), Err(HeadFault::Syntax { line: n }) if n == line));
    }
    Ok(())
}
