//! Scripts, and bytes that are none.

use session_script::{MOST_BYTES, ScriptFault, ScriptQuery, queries};
use std::alloc::{AllocError, Global};
use std::test::Fail;

// How many queries a script has, and the last of them.
fn last_of<'a>(
    alloc: Global,
    script: &'a [u8],
) -> Result<(usize, Option<ScriptQuery<'a>>), ScriptFault> {
    queries(alloc, script).map(|queries| (queries.len(), queries.last().copied()))
}

// So many lines, each with its end.
fn lines_of(alloc: Global, line: &[u8], count: usize) -> Result<Vec<u8>, AllocError> {
    let mut bytes = Vec::new(alloc);
    for _ in 0..count {
        bytes.extend_from_slice(line)?;
        bytes.push(b'\n')?;
    }
    Ok(bytes)
}

#[test]
fn lines_are_numbered(rt: HostRuntime) -> Result<(), Fail> {
    let scripts: [(&[u8], usize, usize, &str); 8] = [
        (b"a", 1, 1, "a"),
        (b"a\n", 1, 1, "a"),
        (b"a\nb c", 2, 2, "b c"),
        (b"a\n\n \t\r\nb\n\n", 2, 4, "b"),
        (b"\n\na\n", 1, 3, "a"),
        (b"a\r\n b\r\n", 2, 2, " b\r"),
        (b"a\n;\n\x0b\n", 3, 3, "\x0b"),
        (b"a\n\xc3\xa9\r", 2, 2, "\u{e9}\r"),
    ];
    for (script, count, line, text) in scripts {
        assert_eq!(rt;
            last_of(rt.alloc(), script),
            Ok((count, Some(ScriptQuery { line, text })))
        );
    }
    Ok(())
}

#[test]
fn bytes_that_are_no_script(rt: HostRuntime) -> Result<(), Fail> {
    let wrong: [(&[u8], ScriptFault); 8] = [
        (b"", ScriptFault::NoQuery),
        (b"\n", ScriptFault::NoQuery),
        (b" \r\n\t\n\r", ScriptFault::NoQuery),
        (b"\xff", ScriptFault::NoText { at: 0 }),
        (b"a\n\x80", ScriptFault::NoText { at: 2 }),
        (b"\xc3\xa9\xe2\x82a", ScriptFault::NoText { at: 2 }),
        (b"a\xf0\x9f\x98", ScriptFault::NoText { at: 1 }),
        (b"\n\xed\xa0\x80", ScriptFault::NoText { at: 1 }),
    ];
    for (script, fault) in wrong {
        assert_eq!(rt; last_of(rt.alloc(), script), Err(fault));
    }
    Ok(())
}

#[test]
fn sixteen_queries_are_the_most(rt: HostRuntime) -> Result<(), Fail> {
    let mut script = lines_of(rt.alloc(), b"a", 16)?;
    let last = ScriptQuery {
        line: 16,
        text: "a",
    };
    assert_eq!(rt; last_of(rt.alloc(), &script), Ok((16, Some(last))));
    script.extend_from_slice(b" \nb")?;
    assert_eq!(rt;
        last_of(rt.alloc(), &script),
        Err(ScriptFault::TooMany { count: 17 })
    );
    Ok(())
}

#[test]
fn so_many_bytes_are_the_most(rt: HostRuntime) -> Result<(), Fail> {
    let mut script = lines_of(rt.alloc(), b"", MOST_BYTES - 1)?;
    script.push(b'a')?;
    let last = ScriptQuery {
        line: MOST_BYTES,
        text: "a",
    };
    assert_eq!(rt; last_of(rt.alloc(), &script), Ok((1, Some(last))));
    script.push(b'\xff')?;
    let fault = ScriptFault::TooLong { limit: 131_072 };
    assert_eq!(rt; last_of(rt.alloc(), &script), Err(fault));
    Ok(())
}
