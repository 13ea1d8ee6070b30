//! Devices over files and streams: what a named file took is read back; and where there is none, a folder, or a file without a byte.

use outer_world::{Failed, Sink, Source, Store};
use std::test::Fail;
use std::{env, fs, process};
use system_devices::{FileSink, FileSource, FileStore};

#[test]
fn no_file_and_a_directory_fail_at_each_read(rt: HostRuntime) {
    for path in ["no such file", "/"] {
        let mut source = FileSource::open(&rt, path);
        let mut buf = [0u8; 4];
        assert_eq!(rt; source.read(&mut buf), Err(Failed));
        assert_eq!(rt; source.read(&mut buf), Err(Failed));
    }
}

#[test]
fn an_empty_file_ends_at_once(rt: HostRuntime) {
    let mut source = FileSource::open(&rt, "/dev/null");
    let mut store = FileStore::open(&rt, "/dev/null");
    let mut buf = [0u8; 4];
    assert_eq!(rt; source.read(&mut buf), Ok(0));
    assert_eq!(rt; store.size(), Ok(0));
    assert_eq!(rt; store.read_at(0, &mut buf), Ok(0));
}

#[test]
fn where_there_is_no_file_each_call_fails(rt: HostRuntime) {
    let mut source = FileSource::closed();
    let mut store = FileStore::closed();
    let mut nowhere = FileSink::closed();
    let mut buf = [0u8; 4];
    assert_eq!(rt; source.read(&mut buf), Err(Failed));
    assert_eq!(rt; store.size(), Err(Failed));
    assert_eq!(rt; store.read_at(0, &mut buf), Err(Failed));
    assert_eq!(rt; nowhere.write(b"one\n"), Err(Failed));
}

#[test]
fn a_stream_takes_a_piece(rt: HostRuntime) -> Result<(), Fail> {
    let mut out = FileSink::out(&rt)?;
    assert_eq!(rt; out.write(b"one"), Ok(3));
    assert_eq!(rt; out.write(b"\n"), Ok(1));
    Ok(())
}

#[test]
fn what_a_named_file_takes_is_read_back(rt: HostRuntime) -> Result<(), Fail> {
    let name = format!(in rt.alloc(); "daq-test-{}", process::id(rt.process()))?;
    let path = env::temp_dir(&rt)?.join(rt.alloc(), name.as_str())?;
    let mut sink = FileSink::named(&rt, path.as_str(), "")?;
    let taken = [sink.write(b"three "), sink.write(b""), sink.write(b"words")];
    let before = FileStore::open(&rt, path.as_str()).size();
    assert_eq!(rt; [before.is_err(), sink.finish().is_ok()], [true, true]);
    let mut store = FileStore::open(&rt, path.as_str());
    let mut source = FileSource::open(&rt, path.as_str());
    fs::remove_file(&rt, path.as_path())?;
    assert_eq!(rt; taken, [Ok(6), Ok(0), Ok(5)]);
    let mut buf = [0u8; 8];
    assert_eq!(rt; store.size(), Ok(11));
    assert_eq!(rt; store.read_at(2, &mut buf), Ok(8));
    assert_eq!(rt; &buf, b"ree word");
    assert_eq!(rt; store.read_at(9, &mut buf), Ok(2));
    assert_eq!(rt; &buf, b"dse word");
    assert_eq!(rt; store.read_at(11, &mut buf), Ok(0));
    assert_eq!(rt;
        [source.read(&mut buf), source.read(&mut buf)],
        [Ok(8), Ok(3)]
    );
    assert_eq!(rt; &buf, b"rdsee wo");
    assert_eq!(rt; source.read(&mut buf), Ok(0));
    Ok(())
}

#[test]
fn a_piece_without_a_byte_makes_no_file(rt: HostRuntime) -> Result<(), Fail> {
    let mut sink = FileSink::named(&rt, "no such folder/made", "")?;
    assert_eq!(rt; sink.write(b""), Ok(0));
    assert_eq!(rt; sink.write(b"one"), Err(Failed));
    Ok(())
}

// The path of a file of this test, which holds these bytes.
fn old_file(rt: &HostRuntime, test: &str, bytes: &[u8]) -> Result<String, Fail> {
    let name = format!(in rt.alloc(); "daq-{test}-{}", process::id(rt.process()))?;
    let path = env::temp_dir(rt)?.join(rt.alloc(), name.as_str())?;
    fs::write(rt, path.as_path(), bytes)?;
    Ok(String::from_str(rt.alloc(), path.as_str())?)
}

#[test]
fn an_old_file_stands_until_the_new_one_is_whole(rt: HostRuntime) -> Result<(), Fail> {
    let path = old_file(&rt, "stands", b"the old")?;
    let mut sink = FileSink::named(&rt, path.as_str(), "")?;
    let taken = sink.write(b"new");
    let before = fs::read(&rt, path.as_str())?;
    let kept = sink.finish();
    let after = fs::read(&rt, path.as_str())?;
    fs::remove_file(&rt, path.as_str())?;
    assert_eq!(rt; (taken, kept), (Ok(3), Ok(())));
    assert_eq!(rt;
        (before.as_slice(), after.as_slice()),
        (&b"the old"[..], &b"new"[..])
    );
    assert_eq!(rt; sink.write(b"more"), Err(Failed));
    Ok(())
}

#[test]
fn a_new_file_that_is_given_up_leaves_the_old_one(rt: HostRuntime) -> Result<(), Fail> {
    let path = old_file(&rt, "given-up", b"the old")?;
    let mut sink = FileSink::named(&rt, path.as_str(), "")?;
    let taken = sink.write(b"new");
    sink.give_up();
    let after = fs::read(&rt, path.as_str())?;
    fs::remove_file(&rt, path.as_str())?;
    assert_eq!(rt; taken, Ok(3));
    assert_eq!(rt; after.as_slice(), &b"the old"[..]);
    Ok(())
}

#[test]
fn the_file_that_is_read_is_not_made_anew(rt: HostRuntime) -> Result<(), Fail> {
    let path = old_file(&rt, "read", b"the old")?;
    let mut sink = FileSink::named(&rt, path.as_str(), path.as_str())?;
    let taken = sink.write(b"new");
    fs::remove_file(&rt, path.as_str())?;
    assert_eq!(rt; taken, Err(Failed));
    assert_eq!(rt; sink.trouble().is_some(), true);
    Ok(())
}

#[test]
fn a_held_line_is_handed_out(rt: HostRuntime) -> Result<(), Fail> {
    let mut sink = FileSink::held(rt.alloc())?;
    assert_eq!(rt;
        [sink.write(b"one "), sink.write(b"line\n")],
        [Ok(4), Ok(5)]
    );
    assert_eq!(rt; sink.held_bytes(), &b"one line\n"[..]);
    Ok(())
}
