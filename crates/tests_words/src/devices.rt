//! Devices in memory that fail in mid-stream, and whole reads and writes over them.

use outer_world::{
    Failed, MemSink, MemSource, MemStore, ReadAllFault, ReadAtFault, Sink, Source, Store, read_all,
    read_exact_at, write_pieces, write_whole,
};
use std::test::Fail;

#[test]
fn source_fails_in_mid_stream(rt: HostRuntime) -> Result<(), Fail> {
    let alloc = rt.alloc();
    let mut source = MemSource::new(b"abcde".to_vec(alloc)?, 3, [1u64].to_vec(alloc)?);
    let mut buf = [b'.'; 4];
    assert_eq!(rt; source.read(&mut buf), Ok(3));
    assert_eq!(rt; buf, *b"abc.");
    assert_eq!(rt; source.read(&mut buf), Err(Failed));
    assert_eq!(rt; source.read(&mut buf), Ok(2));
    assert_eq!(rt; buf, *b"dec.");
    assert_eq!(rt; source.read(&mut buf), Ok(0));
    Ok(())
}

#[test]
fn store_fails_in_mid_stream(rt: HostRuntime) -> Result<(), Fail> {
    let alloc = rt.alloc();
    let bytes = b"abcde".to_vec(alloc)?;
    let mut store = MemStore::new(alloc, bytes, 2, [1u64].to_vec(alloc)?, 5)?;
    let mut buf = [b'.'; 4];
    assert_eq!(rt; store.size(), Ok(5));
    assert_eq!(rt; store.read_at(1, &mut buf), Err(Failed));
    assert_eq!(rt; store.read_at(1, &mut buf), Ok(2));
    assert_eq!(rt; buf, *b"bc..");
    assert_eq!(rt; store.read_at(5, &mut buf), Ok(0));
    assert_eq!(rt; store.read_at(4, &mut buf), Ok(1));
    assert_eq!(rt; buf, *b"ec..");
    assert_eq!(rt; store.size(), Err(Failed), "the record is full");
    Ok(())
}

#[test]
fn sink_fails_in_mid_stream(rt: HostRuntime) -> Result<(), Fail> {
    let alloc = rt.alloc();
    let mut sink = MemSink::with_room(alloc, 4, 3, [1u64].to_vec(alloc)?)?;
    assert_eq!(rt; sink.write(b"abcde"), Ok(3));
    assert_eq!(rt; sink.write(b"de"), Err(Failed));
    assert_eq!(rt; sink.write(b"de"), Ok(1));
    assert_eq!(rt; sink.write(b"e"), Err(Failed), "no room is left");
    assert_eq!(rt; sink.write(b""), Ok(0));
    assert_eq!(rt; sink.contents(), b"abcd".as_slice());
    Ok(())
}

#[test]
fn reads_all_up_to_the_limit(rt: HostRuntime) -> Result<(), Fail> {
    let alloc = rt.alloc();
    for piece in [1, 3] {
        assert!(rt; piece >= 1);
        let mut source = MemSource::new(b"abcde".to_vec(alloc)?, piece, Vec::new(alloc));
        let all = read_all(alloc, &mut source, 5)?;
        assert_eq!(rt; all.as_slice(), b"abcde".as_slice(), "by {piece}");
        let mut longer = MemSource::new(b"abcdef".to_vec(alloc)?, piece, Vec::new(alloc));
        let refused = read_all(alloc, &mut longer, 5).err();
        assert_eq!(rt;
            refused,
            Some(ReadAllFault::TooLong { limit: 5 }),
            "by {piece}"
        );
    }
    let mut broken = MemSource::new(b"abcde".to_vec(alloc)?, 3, [1u64].to_vec(alloc)?);
    assert_eq!(rt;
        read_all(alloc, &mut broken, 5).err(),
        Some(ReadAllFault::Fault)
    );
    assert_eq!(rt;
        read_all(alloc, &mut broken, 5)?.as_slice(),
        b"de".as_slice()
    );
    Ok(())
}

#[test]
fn writes_up_to_the_room(rt: HostRuntime) -> Result<(), Fail> {
    let alloc = rt.alloc();
    let mut sink = MemSink::with_room(alloc, 7, 3, [1u64].to_vec(alloc)?)?;
    assert_eq!(rt;
        write_whole(&mut sink, b"abcde"),
        Err(Failed),
        "a call fails"
    );
    assert_eq!(rt; write_whole(&mut sink, b"xy"), Ok(()));
    assert_eq!(rt;
        write_whole(&mut sink, b"12345"),
        Err(Failed),
        "the room ends"
    );
    assert_eq!(rt; sink.contents(), b"abcxy12".as_slice());
    Ok(())
}

#[test]
fn writes_pieces_up_to_the_room(rt: HostRuntime) -> Result<(), Fail> {
    let alloc = rt.alloc();
    let mut sink = MemSink::with_room(alloc, 7, 3, Vec::new(alloc))?;
    assert_eq!(rt; write_pieces(&mut sink, &[b"ab", b"", b"cd"]), Ok(()));
    assert_eq!(rt; write_pieces(&mut sink, &[b"12", b"34"]), Err(Failed));
    assert_eq!(rt; sink.contents(), b"abcd123".as_slice());
    Ok(())
}

#[test]
fn reads_short_at_the_end(rt: HostRuntime) -> Result<(), Fail> {
    let alloc = rt.alloc();
    let bytes = b"abcde".to_vec(alloc)?;
    let mut store = MemStore::new(alloc, bytes, 2, [6u64].to_vec(alloc)?, 9)?;
    let mut buf = [b'.'; 3];
    assert_eq!(rt; read_exact_at(&mut store, 1, &mut buf), Ok(()));
    assert_eq!(rt; buf, *b"bcd");
    let short = Err(ReadAtFault::Short { got: 2 });
    assert_eq!(rt; read_exact_at(&mut store, 3, &mut buf), short);
    assert_eq!(rt; buf, *b"ded");
    assert_eq!(rt; read_exact_at(&mut store, 9, &mut []), Ok(()));
    let none = Err(ReadAtFault::Short { got: 0 });
    assert_eq!(rt; read_exact_at(&mut store, 9, &mut buf), none);
    assert_eq!(rt;
        read_exact_at(&mut store, 0, &mut buf),
        Err(ReadAtFault::Fault)
    );
    Ok(())
}
