//! Texts of numbers up to the last room of a buffer.

use daq_table::{NoRoom, TextBuf, number_text};

#[test]
fn numbers_to_the_last_room(rt: HostRuntime) {
    let mut out = TextBuf::new();
    assert_eq!(rt; number_text(-5, 2, &mut out), Ok(()));
    assert_eq!(rt; out.bytes(), b"-0.05".as_slice());
    assert_eq!(rt; out.push_bytes(&[b'.'; 630]), Ok(()));
    assert_eq!(rt; number_text(-5, 2, &mut out), Ok(()));
    assert_eq!(rt; out.bytes().len(), 640);
    assert_eq!(rt; number_text(7, 0, &mut out), Err(NoRoom));
    assert_eq!(rt; out.bytes().len(), 640);
}
