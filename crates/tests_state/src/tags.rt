//! What no clause says: that the definitions are those of the standards' own examples.

use cal_model::{Etag, date_value};

/// The octets of the tag are by the program sha256sum.
#[test]
fn tags_are_of_the_octets(rt: HostRuntime) {
    let tag = b"ba7816bf8f01cfea414140de5dae2223b00361a396177a9cb410ff61f20015ad";
    assert!(rt; Etag::of(b"abc").0 == *tag);
}

/// The second date is the example of RFC 9110, 5.6.7.
#[test]
fn dates_are_written(rt: HostRuntime) {
    let rows: [(i64, &[u8]); 3] = [
        (0, b"Thu, 01 Jan 1970 00:00:00 GMT"),
        (784_111_777, b"Sun, 06 Nov 1994 08:49:37 GMT"),
        (253_402_300_799, b"Fri, 31 Dec 9999 23:59:59 GMT"),
    ];
    for (moment, text) in rows {
        assert!(rt; date_value(moment).as_slice() == text);
    }
}
