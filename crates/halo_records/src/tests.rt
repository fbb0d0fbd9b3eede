// How files fall into records and fields.
use crate::Records;
use csv::ByteRecord;
use std::rt::HostRuntime;

// How many records there are, and how many fields they have together.
fn counts(rt: &HostRuntime, bytes: &[u8]) -> Option<(usize, usize)> {
    let Ok(mut records) = Records::new(rt.alloc(), bytes) else {
        return None;
    };
    let mut record = ByteRecord::new(rt.alloc());
    let mut rows = 0;
    let mut fields = 0;
    for _ in 0..8 {
        match records.next(&mut record) {
            Ok(true) => {
                rows = usize::min(rows, 7) + 1;
                fields = usize::min(fields, 92) + usize::min(record.len(), 8);
            }
            Ok(false) => return Some((rows, fields)),
            Err(_) => return None,
        }
    }
    None
}

#[test]
fn shapes(rt: HostRuntime) {
    let cases: [(&[u8], (usize, usize)); 7] = [
        (b"", (0, 0)),
        (b"a,b\nc\n", (2, 3)),
        (b"a,b\r\n\r\nc", (2, 3)),
        (b"\"a,b\"\n", (1, 1)),
        (b"\xEF\xBB\xBF", (0, 0)),
        (b"\xEF\xBB\xBF\xEF\xBB\xBF", (0, 0)),
        (b"\xEF\xBB\xBF\xEF\xBB\xBF\xEF\xBB\xBF", (1, 1)),
    ];
    for (bytes, answer) in cases {
        assert!(rt; counts(&rt, bytes) == Some(answer));
    }
}
