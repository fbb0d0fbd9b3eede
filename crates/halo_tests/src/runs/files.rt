// Files with bytes that are odd and files that are cut off.
use super::{CONTRACT, REPORT, TABLES, assert_files};
use std::test::Fail;

#[test]
fn odd_bytes_and_cut_files(rt: HostRuntime) -> Result<(), Fail> {
    let alloc = rt.alloc();
    // The two files, the status, and the text.
    let rows: [(&str, &[u8], &[u8], u8, &[u8]); 9] = [
        (
            "byte-order mark, carriage returns and quotes",
            b"\xef\xbb\xbftable,age,l,death\r\nm,60,4,2\r\n\"m\",\"61\",2,1\r\nm,62,1,1\r\n",
            CONTRACT,
            0,
            REPORT,
        ),
        (
            "a zero byte in a tables file",
            b"table,age,l,death\nm,60,4,2\nm,61,2\0,1\nm,62,1,1\n",
            CONTRACT,
            5,
            b"tables record 3 Number\n",
        ),
        (
            "a tables file without its last line feed",
            b"table,age,l,death\nm,60,4,2\nm,61,2,1\nm,62,1,1",
            CONTRACT,
            0,
            REPORT,
        ),
        (
            "a tables file cut within its last record",
            b"table,age,l,death\nm,60,4,2\nm,61,2,1\nm,62,1",
            CONTRACT,
            5,
            b"tables record 4 Fields\n",
        ),
        (
            "a tables file cut before its last record",
            b"table,age,l,death\nm,60,4,2\nm,61,2,1\n",
            CONTRACT,
            5,
            b"tables record 3 Closed\n",
        ),
        (
            "a comment that is no text",
            TABLES,
            b"#\xff\0\xfe\ninterest 1/1\nlife x m 60\npay 1 ad[x]\n",
            0,
            REPORT,
        ),
        (
            "a symbol that is no text",
            TABLES,
            b"interest 1/1\nlife x m 60\npay 1 ad[\xff]\n",
            6,
            b"contract line 3 Syntax\n",
        ),
        (
            "a contract cut within its pay",
            TABLES,
            b"interest 1/1\nlife x m 60\nlife y m 60\nlife z m 60\npay 1 ad[x",
            6,
            b"contract line 5 Syntax\n",
        ),
        (
            "a contract cut before its pay",
            TABLES,
            b"interest 1/1\nlife x m 60\nlife y m 60\nlife z m 60\n",
            7,
            b"contract line 5 Missing\n",
        ),
    ];
    for (case, tables, contract, status, text) in rows {
        assert_files(
            &rt,
            alloc,
            (case, "value"),
            (tables, contract),
            (status, text),
        )?;
    }
    Ok(())
}
