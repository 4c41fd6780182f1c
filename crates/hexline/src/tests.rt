// Lines and texts that are read, and some that are refused.
use crate::{BadLine, read, read_table, write};

#[test]
fn words_as_lines(rt: HostRuntime) {
    let lines: [(&[u8; 8], u32); 4] = [
        (b"00000000", 0),
        (b"00000007", 7),
        (b"c0020009", 0xc002_0009),
        (b"ffffffff", u32::MAX),
    ];
    for (line, word) in lines {
        assert_eq!(rt; read(line), Some(word));
        assert_eq!(rt; write(word), *line);
    }
}

#[test]
fn refused_lines(rt: HostRuntime) {
    let lines: [&[u8]; 9] = [
        b"",
        b"C0020009",
        b"0000007",
        b"000000007",
        b" 0000007",
        b"0000007 ",
        b"0000007\r",
        b"00000007\r",
        b"0000007\xff",
    ];
    for line in lines {
        assert_eq!(rt; read(line), None);
    }
}

#[test]
fn texts_into_a_table(rt: HostRuntime) {
    let mut table = [5, 5];
    assert_eq!(rt; read_table(b"", &mut table), Ok(0));
    assert_eq!(rt; read_table(b"\n", &mut table), Err(BadLine { number: 1 }));
    assert_eq!(rt; table, [5, 5]);
    assert_eq!(rt; read_table(b"00000007\nc0020009", &mut table), Ok(2));
    assert_eq!(rt; table, [7, 0xc002_0009]);
    assert_eq!(rt;
        read_table(b"00000001\n00000002\n00000003\n", &mut table),
        Err(BadLine { number: 3 })
    );
    assert_eq!(rt; table, [1, 2]);
}
