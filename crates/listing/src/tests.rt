// What the argument says, and what is printed of texts that are no table or a table that is refused.
use crate::argument::input_count;
use crate::report::report;
use std::alloc::Global;
use std::process::Abort;
use std::test::Fail;

fn prints(
    rt: &impl Abort,
    heap: Global,
    text: &[u8],
    inputs: u32,
    expected: &str,
) -> Result<(), Fail> {
    let out = report(heap, text, inputs)?;
    assert_eq!(rt; out.as_str(), expected);
    Ok(())
}

#[test]
fn arguments(rt: HostRuntime) {
    assert_eq!(rt; input_count(None), Some(0));
    assert_eq!(rt; input_count(Some("3")), Some(3));
    assert_eq!(rt; input_count(Some("4294967295")), Some(u32::MAX));
    assert_eq!(rt; input_count(Some("4294967296")), None);
    assert_eq!(rt; input_count(Some("-1")), None);
    assert_eq!(rt; input_count(Some("three")), None);
    assert_eq!(rt; input_count(Some("")), None);
}

#[test]
fn malformed_lines(rt: HostRuntime) -> Result<(), Fail> {
    let texts: [(&[u8], &str); 9] = [
        (b"\n", "bad line 1\n"),
        (b"0000000A\n", "bad line 1\n"),
        (b"0000007\n", "bad line 1\n"),
        (b"000000007\n", "bad line 1\n"),
        (b"00000007\n 0000007\n", "bad line 2\n"),
        (b"00000007\n0000007 \n", "bad line 2\n"),
        (b"00000007\n00000007\r\n", "bad line 2\n"),
        (b"00000007\n\n00000007\n", "bad line 2\n"),
        (b"00000007\n00000007\n\xc3\xa9\xff00007", "bad line 3\n"),
    ];
    for (text, expected) in texts {
        prints(&rt, rt.alloc(), text, 0, expected)?;
    }
    Ok(())
}

#[test]
fn refused_tables(rt: HostRuntime) -> Result<(), Fail> {
    let heap = rt.alloc();
    prints(&rt, heap, b"", 0, "refused 1 0\n")?;
    prints(
        &rt,
        heap,
        b"60000001",
        2,
        "0 60000001 input 1, binders 0\nadmitted\n",
    )?;
    prints(
        &rt,
        heap,
        b"60000001",
        1,
        "0 60000001 input 1, not counted\nrefused 5 0\n",
    )?;
    prints(
        &rt,
        heap,
        b"00000007\n3fffffff\nc0000002",
        0,
        "0 00000007 number 7, binders 0\n1 3fffffff number -1, binders 0\n2 c0000002 application of 0 to 2, not counted\nrefused 4 2\n",
    )
}

#[test]
fn most_lines(rt: HostRuntime) -> Result<(), Fail> {
    let heap = rt.alloc();
    let mut text = Vec::new(heap);
    for _ in 0..4096 {
        text.extend_from_slice(b"00000007\n")?;
    }
    let out = report(heap, text.as_slice(), 0)?;
    assert!(rt;
        out.as_str()
            .ends_with("\n4095 00000007 number 7, binders 0\nadmitted\n")
    );
    text.extend_from_slice(b"00000007")?;
    prints(&rt, heap, text.as_slice(), 0, "bad line 4097\n")
}
