use crate::report::{Headline, Verdict, print};
use crate::sheet::read_sheet;
use std::test::Fail;

// A sheet's text, and the question and the line of its refusal.
const CASES: [(&[u8], Option<(u16, u32)>); 26] = [
    (b"C,16,100\n", None),
    (b"", Some((21, 1))),
    (b"C,16,100", Some((21, 1))),
    (b"C,0,100\n", Some((21, 1))),
    (b"C,65535,1099511627776\n", None),
    (b"C,65536,1\n", Some((21, 1))),
    (b"C,1,1099511627777\n", Some((21, 1))),
    (b"C,0000000000001,1\n", None),
    (b"C,00000000000001,1\n", Some((21, 1))),
    (b"C,1,1\nI,255,4294967295\nN,1,0,0,2,0,0,0,65535\n", None),
    (b"C,1,1\nN,1,0,0,2,0,0,0,1\nI,2,5\n", Some((22, 3))),
    (b"C,1,1\nI,2,5\r\n", Some((22, 2))),
    (b"C,1,1\nI,2,5", Some((22, 2))),
    (b"C,1,1\n\n", Some((22, 2))),
    (b"C,1,1\nC,1,1\n", Some((22, 2))),
    (b"C,1,1\ni,2,5\n", Some((22, 2))),
    (b"C,1,1\nI,2\n", Some((22, 2))),
    (b"C,1,1\nI,2,5,\n", Some((22, 2))),
    (b"C,1,1\nI,,5\n", Some((22, 2))),
    (b"C,1,1\nI,-2,5\n", Some((22, 2))),
    (b"C,1,1\nI,2,0000000000005\n", None),
    (b"C,1,1\nI,2,00000000000005\n", Some((22, 2))),
    (b"C,1,1\nI,256,5\n", Some((23, 2))),
    (b"C,1,1\nI,2,4294967296\n", Some((23, 2))),
    (b"C,1,1\nI,2,5\nN,1,0,0,2,0,0,65536,1\n", Some((23, 3))),
    (b"C,1,1\nN,1,0,0,2,0,0,0\n", Some((22, 2))),
];

fn answer(bytes: &[u8]) -> Option<(u16, u32)> {
    let refusal = read_sheet(bytes).err()?;
    Some((refusal.question.number(), refusal.line))
}

#[test]
fn each_fault_has_its_question(rt: HostRuntime) {
    for (text, refusal) in &CASES {
        assert_eq!(rt; answer(text), *refusal);
    }
}

#[test]
fn inputs_are_counted(rt: HostRuntime) -> Result<(), Fail> {
    let mut text = b"C,1,1\n".to_vec(rt.alloc())?;
    for _ in 0..64 {
        text.extend_from_slice(b"I,2,5\n")?;
    }
    assert_eq!(rt; answer(&text), None);
    text.extend_from_slice(b"I,2,5\n")?;
    assert_eq!(rt; answer(&text), Some((24, 66)));
    Ok(())
}

#[test]
fn a_report_is_printed(rt: HostRuntime) -> Result<(), Fail> {
    let head = Headline {
        verdict: Verdict::Ended,
        value: -7,
        node: 6,
        line: 1,
        steps: 4,
    };
    let bytes = print(rt.alloc(), &head, b"7\n")?;
    assert_eq!(rt; bytes.as_slice(), b"V,1,-7,6,1,4\n7\n".as_slice());
    Ok(())
}
