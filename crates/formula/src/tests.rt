// Sizes, and what admission leaves in the work table and the formula.
use crate::{Formula, Refusal, admit};
use std::test::Fail;

// (λ x. x + x) (2 · 3)
const DOUBLED: [u32; 11] = [
    0x5000_0000,
    0x4000_0000,
    0xc000_0001,
    0xc001_0001,
    0x8000_0003,
    0x5000_0002,
    0x0000_0002,
    0xc002_8006,
    0x0000_0003,
    0xc003_8008,
    0xc002_0009,
];

fn answer(words: &[u32], work: &mut [u32]) -> Result<(), Refusal> {
    let mut formula = Formula::fresh();
    admit(words, 0, work, &mut formula)
}

#[test]
fn sizes(rt: HostRuntime) -> Result<(), Fail> {
    let heap = rt.alloc();
    let words = vec![in heap; 0u32; 32_769]?;
    let mut work = vec![in heap; 9u32; 32_769]?;
    assert!(rt; words.len() == 32_769);
    assert_eq!(rt; answer(&[], work.as_mut_slice()), Err(Refusal::WordCount));
    assert_eq!(rt;
        answer(words.as_slice(), work.as_mut_slice()),
        Err(Refusal::WordCount)
    );
    assert_eq!(rt; work.first().copied(), Some(9));
    assert_eq!(rt; answer(&words[0..32_768], work.as_mut_slice()), Ok(()));
    assert_eq!(rt; work.first().copied(), Some(0));
    Ok(())
}

#[test]
fn refusals_leave_the_formula(rt: HostRuntime) {
    let mut work = [9; 2];
    let mut formula = Formula::fresh();
    assert_eq!(rt;
        admit(&DOUBLED, 0, &mut work, &mut formula),
        Err(Refusal::ShortTable)
    );
    assert_eq!(rt;
        admit(&[7, 0x4000_0000], 0, &mut work, &mut formula),
        Err(Refusal::NotClosed(1))
    );
    assert_eq!(rt; work, [0, 1]);
    assert_eq!(rt; formula.words(), [7].as_slice());
}

#[test]
fn eleven_words(rt: HostRuntime) {
    let mut work = [9; 12];
    let mut formula = Formula::fresh();
    assert_eq!(rt; admit(&DOUBLED, 3, &mut work, &mut formula), Ok(()));
    assert_eq!(rt; work, [0, 1, 1, 1, 0, 0, 0, 0, 0, 0, 0, 9]);
    assert_eq!(rt; formula.inputs(), 3);
    assert_eq!(rt; formula.words(), DOUBLED.as_slice());
}
