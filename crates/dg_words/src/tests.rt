//! Words in the forms of the table and words in none of them.

use crate::{CheckWords, RunWords, WordFault, check_words, run_words};
use std::alloc::{AllocError, Global};
use std::process::Abort;
use std::test::Fail;

fn words_of(alloc: Global, texts: &[&str]) -> Result<Vec<String>, AllocError> {
    let mut words = Vec::new(alloc);
    for text in texts {
        words.push(String::from_str(alloc, text)?)?;
    }
    Ok(words)
}

fn run_is(
    rt: &impl Abort,
    alloc: Global,
    texts: &[&str],
    workers: u32,
    generate: Option<u32>,
) -> Result<(), Fail> {
    let words = words_of(alloc, texts)?;
    let run = run_words(alloc, words.as_slice());
    assert_eq!(rt; run, Ok(RunWords { workers, generate }), "{texts:?}");
    Ok(())
}

fn no_run(rt: &impl Abort, alloc: Global, texts: &[&str]) -> Result<(), Fail> {
    let words = words_of(alloc, texts)?;
    let run = run_words(alloc, words.as_slice());
    assert_eq!(rt; run, Err(WordFault::BadWords), "{texts:?}");
    Ok(())
}

#[test]
fn words_of_a_run(rt: HostRuntime) -> Result<(), Fail> {
    let alloc = rt.alloc();
    run_is(&rt, alloc, &[], 4, None)?;
    run_is(&rt, alloc, &["--workers", "1"], 1, None)?;
    run_is(&rt, alloc, &["--workers", "64"], 64, None)?;
    run_is(&rt, alloc, &["--workers=4"], 4, None)?;
    run_is(&rt, alloc, &["--workers=10"], 10, None)?;
    run_is(&rt, alloc, &["--generate", "1"], 4, Some(1))?;
    run_is(&rt, alloc, &["--generate=20000"], 4, Some(20_000))?;
    run_is(
        &rt,
        alloc,
        &["--workers", "7", "--generate", "30"],
        7,
        Some(30),
    )?;
    run_is(
        &rt,
        alloc,
        &["--generate", "30", "--workers", "7"],
        7,
        Some(30),
    )?;
    run_is(
        &rt,
        alloc,
        &["--workers=7", "--generate", "30"],
        7,
        Some(30),
    )?;
    run_is(
        &rt,
        alloc,
        &["--generate=30", "--workers", "7"],
        7,
        Some(30),
    )?;
    run_is(&rt, alloc, &["--generate=30", "--workers=7"], 7, Some(30))
}

static NO_RUN: [&[&str]; 40] = [
    &["--workers", "0"],
    &["--workers", "65"],
    &["--workers", "04"],
    &["--workers", "+4"],
    &["--workers", "-4"],
    &["--workers", "4 "],
    &["--workers", " 4"],
    &["--workers", ""],
    &["--workers", "four"],
    &["--workers", "4", "4"],
    &["--workers", "4.0"],
    &["--workers", "4294967300"],
    &["--workers", "99999999999999999999999"],
    &["--workers"],
    &["--workers="],
    &["--workers=0"],
    &["--workers=65"],
    &["--workers=04"],
    &["--workers==4"],
    &["--workers=4="],
    &["--workers=", "4"],
    &["--workers =4"],
    &["-workers", "4"],
    &["--worker", "4"],
    &["--Workers", "4"],
    &["--workers", "4", "--workers", "4"],
    &["--workers", "4", "--workers=4"],
    &["--workers=4", "--generate=2", "--workers=4"],
    &["--generate", "0"],
    &["--generate", "20001"],
    &["--generate=020"],
    &["--generate", "2", "--generate", "2"],
    &["--workers", "--generate", "2"],
    &["--generate", "2", "--workers"],
    &["--"],
    &["--", "--workers", "4"],
    &[""],
    &["--help"],
    &["4"],
    &["--log"],
];

#[test]
fn words_of_no_run(rt: HostRuntime) -> Result<(), Fail> {
    let alloc = rt.alloc();
    for texts in NO_RUN {
        no_run(&rt, alloc, texts)?;
    }
    Ok(())
}

/// The value has as many digits as a line may have bytes.
#[test]
fn a_long_word(rt: HostRuntime) -> Result<(), Fail> {
    let alloc = rt.alloc();
    let mut value = String::new(alloc);
    for _ in 0..4096 {
        value.push('4')?;
    }
    no_run(&rt, alloc, &["--workers", value.as_str()])?;
    no_run(&rt, alloc, &[value.as_str()])
}

#[test]
fn words_of_a_check(rt: HostRuntime) -> Result<(), Fail> {
    let alloc = rt.alloc();
    let check = words_of(alloc, &["check"])?;
    assert_eq!(rt; check_words(alloc, check.as_slice()), Ok(CheckWords::Check));
    let plan = words_of(alloc, &["plan"])?;
    assert_eq!(rt; check_words(alloc, plan.as_slice()), Ok(CheckWords::Plan));
    let print = words_of(alloc, &["print"])?;
    assert_eq!(rt; check_words(alloc, print.as_slice()), Ok(CheckWords::Print));
    Ok(())
}

static NO_CHECK: [&[&str]; 12] = [
    &[],
    &[""],
    &["check", "check"],
    &["check", "plan"],
    &["check", ""],
    &["Check"],
    &["check "],
    &["chec"],
    &["--", "check"],
    &["lower"],
    &["trace"],
    &["audit"],
];

#[test]
fn words_of_no_check(rt: HostRuntime) -> Result<(), Fail> {
    let alloc = rt.alloc();
    for texts in NO_CHECK {
        let words = words_of(alloc, texts)?;
        let check = check_words(alloc, words.as_slice());
        assert_eq!(rt; check, Err(WordFault::BadWords), "{texts:?}");
    }
    Ok(())
}
