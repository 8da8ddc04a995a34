// Texts and what is said of them, words, and faults.
use crate::stop::{NO_MEMORY, READ_FAULT, TOO_LARGE, USAGE, WRITE_FAULT};
use crate::top::mdns_check;
use mdns_base::{MemSink, MemSource};
use std::alloc::{AllocError, Global};
use std::process::Abort;
use std::test::Fail;

// A question that is asked and answered: the answer lives two seconds.
const FRONT: &str = "@0 d1 w0 boot 10.0.0.1
@0 d1 w0 open
 = opened 1
@0 d1 w0 call 1 1 query A a.local.
 < 1 reply 1 start 0
 = code 0
@20 d1 w0 tick
 ! asked a.local. A series
 > all query 0
  ? a.local. A
@1000 d1 w0 hear 10.0.0.9 5353 0000840000000001000000000161056c6f63616c0000018001000000020004c0000201
 < 1 add 1 A 192.0.2.1
@1020 d1 w0 tick
 ! asked a.local. A series
 > all query 0
  ? a.local. A
  a a.local. 2 - A 192.0.2.1
@2600 d1 w0 tick
 ! asked a.local. A refresh
 > all query 0
  ? a.local. A
@2700 d1 w0 tick
 ! asked a.local. A refresh
 > all query 0
  ? a.local. A
@2800 d1 w0 tick
 ! asked a.local. A refresh
 > all query 0
  ? a.local. A
@2900 d1 w0 tick
 ! asked a.local. A refresh
 > all query 0
  ? a.local. A
@3000 d1 w0 tick
";

// Its last line: the answer is taken back.
const LAST: &str = " < 1 rem 1 A 192.0.2.1\n";

// A text, what is put, and the status.
const SHORT: [(&str, &str, u8); 7] = [
    ("", "legal 0\n", 0),
    ("@0 d1 w0 boat 10.0.0.1\n", "bad line 1\n", 3),
    ("@0 d1 w0 boot 10.0.0.1", "bad line 1\n", 3),
    ("@0 d1 w0 open\n = opened 1\n", "illegal 1\n", 1),
    (
        "@0 d2 w0 boot 10.0.0.2\n@0 d1 w0 boot 10.0.0.1\n@0 d2 w0 open\n = opened 1\n",
        "legal 3\n",
        0,
    ),
    (
        "@0 d2 w0 boot 10.0.0.2\n@0 d2 w0 open\n = opened 1\n@0 d1 w0 open\n = opened 1\n",
        "illegal 3\n",
        1,
    ),
    (
        "@0 d1 w0 boot 10.0.0.1\n@0 d1 w0 boot 10.0.0.1\nboot\n",
        "bad line 3\n",
        3,
    ),
];

// The status of a run over these bytes, with the calls of the source and the sink that fail; and what is put.
fn run(
    alloc: Global,
    words: &[String],
    text: &[u8],
    failing: (&[u64], &[u64]),
) -> Result<(u8, Vec<u8>), AllocError> {
    let bytes = Vec::from_slice(alloc, text)?;
    let mut source = MemSource::new(bytes, Vec::from_slice(alloc, failing.0)?);
    let mut sink = MemSink::new(alloc, Vec::from_slice(alloc, failing.1)?);
    let status = mdns_check(alloc, words, &mut source, &mut sink);
    if status == NO_MEMORY {
        return Err(AllocError);
    }
    Ok((status, Vec::from_slice(alloc, sink.bytes())?))
}

// Runs the program over a text, of which it must say this, with this status.
fn expect(rt: &impl Abort, alloc: Global, text: &str, line: &str, status: u8) -> Result<(), Fail> {
    let (found, put) = run(alloc, &[], text.as_bytes(), (&[], &[]))?;
    if found == WRITE_FAULT {
        // A sink of which no call is listed fails for want of memory alone.
        Err(AllocError)?;
    }
    assert_eq!(rt; found, status, "{text}");
    assert_eq!(rt; put.as_slice(), line.as_bytes(), "{text}");
    Ok(())
}

#[test]
fn short_texts(rt: HostRuntime) -> Result<(), Fail> {
    for (text, line, status) in SHORT {
        expect(&rt, rt.alloc(), text, line, status)?;
    }
    Ok(())
}

#[test]
fn a_question_and_its_answer(rt: HostRuntime) -> Result<(), Fail> {
    let alloc = rt.alloc();
    let whole = format!(in alloc; "{FRONT}{LAST}")?;
    expect(&rt, alloc, &whole, "legal 11\n", 0)?;
    expect(&rt, alloc, FRONT, "illegal 11\n", 1)
}

#[test]
fn words_and_faults(rt: HostRuntime) -> Result<(), Fail> {
    let alloc = rt.alloc();
    let word = String::from_str(alloc, "--help")?;
    let (status, put) = run(alloc, &[word], b"", (&[], &[]))?;
    assert_eq!(rt; (status, put.len()), (USAGE, 0));
    let (status, put) = run(alloc, &[], b"x\n", (&[2], &[]))?;
    assert_eq!(rt; (status, put.len()), (READ_FAULT, 0));
    let (status, put) = run(alloc, &[], b"x\n", (&[], &[1]))?;
    assert_eq!(rt; (status, put.len()), (WRITE_FAULT, 0));
    Ok(())
}

// Line feeds, which begin no transcript.
#[test]
fn a_text_may_be_too_large(rt: HostRuntime) -> Result<(), Fail> {
    let alloc = rt.alloc();
    for (length, wanted) in [(1_048_576, 3), (1_048_577, TOO_LARGE)] {
        let text = vec![in alloc; b'\n'; length]?;
        let (status, _) = run(alloc, &[], &text, (&[], &[]))?;
        if status == WRITE_FAULT {
            Err(AllocError)?;
        }
        assert_eq!(rt; status, wanted);
    }
    Ok(())
}
