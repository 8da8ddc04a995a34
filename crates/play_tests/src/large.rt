// Scripts that reach what small ones don't, made here line by line. What they must tell was written by a model of the program
// that shares no code with it.
use crate::running::{expect, expect_lines};
use std::alloc::{AllocError, Global};
use std::test::Fail;

// The owner of records.
const A_LOCAL: &str = "0161056c6f63616c00";

// A line in which a response of so many address records of the root is heard, from an address on.
fn addresses(alloc: Global, first: u32, count: u32) -> Result<String, AllocError> {
    let mut line = format!(in alloc; "hear 1 10.0.0.9 5353 000084000000{count:04x}00000000")?;
    for place in 0..count {
        line.push_str(if place == 0 { "00" } else { "c00c" })?;
        let address = first.wrapping_add(place);
        let rest = format!(in alloc; "00010001000000780004{address:08x}")?;
        line.push_str(&rest)?;
    }
    line.push('\n')?;
    Ok(line)
}

// So many zero bytes in hexadecimal.
fn zeros(alloc: Global, count: usize) -> Result<String, AllocError> {
    "00".repeat(alloc, count)
}

// 32,768 records are held, and no packet that would leave more is heard; one that renews some is.
#[test]
fn a_full_table(rt: HostRuntime) -> Result<(), Fail> {
    let alloc = rt.alloc();
    let mut script = String::from_str(alloc, "daemon 1\n")?;
    for packet in 0..64u32 {
        let heard = addresses(alloc, 512 * packet, 512)?;
        script.push_str(&heard)?;
    }
    let more = addresses(alloc, 512 * 64, 1)?;
    let renewed = addresses(alloc, 512 * 63, 512)?;
    script.push_str(&more)?;
    script.push_str(&renewed)?;
    expect_lines(&rt, alloc, &script, &[" !"], "0 ! full\n")
}

// A session of 64 operations is cut by the thirtieth answer of 8,900 bytes to each. Another goes on, and so does the daemon.
#[test]
fn a_cut_session(rt: HostRuntime) -> Result<(), Fail> {
    let alloc = rt.alloc();
    let mut script = String::from_str(alloc, "daemon 1\nopen 1\nopen 1\n")?;
    for op in 0..64u32 {
        let call = format!(in alloc; "call 1 1 {op} query TXT a.local\n")?;
        script.push_str(&call)?;
    }
    script.push_str("call 1 2 1 query TXT a.local\n")?;
    let rest = zeros(alloc, 8899)?;
    for packet in 0..30u32 {
        let heard = format!(in alloc;
            "hear 1 10.0.0.9 5353 000084000000000100000000{A_LOCAL}001000010000007822c4{packet:02x}{rest}\n"
        )?;
        script.push_str(&heard)?;
    }
    script.push_str("call 1 1 65 query TXT a.local\ntake 1 1 1\nclose 1 1\ntake 1 1 1\nopen 1\n")?;
    let told = "0 = opened 1
0 = opened 2
0 ! cut 1
0 = cut
0 = cut
0 = ended
0 = closed
0 = opened 3
";
    let beginnings = [" !", " = o", " = cut", " = e", " = cl"];
    expect_lines(&rt, alloc, &script, &beginnings, told)
}

// A response with a text of 8,180 bytes of a name, which makes an answer of 8,192 bytes.
fn large_text(alloc: Global, name: &str, place: u32, rest: &str) -> Result<String, AllocError> {
    format!(in alloc;
        "hear 1 10.0.0.9 5353 00008400000000010000000003{name}056c6f63616c0000100001000000781ff4{place:04x}{rest}\n"
    )
}

// A session that doesn't read is cut where 16,777,216 bytes would be queued for it: 64 replies of 14 bytes and 2,047 answers of 8,192 are not
// too much, and one more is. Each text of the one name answers 63 operations, each of the other name one. The other session has nothing to take.
#[test]
fn a_session_that_does_not_read(rt: HostRuntime) -> Result<(), Fail> {
    let alloc = rt.alloc();
    let asked = "daemon 1\nopen 1\nopen 1\ncall 1 1 64 query TXT odd.local\n";
    let mut script = String::from_str(alloc, asked)?;
    for op in 1..64u32 {
        let call = format!(in alloc; "call 1 1 {op} query TXT big.local\n")?;
        script.push_str(&call)?;
    }
    let rest = zeros(alloc, 8178)?;
    for place in 0..32u32 {
        script.push_str(&large_text(alloc, "626967", place, &rest)?)?;
    }
    for place in 0..31u32 {
        script.push_str(&large_text(alloc, "6f6464", place, &rest)?)?;
    }
    script.push_str("take 1 2 1\n")?;
    script.push_str(&large_text(alloc, "6f6464", 31, &rest)?)?;
    script.push_str("take 1 1 1\ntake 1 2 1\n")?;
    let told = "0 = empty\n0 ! cut 1\n0 = cut\n0 = empty\n";
    let beginnings = [" !", " = cut", " = e"];
    expect_lines(&rt, alloc, &script, &beginnings, told)
}

// Lines of more than 100,000 bytes: a comment, and a packet that is too long to be read.
#[test]
fn long_lines(rt: HostRuntime) -> Result<(), Fail> {
    let alloc = rt.alloc();
    let packet = zeros(alloc, 60_000)?;
    let script = format!(in alloc;
        "daemon 1\n# {packet}\nhear 1 10.0.0.9 5353 {packet}\nopen 1\n"
    )?;
    let told = format!(in alloc;
        "@0 d1 w0 boot 10.0.0.1\n@0 d1 w0 hear 10.0.0.9 5353 {packet}\n ! bad 6\n@0 d1 w0 open\n = opened 1\n"
    )?;
    expect(&rt, alloc, &script, &told, 0)
}
