// What the tests share: a script is run over memory.
use mdns_base::{MemSink, MemSource, Source};
use mdns_play::{NO_MEMORY, WRITE_FAULT, run_script};
use std::alloc::{AllocError, Global};
use std::process::Abort;
use std::test::Fail;

/// The status of a script. Want of memory is passed on; a sink of which no call is listed fails for that alone.
pub fn status_of<S: Source>(
    alloc: Global,
    source: &mut S,
    sink: &mut MemSink,
) -> Result<u8, AllocError> {
    let status = run_script(alloc, source, sink);
    if status == NO_MEMORY || status == WRITE_FAULT {
        return Err(AllocError);
    }
    Ok(status)
}

/// Runs a script, which must end with a status and an output.
pub fn expect(
    rt: &impl Abort,
    alloc: Global,
    script: &str,
    output: &str,
    status: u8,
) -> Result<(), Fail> {
    let mut source = MemSource::new(Vec::from_slice(alloc, script.as_bytes())?, Vec::new(alloc));
    let mut sink = MemSink::new(alloc, Vec::new(alloc));
    let found = status_of(alloc, &mut source, &mut sink)?;
    assert_eq!(rt; found, status, "{script}");
    assert_eq!(rt; sink.bytes(), output.as_bytes(), "{script}");
    Ok(())
}

/// Runs a script to its end, which must print lines with these beginnings so, each behind its moment.
pub fn expect_lines(
    rt: &impl Abort,
    alloc: Global,
    script: &str,
    beginnings: &[&str],
    lines: &str,
) -> Result<(), Fail> {
    let mut source = MemSource::new(Vec::from_slice(alloc, script.as_bytes())?, Vec::new(alloc));
    let mut sink = MemSink::new(alloc, Vec::new(alloc));
    let status = status_of(alloc, &mut source, &mut sink)?;
    assert_eq!(rt; status, 0, "{script}");
    let transcript = str::from_utf8(sink.bytes()).map_err(|_| "text")?;
    let found = lines_with(alloc, transcript, beginnings)?;
    assert_eq!(rt; found.as_str(), lines, "{script}");
    Ok(())
}

// The lines of a transcript that begin so, each behind the moment of its entry.
fn lines_with(alloc: Global, transcript: &str, beginnings: &[&str]) -> Result<String, AllocError> {
    let mut found = String::new(alloc);
    let mut moment = "";
    for line in transcript.lines() {
        if let Some(head) = line.strip_prefix('@') {
            moment = head.split(' ').next().unwrap_or(head);
        } else if beginnings.iter().any(|begin| line.starts_with(*begin)) {
            found.push_str(moment)?;
            found.push_str(line)?;
            found.push('\n')?;
        }
    }
    Ok(found)
}
