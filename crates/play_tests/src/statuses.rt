// Statuses and faults.
ghost use Rattle.std.specs.Prelude.{None};

use crate::running::{expect, status_of};
use mdns_base::{Failed, MemSink, MemSource, Source};
use mdns_play::{NO_MEMORY, run_script};
use std::alloc::AllocError;
use std::test::Fail;

const ASKED: &str = "daemon 1\nopen 1\ncall 1 1 1 query A a.local\n";

// Lines end with a line feed, with a carriage return before it, and at the end of the script.
#[test]
fn scripts(rt: HostRuntime) -> Result<(), Fail> {
    for (script, output, status) in [
        ("", "", 0),
        ("# daemon 1\n\nat 5\r\n", "", 0),
        (
            "daemon 1\nopen 2\n",
            "@0 d1 w0 boot 10.0.0.1\nbad line 2\n",
            3,
        ),
        ("daemon 1\nfly", "@0 d1 w0 boot 10.0.0.1\nbad line 2\n", 3),
    ] {
        expect(&rt, rt.alloc(), script, output, status)?;
    }
    Ok(())
}

#[test]
fn faults_come_from_outside(rt: HostRuntime) -> Result<(), Fail> {
    let alloc = rt.alloc();
    let mut source = MemSource::new(Vec::new(alloc), Vec::from_slice(alloc, &[1])?);
    let mut sink = MemSink::new(alloc, Vec::new(alloc));
    let status = status_of(alloc, &mut source, &mut sink)?;
    assert_eq!(rt; status, 4);
    assert_eq!(rt; sink.bytes(), b"".as_slice());
    let mut source = MemSource::new(Vec::from_slice(alloc, ASKED.as_bytes())?, Vec::new(alloc));
    let mut sink = MemSink::new(alloc, Vec::from_slice(alloc, &[2])?);
    let status = run_script(alloc, &mut source, &mut sink);
    // The first put fails for want of memory alone.
    if status == NO_MEMORY || sink.bytes().is_empty() {
        Err(AllocError)?;
    }
    assert_eq!(rt; status, 5);
    assert_eq!(rt; sink.bytes(), b"@0 d1 w0 boot 10.0.0.1\n".as_slice());
    Ok(())
}

// So many bytes `#`, which aren't held.
#[derive(Drop)]
struct Signs {
    left: usize,
}

impl Source for Signs {
    ghost left = { λ s. None };

    ghost faults = { λ s. 0 };

    fn read(&mut self, into: &mut [u8]) -> Result<usize, Failed> {
        let count = into.len().min(self.left);
        into[..count].fill(b'#');
        self.left -= count;
        Ok(count)
    }
}

#[test]
fn a_script_may_be_too_large(rt: HostRuntime) -> Result<(), Fail> {
    let alloc = rt.alloc();
    for (bytes, status) in [(67_108_864, 0), (67_108_865, 8)] {
        let mut source = Signs { left: bytes };
        let mut sink = MemSink::new(alloc, Vec::new(alloc));
        let found = status_of(alloc, &mut source, &mut sink)?;
        assert_eq!(rt; found, status, "{bytes}");
    }
    Ok(())
}
