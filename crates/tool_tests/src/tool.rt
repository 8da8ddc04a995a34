// Command lines over a plug in memory, with frames that were made outside, and the plug over a Unix socket.
use mdns_base::{MemSink, Sink, Source};
use mdns_outside::{MemPlug, Peer, Plug};
use sd_command::{UnixPlug, dns_sd};
use std::alloc::{AllocError, Global};
use std::fs;
use std::io::{Read, Write};
use std::os::unix::net::UnixListener;
use std::process::Abort;
use std::test::Fail;

// A reply that accepts operation 1.
const ACCEPTED: &[u8] = b"\x00\x00\x00\x0a\x40\x00\x00\x00\x01\x01\x00\x00\x00\x00";

// A reply that refuses it, with the code -65540.
const REFUSED: &[u8] = b"\x00\x00\x00\x0a\x40\x00\x00\x00\x01\x01\xff\xfe\xff\xfc";

// An instance that was found for it.
const FOUND: &[u8] = b"\x00\x00\x00\x19\x41\x00\x00\x00\x01\x02\x01a\x04_ipp\x04_tcp\x05local\x00";

// The frame of a browse, which is no item.
const BROWSE: &[u8] = b"\x00\x00\x00\x10\x02\x00\x00\x00\x01\x00\x09_ipp._tcp";

// Commands, and the frame that each sends.
const COMMANDS: [(&[&str], &[u8]); 6] = [
    (&["-B", "_ipp._tcp", "local."], BROWSE),
    (
        &["-L", "P", "_ipp._tcp", "local"],
        b"\x00\x00\x00\x13\x03\x00\x00\x00\x01\x00\x01P\x00\x09_ipp._tcp",
    ),
    (
        &["-R", "P", "_ipp._tcp", ".", "631", "a=1"],
        b"\x00\x00\x00\x1c\x05\x00\x00\x00\x01\x00\x02\x77\x00\x01P\x00\x09_ipp._tcp\x00\x04\x03a=1",
    ),
    (
        &["-Q", "a.local"],
        b"\x00\x00\x00\x10\x01\x00\x00\x00\x01\x00\x01\x01a\x05local\x00",
    ),
    (
        &["-Q", "a.local", "AAAA", "IN"],
        b"\x00\x00\x00\x10\x01\x00\x00\x00\x01\x00\x1c\x01a\x05local\x00",
    ),
    (
        &["-G", "v4v6", "a.local"],
        b"\x00\x00\x00\x0f\x04\x00\x00\x00\x01\x03\x01a\x05local\x00",
    ),
];

// Words that are no command.
const FAULTY: [&[&str]; 11] = [
    &[],
    &["--help"],
    &["-B"],
    &["-B", "_ipp._tcp", "org"],
    &["-B", "_ipp._tcp", "local", "x"],
    &["-count", "0", "-B", "_ipp._tcp"],
    &["-count", "1000001", "-B", "_ipp._tcp"],
    &["-socket"],
    &["-R", "P", "_ipp._tcp", "local", "65536"],
    &["-Q", "a..local"],
    &["-G", "v5", "a.local"],
];

fn words(alloc: Global, texts: &[&str]) -> Result<Vec<String>, AllocError> {
    let mut words = Vec::new(alloc);
    for text in texts {
        words.push(String::from_str(alloc, text)?)?;
    }
    Ok(words)
}

// A plug to a peer that says these two pieces.
fn plug(alloc: Global, first: &[u8], second: &[u8]) -> Result<MemPlug, AllocError> {
    let mut bytes = Vec::from_slice(alloc, first)?;
    bytes.extend_from_slice(second)?;
    let mut peers = Vec::new(alloc);
    peers.push(Peer {
        bytes,
        failing_reads: Vec::new(alloc),
        failing_puts: Vec::new(alloc),
    })?;
    Ok(MemPlug::new(alloc, peers, Vec::new(alloc)))
}

// Runs words, and looks at the status and at what was printed.
fn expect_run(
    rt: &impl Abort,
    alloc: Global,
    texts: &[&str],
    plug: &mut MemPlug,
    wanted: (u8, &str),
) -> Result<(), Fail> {
    let words = words(alloc, texts)?;
    let mut output = MemSink::new(alloc, Vec::new(alloc));
    let status = dns_sd(alloc, words.as_slice(), plug, &mut output);
    assert_eq!(rt; status, wanted.0);
    assert_eq!(rt; output.bytes(), wanted.1.as_bytes());
    Ok(())
}

fn expect_said(rt: &impl Abort, plug: &MemPlug, bytes: &[u8]) -> Result<(), Fail> {
    let said = plug.said().ok_or("told")?;
    let sink = said.first().ok_or("given back")?;
    assert_eq!(rt; sink.inner().bytes(), bytes);
    Ok(())
}

#[test]
fn items_are_printed(rt: HostRuntime) -> Result<(), Fail> {
    let alloc = rt.alloc();
    let found = "Add found a._ipp._tcp.local.\n";
    let browse = ["-count", "1", "-B", "_ipp._tcp"].as_slice();
    for (first, second, status, printed) in [
        (ACCEPTED, FOUND, 0, found),
        (REFUSED, FOUND, 3, "refused -65540\n"),
        (ACCEPTED, b"".as_slice(), 4, ""),
        (BROWSE, FOUND, 7, ""),
    ] {
        let mut plug = plug(alloc, first, second)?;
        expect_run(&rt, alloc, browse, &mut plug, (status, printed))?;
        expect_said(&rt, &plug, BROWSE)?;
    }
    let mut failing = MemPlug::new(alloc, Vec::new(alloc), Vec::from_slice(alloc, &[1])?);
    expect_run(&rt, alloc, browse, &mut failing, (2, ""))
}

#[test]
fn commands_send_their_frames(rt: HostRuntime) -> Result<(), Fail> {
    let alloc = rt.alloc();
    for (texts, frame) in COMMANDS {
        let mut plug = plug(alloc, b"", b"")?;
        expect_run(&rt, alloc, texts, &mut plug, (4, ""))?;
        expect_said(&rt, &plug, frame)?;
    }
    for texts in FAULTY {
        let mut plug = plug(alloc, b"", b"")?;
        expect_run(&rt, alloc, texts, &mut plug, (1, ""))?;
        assert!(rt; plug.asked().ok_or("told")?.is_empty());
    }
    Ok(())
}

#[test]
fn a_unix_socket_is_a_plug(rt: HostRuntime) -> Result<(), Fail> {
    let path = "dns_sd.test.sock";
    let _ = fs::remove_file(&rt, path);
    let mut plug = UnixPlug::new(rt);
    assert!(rt; plug.connect(path).is_err());
    let listener = UnixListener::bind(&rt, path)?;
    let (mut input, mut output) = plug.connect(path).ok().ok_or("a connection")?;
    let (mut peer, _) = listener.accept()?;
    assert!(rt; output.put(b"ask").is_ok());
    let mut buffer = [0u8; 3];
    peer.read_exact(&mut buffer)?;
    assert_eq!(rt; buffer.as_slice(), b"ask".as_slice());
    peer.write_all(b"say")?;
    let count = input.read(&mut buffer).ok().ok_or("a read")?;
    assert_eq!(rt; count, 3);
    assert_eq!(rt; buffer.as_slice(), b"say".as_slice());
    plug.back(input, output);
    assert_eq!(rt; plug.faults(), 1);
    fs::remove_file(&rt, path)?;
    Ok(())
}
