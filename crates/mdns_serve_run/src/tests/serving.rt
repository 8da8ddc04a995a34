// A server over a place in memory, by the words of `serve`.
use crate::holding::Holding;
use mdns_base::{MemSink, MemSource};
use mdns_outside::{Gate, MemPlace, NotedSink, Notes, OpenGate, Packet, Scene};
use mdns_server::serve_by_words;
use std::alloc::{AllocError, Global};
use std::sync::{Arc, Wait};
use std::test::Fail;
use std::thread::Threads;

// A query for the address of `a.local`, as operation 1 and as operation 2, and the replies.
const QUERY_1: &[u8] = b"\x00\x00\x00\x10\x01\x00\x00\x00\x01\x00\x01\x01a\x05local\x00";

const QUERY_2: &[u8] = b"\x00\x00\x00\x10\x01\x00\x00\x00\x02\x00\x01\x01a\x05local\x00";

const REPLY_1: &[u8] = b"\x00\x00\x00\x0a\x40\x00\x00\x00\x01\x01\x00\x00\x00\x00";

const REPLY_2: &[u8] = b"\x00\x00\x00\x0a\x40\x00\x00\x00\x02\x01\x00\x00\x00\x00";

// The words behind `serve`.
const WORDS: [&str; 8] = [
    "--socket",
    "s",
    "--host",
    "h",
    "--address",
    "10.0.0.1",
    "--relay",
    "5000",
];

// What comes to the place of these tests.
type Clients<R> = Scene<MemSource, NotedSink<R>>;

// Two pieces, one behind the other.
fn joined(alloc: Global, first: &[u8], second: &[u8]) -> Result<Vec<u8>, AllocError> {
    let mut bytes = Vec::from_slice(alloc, first)?;
    bytes.extend_from_slice(second)?;
    Ok(bytes)
}

// Lets a client come that says this, and answers where it is noted what is said to it.
fn come<R: Wait + Drop>(
    rt: R,
    alloc: Global,
    scene: &mut Clients<R>,
    says: Vec<u8>,
) -> Result<Arc<Notes<u8>>, AllocError> {
    let notes = Arc::new(alloc, Notes::new(alloc))?;
    let input = MemSource::new(says, Vec::new(alloc));
    let inner = MemSink::new(alloc, Vec::new(alloc));
    let output = NotedSink::new(rt, inner, Arc::try_clone(&notes)?);
    scene.callers.push((input, output))?;
    Ok(notes)
}

// Serves what comes, and answers the status, and the output.
fn served<R: Threads + Wait + Copy + Send + Drop + 'static, G: Gate + Send + Sync + Drop + 'static>(
    rt: R,
    alloc: Global,
    scene: Clients<R>,
    sent: Arc<Notes<Packet>>,
    gate: Arc<G>,
) -> Result<(u8, MemSink), AllocError> {
    let mut words = Vec::new(alloc);
    for word in WORDS {
        words.push(String::from_str(alloc, word)?)?;
    }
    let mut place = MemPlace::new(rt, alloc, scene, sent, gate);
    let mut output = MemSink::new(alloc, Vec::new(alloc));
    let status = serve_by_words(rt, alloc, words.as_slice(), &mut place, &mut output);
    Ok((status, output))
}

// Session 1 makes its second request when a frame was written to session 2, and none ends before the probe of the host that was
// asked for was sent: so both run at a time, the ticker ticks, and the daemon is the one of the words.
#[test]
fn sessions_are_served_beside_each_other(rt: HostRuntime) -> Result<(), Fail> {
    let alloc = rt.alloc();
    let mut scene = Scene::new(alloc);
    scene.step = 10;
    let first = come(rt, alloc, &mut scene, joined(alloc, QUERY_1, QUERY_2)?)?;
    let second = come(rt, alloc, &mut scene, joined(alloc, QUERY_1, b"")?)?;
    let sent = Arc::new(alloc, Notes::new(alloc))?;
    let gate = Arc::new(alloc, Holding::new(rt, Arc::try_clone(&sent)?))?;
    let (status, output) = served(rt, alloc, scene, sent, Arc::try_clone(&gate)?)?;
    assert_eq!(rt; status, 0);
    assert_eq!(rt; output.bytes(), b"serving\n".as_slice());
    let replies = joined(alloc, REPLY_1, REPLY_2)?;
    assert_eq!(rt; first.take(&rt).as_slice(), replies.as_slice());
    assert_eq!(rt; second.take(&rt).as_slice(), REPLY_1);
    assert_eq!(rt; gate.let_go(), 0);
    Ok(())
}

// A scene to which one client comes.
fn one_client<R: Wait + Drop>(rt: R, alloc: Global) -> Result<Clients<R>, AllocError> {
    let mut scene = Scene::new(alloc);
    let says = joined(alloc, QUERY_1, b"")?;
    come(rt, alloc, &mut scene, says)?;
    Ok(scene)
}

// The status of a server to which this comes.
fn status_of<R: Threads + Wait + Copy + Send + Drop + 'static>(
    rt: R,
    alloc: Global,
    scene: Clients<R>,
) -> Result<u8, AllocError> {
    let sent = Arc::new(alloc, Notes::new(alloc))?;
    let gate = Arc::new(alloc, OpenGate)?;
    let (status, _) = served(rt, alloc, scene, sent, gate)?;
    Ok(status)
}

#[test]
fn parts_that_fail_have_their_statuses(rt: HostRuntime) -> Result<(), Fail> {
    let alloc = rt.alloc();
    let mut scene = one_client(rt, alloc)?;
    scene.failing_callers = Vec::from_slice(alloc, &[2])?;
    assert_eq!(rt; status_of(rt, alloc, scene)?, 9);
    // The first two starts are those of the ear and the ticker, the others those of a session's halves.
    for start in [1, 2, 3, 4] {
        let mut scene = one_client(rt, alloc)?;
        scene.failing_starts = Vec::from_slice(alloc, &[start])?;
        assert_eq!(rt; status_of(rt, alloc, scene)?, 10);
    }
    let mut scene = one_client(rt, alloc)?;
    scene.failing_receives = Vec::from_slice(alloc, &[1])?;
    assert_eq!(rt; status_of(rt, alloc, scene)?, 11);
    Ok(())
}

// The first is the clock of the boot; the last three are the ear, the spawner and the door, in this order.
#[test]
fn parts_that_are_missing_have_their_statuses(rt: HostRuntime) -> Result<(), Fail> {
    let alloc = rt.alloc();
    for (part, wanted) in [(1, 11), (12, 11), (13, 10), (14, 9)] {
        let mut scene = one_client(rt, alloc)?;
        scene.failing_parts = Vec::from_slice(alloc, &[part])?;
        assert_eq!(rt; status_of(rt, alloc, scene)?, wanted);
    }
    Ok(())
}
