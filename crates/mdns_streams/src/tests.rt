// The adapters, with pieces of 100,000 bytes, over readers and writers of std that are made to move a part at a time.
use crate::{Input, Output, ReadError, read_all};
use mdns_base::{Failed, Sink};
use std::alloc::{AllocError, Global};
use std::io::{ErrorKind, Read, Write, pipe};
use std::test::Fail;
use std::{io, thread};

// Moves at most so many bytes at a time, and every other call is interrupted by a signal.
#[derive(Drop)]
struct Slow<T> {
    inner: T,
    most: usize,
    is_interrupted: bool,
}

impl<T> Slow<T> {
    fn new(inner: T, most: usize) -> Slow<T> {
        Slow {
            inner,
            most,
            is_interrupted: false,
        }
    }

    // Fails at every other call.
    fn wait(&mut self) -> io::Result<()> {
        self.is_interrupted = !self.is_interrupted;
        if self.is_interrupted {
            return Err(io::Error::from(ErrorKind::Interrupted));
        }
        Ok(())
    }
}

impl<R: Read> Read for Slow<R> {
    fn read(&mut self, into: &mut [u8]) -> io::Result<usize> {
        self.wait()?;
        let count = into.len().min(self.most);
        self.inner.read(&mut into[..count])
    }
}

impl<W: Write> Write for Slow<W> {
    fn write(&mut self, piece: &[u8]) -> io::Result<usize> {
        self.wait()?;
        let count = piece.len().min(self.most);
        self.inner.write(&piece[..count])
    }

    fn flush(&mut self) -> io::Result<()> {
        self.inner.flush()
    }
}

// How many bytes are moved at a time.
const MOST: [usize; 4] = [1, 1000, 65_536, 1_000_000];

// Bytes that don't repeat after a power of two.
fn long_piece(alloc: Global) -> Result<Vec<u8>, AllocError> {
    let mut piece = Vec::new(alloc);
    for place in 0..100_000u32 {
        piece.push((place % 251) as u8)?;
    }
    Ok(piece)
}

#[test]
fn pieces_are_put_whole(rt: HostRuntime) -> Result<(), Fail> {
    let alloc = rt.alloc();
    let piece = long_piece(alloc)?;
    let mut whole = long_piece(alloc)?;
    whole.extend_from_slice(b"end")?;
    for most in MOST {
        let mut output = Output::new(Slow::new(Vec::new(alloc), most));
        for part in [piece.as_slice(), b"".as_slice(), b"end".as_slice()] {
            output.put(part).map_err(|_| AllocError)?;
        }
        let (faults, Slow { inner: held, .. }) = output.into_parts();
        assert_eq!(rt; faults, 0);
        assert!(rt; held[..] == whole[..], "{most}");
    }
    Ok(())
}

#[test]
fn a_full_writer_has_the_front(rt: HostRuntime) -> Result<(), Fail> {
    let alloc = rt.alloc();
    let piece = long_piece(alloc)?;
    let mut room = vec![in alloc; 0u8; 60_000]?;
    let mut output = Output::new(Slow::new(room.as_mut_slice(), 1000));
    assert_eq!(rt; output.put(&piece), Err(Failed));
    assert_eq!(rt; output.into_parts().0, 1);
    assert!(rt; piece.starts_with(&room));
    Ok(())
}

#[test]
fn input_is_read_whole(rt: HostRuntime) -> Result<(), Fail> {
    let alloc = rt.alloc();
    let piece = long_piece(alloc)?;
    for most in MOST {
        let mut input = Input::new(Slow::new(piece.as_slice(), most));
        let all = read_all(alloc, &mut input, 1_000_000).map_err(|_| AllocError)?;
        assert_eq!(rt; input.faults(), 0);
        assert!(rt; all[..] == piece[..], "{most}");
    }
    Ok(())
}

// A pipe of the system holds less than a piece, so each end waits for the other.
#[test]
fn a_pipe_carries_pieces_whole(rt: HostRuntime) -> Result<(), Fail> {
    let alloc = rt.alloc();
    let (reader, writer) = pipe(&rt)?;
    let piece = long_piece(alloc)?;
    let mut whole = long_piece(alloc)?;
    whole.extend_from_slice(&piece)?;
    let putter = thread::spawn(&rt, move || {
        let mut output = Output::new(writer);
        output.put(&piece).is_ok() && output.put(&piece).is_ok()
    })?;
    let mut input = Input::new(reader);
    let all = read_all(alloc, &mut input, 1_000_000).map_err(|_| AllocError)?;
    assert!(rt; putter.join(&rt));
    assert!(rt; all[..] == whole[..]);
    Ok(())
}

// One byte more than an input may have.
#[test]
fn an_input_may_be_too_large(rt: HostRuntime) -> Result<(), Fail> {
    let alloc = rt.alloc();
    let piece = long_piece(alloc)?;
    let mut input = Input::new(piece.as_slice());
    let read = read_all(alloc, &mut input, 99_999);
    match read {
        Err(ReadError::NoMemory) => Err(AllocError)?,
        read => assert_eq!(rt; read.err(), Some(ReadError::TooLarge)),
    }
    Ok(())
}
