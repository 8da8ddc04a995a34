// The real outside: a client at a Unix socket, and a packet over the relay.
use mdns_base::{Dest, Host, Sink, Source};
use mdns_outside::{Air, Door, Ear};
use mdns_real::{RelayAir, RelayEar, UnixDoor, open_socket};
use std::io::{ErrorKind, Read, Write};
use std::net::{Ipv4Addr, SocketAddr, SocketAddrV4, UdpSocket};
use std::os::unix::fs::PermissionsExt;
use std::os::unix::net::UnixStream;
use std::sync::Arc;
use std::test::Fail;
use std::{fs, io};

#[test]
fn a_socket_that_was_left_is_replaced(rt: HostRuntime) -> Result<(), Fail> {
    let first = open_socket(&rt, "s")?;
    assert!(rt; open_socket(&rt, "s").is_err());
    let mode = fs::metadata(&rt, "s")?.permissions().mode();
    assert_eq!(rt; mode & 0o777, 0o600);
    drop(first);
    drop(open_socket(&rt, "s")?);
    drop(fs::File::create(&rt, "f")?);
    assert!(rt; open_socket(&rt, "f").is_err());
    assert!(rt; fs::metadata(&rt, "f").is_ok());
    Ok(())
}

#[test]
fn a_client_is_heard_and_answered(rt: HostRuntime) -> Result<(), Fail> {
    let mut door = UnixDoor::new(rt, open_socket(&rt, "s")?);
    let mut client = UnixStream::connect(&rt, "s")?;
    client.write_all(b"ask")?;
    let Ok(Some((mut input, mut output))) = door.next() else {
        return Err(io::Error::from(ErrorKind::Other).into());
    };
    let mut bytes = [0u8; 8];
    assert_eq!(rt; input.read(&mut bytes), Ok(3));
    assert_eq!(rt; output.put(b"told"), Ok(()));
    output.finish();
    assert_eq!(rt; client.read(&mut bytes)?, 4);
    assert_eq!(rt; bytes, *b"told\0\0\0\0");
    assert_eq!(rt; client.read(&mut bytes)?, 0);
    assert_eq!(rt; door.faults(), 0);
    Ok(())
}

// The address of the daemon whose air and ear are tried.
const ADDRESS: u32 = 0x0a00_0001;

// An air and an ear at one socket, whose peer is that socket.
fn relay(rt: HostRuntime) -> io::Result<(RelayAir, RelayEar<HostRuntime>)> {
    let any = SocketAddr::V4(SocketAddrV4::new(Ipv4Addr::new(127, 0, 0, 1), 0));
    let socket = UdpSocket::bind(&rt, any)?;
    let port = socket.local_addr()?.port();
    let alloc = rt.alloc();
    let socket = Arc::new(alloc, socket)?;
    let peers = Arc::new(alloc, Vec::from_slice(alloc, &[port])?)?;
    let air = RelayAir::new(Arc::try_clone(&socket)?, ADDRESS, peers);
    Ok((air, RelayEar::new(rt, socket, ADDRESS)))
}

// What is sent to a host reaches the daemon of its address alone.
#[test]
fn a_packet_to_another_is_passed_over(rt: HostRuntime) -> Result<(), Fail> {
    let (mut air, mut ear) = relay(rt)?;
    for (ip, packet) in [(ADDRESS + 1, b"others"), (ADDRESS, b"for us")] {
        let host = Host { ip, port: 5353 };
        assert_eq!(rt; air.send(packet, Dest::One(host)), Ok(()));
    }
    let mut bytes = [0u8; 8];
    let Ok(Some(arrival)) = ear.receive(&mut bytes) else {
        return Err(io::Error::from(ErrorKind::Other).into());
    };
    assert_eq!(rt;
        (arrival.from.ip, arrival.from.port, arrival.len),
        (ADDRESS, 5353, 6)
    );
    assert_eq!(rt; bytes, *b"for us\0\0");
    Ok(())
}

#[test]
fn a_packet_comes_as_it_was_sent(rt: HostRuntime) -> Result<(), Fail> {
    let (mut air, mut ear) = relay(rt)?;
    assert_eq!(rt; air.send(b"packet", Dest::All), Ok(()));
    let mut bytes = [0u8; 8];
    let Ok(Some(arrival)) = ear.receive(&mut bytes) else {
        return Err(io::Error::from(ErrorKind::Other).into());
    };
    assert_eq!(rt;
        (arrival.from.ip, arrival.from.port, arrival.len),
        (ADDRESS, 5353, 6)
    );
    assert_eq!(rt; bytes, *b"packet\0\0");
    assert_eq!(rt; ear.faults(), 0);
    Ok(())
}
