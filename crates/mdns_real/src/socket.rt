// The socket to which clients connect.
use std::fs::{Files, Permissions};
use std::io::ErrorKind;
use std::net::Net;
use std::os::unix::fs::{FileTypeExt, PermissionsExt};
use std::os::unix::net::{UnixListener, UnixStream};
use std::{fs, io};

/// The mode of the socket's file: only its owner may connect.
const MODE: u32 = 0o600;

/// Listens at a path. A socket's file that an earlier daemon left there is replaced; the file's mode is 0600.
///
/// - `AddrInUse`: a daemon is listening there, the file is the socket of another user, or it is no socket.
/// - Others are as the system tells them.
pub fn open_socket<R: Files + Net>(rt: &R, path: &str) -> io::Result<UnixListener> {
    let listener = match UnixListener::bind(rt, path) {
        Err(error) if error.kind() == ErrorKind::AddrInUse && is_left(rt, path) => {
            fs::remove_file(rt, path)?;
            UnixListener::bind(rt, path)?
        }
        bound => bound?,
    };
    fs::set_permissions(rt, path, Permissions::from_mode(MODE))?;
    Ok(listener)
}

// Whether a socket's file stands at the path at which nobody listens.
fn is_left<R: Files + Net>(rt: &R, path: &str) -> bool {
    let is_socket = fs::symlink_metadata(rt, path).is_ok_and(|found| found.file_type().is_socket());
    is_socket
        && UnixStream::connect(rt, path).is_err_and(|e| e.kind() == ErrorKind::ConnectionRefused)
}
