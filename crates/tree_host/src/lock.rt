// The lock on a directory of the host, so that one process at a time works on it.
use std::fs::{self, File, TryLockError};
use std::io::ErrorKind;

/// What came of locking a directory.
#[derive(Drop)]
pub(crate) enum Locked {
    /// It is locked for as long as the handle is open.
    Held(File),
    /// No directory stands there, so there is nothing to lock.
    NoDirectory,
    /// It is in use, or the host can't say.
    Refused,
}

/// Locks a directory of the host, where nobody has it. Who locks it by two handles is refused the second, so one directory that is
/// named twice is seen.
pub(crate) fn lock_dir(rt: &HostRuntime, dir: &str) -> Locked {
    match fs::metadata(rt, dir) {
        Ok(metadata) if metadata.is_dir() => lock_standing(rt, dir),
        Ok(_) => Locked::NoDirectory,
        Err(e) if matches!(e.kind(), ErrorKind::NotFound | ErrorKind::NotADirectory) => {
            Locked::NoDirectory
        }
        Err(_) => Locked::Refused,
    }
}

fn lock_standing(rt: &HostRuntime, dir: &str) -> Locked {
    let Ok(file) = fs::open(rt, dir) else {
        return Locked::Refused;
    };
    match file.try_lock() {
        Ok(()) => Locked::Held(file),
        Err(TryLockError::WouldBlock | TryLockError::Error(_)) => Locked::Refused,
    }
}
