//! The standard streams of a server.
use std::fs::{File, OpenOptions};
use std::os::fd::{AsRawFd, IntoRawFd};
use std::rt::Files;

// The number of the last one, standard error.
const LAST: i32 = 2;

/// Opens the null device in place of each standard stream that is closed, and says whether all are open: else a client would get the
/// number of one, and be sent what is meant for people.
pub(crate) fn open_closed<R: Files<File = File>>(rt: &R) -> bool {
    let mut how = OpenOptions::new();
    how.read(true).write(true);
    for _ in 0..=LAST {
        // The system gives the lowest number that is free.
        let Ok(file) = how.open(rt, "/dev/null") else {
            return are_open(rt);
        };
        if file.as_raw_fd() > LAST {
            return true;
        }
        // It is open as long as the process is.
        let _ = file.into_raw_fd();
    }
    true
}

// Whether none is closed, where there is no null device.
fn are_open<R: Files<File = File>>(rt: &R) -> bool {
    match File::open(rt, "/") {
        Ok(root) => root.as_raw_fd() > LAST,
        Err(_) => false,
    }
}
