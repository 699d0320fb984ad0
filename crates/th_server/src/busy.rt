//! What a client is told for whom there is no place.
ghost use Rattle.std.specs.Prelude.{OnOk};
ghost use Rattle.std.specs.Io.KnownBytes.{Appends};
ghost use Rattle.th_server.specs.Busy.{busy_line};

use crate::elapsed::has_passed;
use std::io;
use std::io::{ErrorKind, Read, Write};
use std::net::Shutdown;
use std::os::unix::net::UnixStream;
use std::time::{Clock, Duration, Instant};

// How long what the client sends is let go of at most, in milliseconds.
const LAST: u64 = 100;

// How long one read of that may take, in milliseconds.
const LOOK: u64 = 10;

// Tells it so, by the one line that it gets. No session answers that line: it is a refusal of the server's own, so no reply of a
// session has its number.
fn tell<W: Write>(writer: &mut W) -> io::Result<()>
    ensures { OnOk result (Appends (W.contents writer.old) (W.contents writer.new) busy_line) }
{
    writer.write_all(b"ERR 24 busy\n")
}

// Lets go of what the client sends until it has closed the connection, or a moment has gone by. Where the connection were closed at once,
// a client that sends before it reads would see a fault in place of the line.
fn let_go<R: Clock>(rt: &R, stream: &UnixStream) {
    let begun = Instant::now(rt).ok();
    let mut reader = stream;
    let mut buffer = [0u8; 4096];
    for _ in 0..u64::MAX {
        match reader.read(&mut buffer) {
            Ok(0) => return,
            Ok(_) => {}
            Err(e) if matches!(e.kind(), ErrorKind::WouldBlock | ErrorKind::Interrupted) => {}
            Err(_) => return,
        }
        // Without a clock nothing else would end it.
        if has_passed(rt, begun, LAST).unwrap_or(true) {
            return;
        }
    }
}

/// Tells a client that as many are served as may be. Its connection is to be closed then.
pub(crate) fn refuse<R: Clock>(rt: &R, stream: &UnixStream) {
    let mut writer = stream;
    let is_told = tell(&mut writer).is_ok()
        && stream.shutdown(Shutdown::Write).is_ok()
        && stream
            .set_read_timeout(Some(Duration::from_millis(LOOK)))
            .is_ok();
    if is_told {
        let_go(rt, stream);
    }
}
