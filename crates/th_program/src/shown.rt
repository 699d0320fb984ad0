//! Names, printed so that each stands on its line and does nothing to a terminal.
ghost use Rattle.std.specs.Prelude.{◌≡◌, ◌≤◌, ◌<◌, ◌-◌, ◌⊎◌, drop, length, take, true, false, ◌++◌};
ghost use Rattle.std.specs.Io.KnownBytes.{Appends};
ghost use Rattle.th_lines.specs.Device.{one_more};
ghost use Rattle.th_program.specs.Run.{IsSaid, errors_of};
ghost use Rattle.th_program.specs.Shown.{are_control, control_at, is_control, mark, shown};

use crate::program::write_text;
use std::io::Write;
use th_lines::Counted;

// Whether the byte is a control character.
fn is_control(byte: u8) -> bool
    ensures { result ≡ is_control byte }
{
    byte < 32 || byte == 127
}

// Whether the two are one, U+0080 to U+009F, where they are text.
fn are_control(byte: u8, next: u8) -> bool
    ensures { result ≡ are_control byte next }
{
    byte == 194 && next < 160
}

// How many bytes the control character has that stands at this place; 0 where there is none.
fn control_at(name: &[u8], at: usize) -> usize
    ensures { result ≡ control_at (drop at name.now) }
{
    if at >= name.len() {
        return 0;
    }
    if is_control(name[at]) {
        return 1;
    }
    let next = at + 1;
    if next < name.len() && are_control(name[at], name[next]) {
        2
    } else {
        0
    }
}

// What is printed in the place of a control character of so many bytes.
fn mark(control: usize) -> &'static [u8]
    ensures { result.now ≡ mark control }
{
    if control > 0 { b"?" } else { b"" }
}

// Where the next control character stands from this place on, or the end.
fn plain_end(name: &[u8], from: usize) -> usize
    requires within { from ≤ length name.now }
    ensures bounds { (from ≤ result) × (result ≤ length name.now) }
    ensures plain { shown (drop from name.now)
        ≡ take (result - from) (drop from name.now) ++ shown (drop result name.now) }
    ensures stops { (result ≡ length name.now) ⊎ (0 < control_at (drop result name.now)) }
{
    let mut at = from;
    while at < name.len() {
        if control_at(name, at) > 0 {
            return at;
        }
        at += 1;
    }
    at
}

// Writes a name as it is shown; `false` where the writer failed. It takes no memory.
pub(crate) fn write_shown<W: Write>(writer: &mut Counted<W>, name: &[u8]) -> bool
    ensures whole { result ≡ true → Appends
        (W.contents writer.old.device) (W.contents writer.new.device) (shown name.now) }
    ensures taken { result ≡ true → writer.new.failures ≡ writer.old.failures }
    ensures failed { result ≡ false → writer.new.failures ≡ one_more writer.old.failures }
{
    let mut at = 0;
    while at < name.len() {
        let end = plain_end(name, at);
        if !write_text(writer, &name[at..end]) {
            return false;
        }
        let control = control_at(name, end);
        if !write_text(writer, mark(control)) {
            return false;
        }
        at = end + control;
    }
    true
}

// Says a name as an error, as it is shown.
pub(crate) fn say_shown<E: Write>(errors: &mut Counted<E>, name: &[u8])
    ensures said { IsSaid
        (errors_of E.contents errors.old)
        (errors_of E.contents errors.new)
        (shown name.now) }
    ensures still { errors.new.failures ≡ 0 → errors.old.failures ≡ 0 }
{
    let _ = write_shown(errors, name);
}
