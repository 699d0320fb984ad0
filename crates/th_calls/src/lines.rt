//! Calls of th_lines. Its readers and writers are files.
use std::alloc::{AllocError, Global};
use std::fs::File;
use th_lines::fields::{cut, number, number_and_rest, value};
use th_lines::{
    Counted, Feeder, Intake, Lines, Reply, TakesLines, ValueWord, WriteBuffer, front_line, laws,
    name_and_rest, read_command,
};
use th_model::Value;

pub fn law() {
    laws::one_spelling();
    laws::one_spelling_of_steps();
    laws::one_spelling_of_numbers();
    laws::line_rules();
}

pub fn count(device: File) -> File {
    Counted::new(device).into_device()
}

pub fn look_at_counts(counted: &Counted<File>) -> (u64, u64) {
    let _ = counted.device();
    (counted.calls(), counted.failures())
}

pub fn read(reader: &mut Counted<File>, bytes: &mut [u8]) {
    let _ = reader.read_some(bytes);
}

pub fn write(writer: &mut Counted<File>, bytes: &[u8]) {
    if !bytes.is_empty() {
        let _ = writer.write_some(bytes, true);
    }
    let _ = writer.flush(true);
}

pub fn fields(alloc: Global, bytes: &[u8]) {
    let _ = cut(bytes);
    let _ = number(bytes);
    let _ = number_and_rest(bytes);
    let _ = name_and_rest(bytes);
    let _ = value(alloc, bytes);
}

pub fn commands(alloc: Global, line: &[u8]) {
    let _ = read_command(alloc, line);
}

pub fn take_in(alloc: Global, intake: &mut Intake, reader: &mut Counted<File>) -> bool {
    let _ = Intake::new(alloc);
    if !intake.next_line() {
        let _ = intake.fill(reader);
    }
    let _ = intake.line(true);
    let _ = front_line(intake.ahead());
    intake.is_empty()
}

pub fn pass(intake: &mut Intake) {
    intake.pass(0);
}

pub fn end_intake(intake: &mut Intake) {
    if !intake.next_line() {
        let _ = intake.last_line();
    }
}

/// Takes each line, and keeps nothing of it.
#[derive(Drop)]
pub struct Taken;

impl TakesLines<(), ()> for Taken {
    type Stop = ();

    ghost took = { λ _ _ _. Unit {0} };

    ghost halts = { λ _ _ _ _. Unit {0} };

    ghost is_settled = { λ _. Unit {0} };

    fn settle(&mut self, _desk: &mut (), _writer: &mut (), _taken: u64) -> Result<(), ()> {
        Ok(())
    }

    fn take(
        &mut self,
        _alloc: Global,
        _desk: &mut (),
        _writer: &mut (),
        _taken: u64,
        _line: Option<&[u8]>,
    ) -> Result<(), ()> {
        Ok(())
    }
}

pub fn take_one(alloc: Global, taken: &mut Taken, intake: &Intake) {
    let _ = taken.settle(&mut (), &mut (), 0);
    let _ = taken.take_row(alloc, &mut (), &mut (), 0, 7, intake);
    let _ = taken.take(alloc, &mut (), &mut (), 0, intake.line(false));
}

pub fn feed(alloc: Global, reader: &mut Counted<File>) -> u64 {
    let Ok(mut feeder) = Feeder::new(alloc, 7) else {
        return 0;
    };
    let _ = feeder.feed(&mut Taken, alloc, &mut (), &mut (), reader, 7);
    let _ = feeder.line();
    feeder.taken()
}

/// No lines.
#[derive(Drop)]
pub struct Nothing;

impl Lines for Nothing {
    ghost use Rattle.std.specs.Prelude.{[]};

    ghost to_come = { λ _. [] };

    fn print_next(&mut self, _out: &mut Vec<u8>) -> Result<bool, AllocError> {
        Ok(false)
    }
}

pub fn print_next(lines: &mut Nothing, out: &mut Vec<u8>) {
    let _ = lines.print_next(out);
}

pub fn wait(buffer: &mut WriteBuffer, writer: &mut Counted<File>, reply: &Reply, value: &Value) {
    let _ = buffer.append(writer, reply);
    let _ = buffer.append_value(writer, ValueWord::Was, value);
}

pub fn wait_for_lines(buffer: &mut WriteBuffer, writer: &mut Counted<File>) {
    let _ = buffer.append_lines(writer, &mut Nothing);
}

pub fn write_out(alloc: Global, buffer: &mut WriteBuffer, writer: &mut Counted<File>) -> bool {
    let _ = WriteBuffer::new(alloc);
    let _ = buffer.flush(writer);
    buffer.has_room() && buffer.has_room_for(7)
}
