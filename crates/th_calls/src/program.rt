//! Calls of th_program. Its readers and writers are files.
use std::alloc::Global;
use std::fs::File;
use std::process::ExitCode;
use th_lines::Counted;
use th_program::{
    Advising, Anchor, End, Opens, Wanted, check_by_words, check_files, check_joined, explanation,
    given_words, greet, mode, part_name, run, run_for, run_not_text, run_on_streams, run_short,
    status, sum_of, texts,
};

pub fn say(errors: &mut Counted<File>) {
    let _ = run_short(errors);
    let _ = run_not_text(errors);
    greet(errors, true);
}

pub fn advise(output: File, errors: File) -> Advising<File, File> {
    Advising::new(output, errors, true)
}

pub fn run_with(
    alloc: Global,
    words: &[&str],
    input: &mut Counted<File>,
    output: &mut Counted<File>,
    errors: &mut Counted<File>,
) {
    let _ = run(alloc, words, input, output, errors);
    let _ = run_for(alloc, words, input, output, errors, true);
}

pub fn check_with(
    rt: &HostRuntime,
    alloc: Global,
    words: &[&str],
    names: &[String],
    output: &mut Counted<File>,
    errors: &mut Counted<File>,
    input: &mut File,
) {
    let _ = rt.open("t.1.trace");
    let _ = rt.list(alloc, "traces");
    let _ = check_files(alloc, rt, names, output, errors, true);
    let told = [Anchor {
        path: b"1/t.00000000000000000001.trace",
        digits: b"0",
    }];
    let wanted = Wanted {
        whole: false,
        anchors: Some(&told),
    };
    let _ = check_joined(alloc, rt, names, wanted, output, errors, true);
    let _ = check_by_words(alloc, rt, words, input, output, errors, true);
    let first = sum_of(None, input);
    let _ = sum_of(first, input);
}

pub fn read_words(rt: &HostRuntime, alloc: Global, words: &[&str], given: &[String]) {
    let _ = mode(alloc, words);
    let _ = given_words(rt);
    let _ = texts(alloc, given);
    let _ = part_name(alloc, b"news", 1);
}

pub fn run_main(rt: &HostRuntime, given: &[String]) -> ExitCode {
    run_on_streams(rt, Ok(given))
}

pub fn tell(end: &End) -> (u8, Option<&'static str>) {
    (status(end), explanation(end))
}
