//! The words of the command line.

ghost use Rattle.std.specs.Prelude.{◌≡◌, ◌≢◌, ◌⊎◌, ◌≤◌, ◌||◌, IfErr, IfOk, IfSome, IsOk, IsSome, MatchResult, Ok, OnOk, ℕ, [], codes, false, is_some, map, option_map, string_bytes};
ghost use Rattle.clap.specs.declared.builder.command.Command.TheViews.{out-Command};
ghost use Rattle.clap.specs.Words.{app_of, fault_of, first_of, found_of, kind_of, new_app, rows_of, rule_of, subcommand_name_of, subcommand_rows_of, with_rule, with_subcommand};
ghost use Rattle.th_program.specs.Words.{AreCheck, AreReplay, AreHelp, AreRight, AreServe, AreVersion, AreNone, AsksAtOnce, AsksBytes, AsksFor, AsksHistory, AsksMemory, AsksRightly, AsksSocket, CountsIf, IsCount, IsCountIf, IsHelp, IsMode, IsUsage, GivesCheck, GivesMode, GivesReplay, GivesFault, HasFiles, HasSessions, IsList, IsWithin, ServesBy, StandsBy, arguments_by, arguments_of, asked_by, asked_of, check_line, command_line, flag_of, has, has_flags, has_guarding, has_keeping, has_others, is_given, lacks_traces, manner_of, option_of, replaces_bound, serve_line, text_of, with_guarding, with_history, with_keeping, with_required, with_standing};

use crate::help::{
    ABOUT, AFTER, CHECK_ABOUT, CHECK_AFTER, CHECK_ANCHORS, CHECK_DASHED, CHECK_FILES, CHECK_INPUT,
    CHECK_JOINED, CHECK_LIST, CHECK_WHOLE, NO_FILES, REPLAY_ABOUT, REPLAY_AFTER, REPLAY_INPUT,
    SERVE_ABOUT, SERVE_AFTER, SERVE_ANCHORS, SERVE_AT_ONCE, SERVE_BUSY, SERVE_HISTORY, SERVE_INPUT,
    SERVE_MEMORY, SERVE_MEMORY_BYTES, SERVE_PATH, SERVE_REPLACE, SERVE_SESSIONS, SERVE_SOCKET_FD,
    SERVE_SYNC, SERVE_TRACES, SERVE_UNTIL_EOF, SERVE_VERBOSE, VERSION,
};
use crate::modes::{Asked, Manner, Mode, ModeFault, Serving, Sources, Standing};
use clap::error::ErrorKind;
use clap::{Arg, ArgAction, ArgMatches, Command, Error};
use std::alloc::{AllocError, Global};

/// The most sessions of a server that ends behind them.
const MOST_SESSIONS: u64 = 64;

/// The most sessions at a time of one that stands.
const MOST_AT_ONCE: u64 = 1024;

/// From how many entries on a history is cut, at most.
const MOST_HISTORY: u64 = 1_000_000;

/// And where that is not said.
const HISTORY: u64 = 100_000;

/// How many entries all histories hold together: the least and the most.
const LEAST_MEMORY: u64 = 1024;

const MOST_MEMORY: u64 = 1_000_000_000;

/// And where that is not said.
const MEMORY: u64 = 2_000_000;

/// How many bytes topics, histories and sessions take together: the least, 64 MiB, and the most, 1 TiB.
const LEAST_BYTES: u64 = 67_108_864;

const MOST_BYTES: u64 = 1_099_511_627_776;

/// The descriptors that are none of the standard streams.
const LEAST_FD: u64 = 3;

const MOST_FD: u64 = 1023;

/// What is said where it is not one of both.
const SESSIONS_OR_AT_ONCE: &str = "give exactly one of '--sessions <N>' and '--at-once <N>'";

/// What is said where other words are given with sessions.
const OTHERS_WITH_AT_ONCE: &str =
    "'--replace', '--until-eof', '--verbose', '--history', '--memory', '--traces', '--socket-fd', '--busy', '--memory-bytes', '--sync' and '--anchors' go with '--at-once <N>' alone";

/// What is said where a socket that is bound already is to be replaced.
const REPLACE_OR_SOCKET_FD: &str =
    "'--replace' does not go with '--socket-fd <FD>': that socket is bound already";

/// What is said where it is said how traces are written, and none are.
const NO_TRACES: &str =
    "'--sync' and '--anchors' need '--traces <DIR>': no trace is written without it";

/// What is said where files that are no history are to be a whole one.
const WHOLE_OF_NONE: &str = "'--whole' needs '--joined': only a history can be whole";

/// What is said where files that are no history are to be those of anchors.
const ANCHORS_OF_NONE: &str =
    "'--anchors <ANCHORS>' needs '--joined': only the files of a history have anchors";

/// What is said where files are named by words and by a list.
const FILES_OR_LIST: &str = "'--files-from <LIST>' goes without other files";

impl From<AllocError> for ModeFault {
    fn from(_: AllocError) -> ModeFault {
        ModeFault::Short
    }
}

// The program with one mode.
fn with_replay<'a>(alloc: Global) -> Result<Command<'a>, AllocError>
    ensures { IfOk result (λ c. app_of c ≡
        with_subcommand (with_required (new_app (codes "topichub")))
        (new_app (codes "replay")).top) }
{
    let replay = Command::new(alloc, "replay")
        .about(REPLAY_ABOUT)
        .after_help(REPLAY_AFTER);
    Command::new(alloc, "topichub")
        .about(ABOUT)
        .after_help(AFTER)
        .version(VERSION)
        .subcommand_required(true)
        .subcommand(replay)
}

// The mode that checks, with its words.
fn check_command<'a>(alloc: Global) -> Result<Command<'a>, AllocError>
    ensures app { IfOk result (λ c. app_of c ≡ check_line) }
    ensures local { IfOk result (λ c. (out-Command c).has_globals ≡ false) }
{
    let files = Arg::new(alloc, "FILE")
        .help(CHECK_FILES)
        .action(ArgAction::Append);
    let check = Command::new(alloc, "check")
        .about(CHECK_ABOUT)
        .after_help(CHECK_AFTER);
    let check = with_arg(check, files)?;
    let check = with_history(alloc, check)?;
    with_arg(check, option(alloc, "files-from", "LIST", CHECK_LIST))
}

// The same with the words of a history.
fn with_history<'a>(alloc: Global, check: Command<'a>) -> Result<Command<'a>, AllocError>
    ensures app { IfOk result (λ c. app_of c ≡ with_history (app_of check.entry)) }
    ensures local { (out-Command check.entry).has_globals ≡ false →
        IfOk result (λ c. (out-Command c).has_globals ≡ false) }
{
    let check = with_arg(check, flag(alloc, "joined", CHECK_JOINED))?;
    let check = with_arg(check, flag(alloc, "whole", CHECK_WHOLE))?;
    with_arg(check, option(alloc, "anchors", "ANCHORS", CHECK_ANCHORS))
}

// The program with that mode more.
fn with_check<'a>(alloc: Global, program: Command<'a>) -> Result<Command<'a>, AllocError>
    ensures { IfOk result (λ c. app_of c ≡
        with_subcommand (app_of program.entry) check_line.top) }
{
    match check_command(alloc) {
        Ok(check) => program.subcommand(check),
        Err(e) => Err(e),
    }
}

// The mode that serves, with its words.
fn serve_command<'a>(alloc: Global) -> Result<Command<'a>, AllocError>
    ensures app { IfOk result (λ c. app_of c ≡ serve_line) }
    ensures local { IfOk result (λ c. (out-Command c).has_globals ≡ false) }
{
    let path = Arg::new(alloc, "PATH").help(SERVE_PATH).required(true);
    let serve = Command::new(alloc, "serve")
        .about(SERVE_ABOUT)
        .after_help(SERVE_AFTER);
    let serve = with_arg(serve, path)?;
    let serve = with_arg(serve, option(alloc, "sessions", "N", SERVE_SESSIONS))?;
    let serve = with_standing(alloc, serve)?;
    with_further(alloc, serve)
}

// The same with the first words of a server that stands.
fn with_standing<'a>(alloc: Global, serve: Command<'a>) -> Result<Command<'a>, AllocError>
    ensures app { IfOk result (λ c. app_of c ≡ with_standing (app_of serve.entry)) }
    ensures local { (out-Command serve.entry).has_globals ≡ false →
        IfOk result (λ c. (out-Command c).has_globals ≡ false) }
{
    let serve = with_arg(serve, option(alloc, "at-once", "N", SERVE_AT_ONCE))?;
    let serve = with_arg(serve, flag(alloc, "replace", SERVE_REPLACE))?;
    let serve = with_arg(serve, flag(alloc, "until-eof", SERVE_UNTIL_EOF))?;
    with_arg(serve, flag(alloc, "verbose", SERVE_VERBOSE))
}

// The same with all others.
fn with_further<'a>(alloc: Global, serve: Command<'a>) -> Result<Command<'a>, AllocError>
    ensures app { IfOk result (λ c. app_of c ≡ with_guarding (with_keeping (app_of serve.entry))) }
    ensures local { (out-Command serve.entry).has_globals ≡ false →
        IfOk result (λ c. (out-Command c).has_globals ≡ false) }
{
    let serve = with_keeping(alloc, serve)?;
    with_guarding(alloc, serve)
}

// The same with its further ones.
fn with_keeping<'a>(alloc: Global, serve: Command<'a>) -> Result<Command<'a>, AllocError>
    ensures app { IfOk result (λ c. app_of c ≡ with_keeping (app_of serve.entry)) }
    ensures local { (out-Command serve.entry).has_globals ≡ false →
        IfOk result (λ c. (out-Command c).has_globals ≡ false) }
{
    let serve = with_arg(serve, option(alloc, "history", "K", SERVE_HISTORY))?;
    let serve = with_arg(serve, option(alloc, "memory", "M", SERVE_MEMORY))?;
    let serve = with_arg(serve, option(alloc, "traces", "DIR", SERVE_TRACES))?;
    with_arg(serve, option(alloc, "socket-fd", "FD", SERVE_SOCKET_FD))
}

// The same with those that guard it.
fn with_guarding<'a>(alloc: Global, serve: Command<'a>) -> Result<Command<'a>, AllocError>
    ensures app { IfOk result (λ c. app_of c ≡ with_guarding (app_of serve.entry)) }
    ensures local { (out-Command serve.entry).has_globals ≡ false →
        IfOk result (λ c. (out-Command c).has_globals ≡ false) }
{
    let serve = with_arg(serve, flag(alloc, "busy", SERVE_BUSY))?;
    let serve = with_arg(
        serve,
        option(alloc, "memory-bytes", "B", SERVE_MEMORY_BYTES),
    )?;
    let serve = with_arg(serve, flag(alloc, "sync", SERVE_SYNC))?;
    with_arg(serve, flag(alloc, "anchors", SERVE_ANCHORS))
}

// One argument more, which is the command's own.
fn with_arg<'a>(command: Command<'a>, arg: Arg<'a>) -> Result<Command<'a>, AllocError>
    requires { arg.global ≡ false }
    ensures app { IfOk result (λ c.
        app_of c ≡ with_rule (app_of command.entry) (rule_of arg.entry)) }
    ensures local { IfOk result (λ c.
        (out-Command c).has_globals ≡ (out-Command command.entry).has_globals) }
{
    command.arg(arg)
}

// A word with a text behind it, which help calls by this name.
fn option<'a>(alloc: Global, word: &'a str, name: &'a str, help: &'a str) -> Arg<'a>
    ensures rule { rule_of result ≡ option_of word.entry.now }
    ensures local { result.global ≡ false }
{
    Arg::new(alloc, word).long(word).value_name(name).help(help)
}

// A word that is given or not.
fn flag<'a>(alloc: Global, word: &'a str, help: &'a str) -> Arg<'a>
    ensures rule { rule_of result ≡ flag_of word.entry.now }
    ensures local { result.global ≡ false }
{
    Arg::new(alloc, word)
        .long(word)
        .help(help)
        .action(ArgAction::SetTrue)
}

// The program with that mode more.
fn with_serve<'a>(alloc: Global, program: Command<'a>) -> Result<Command<'a>, AllocError>
    ensures { IfOk result (λ c. app_of c ≡
        with_subcommand (app_of program.entry) serve_line.top) }
{
    match serve_command(alloc) {
        Ok(serve) => program.subcommand(serve),
        Err(e) => Err(e),
    }
}

// The command line, as `clap` knows it.
fn program_command<'a>(alloc: Global) -> Result<Command<'a>, AllocError>
    ensures { IfOk result (λ c. app_of c ≡ command_line) }
{
    let program = match with_replay(alloc) {
        Ok(program) => program,
        Err(e) => return Err(e),
    };
    match with_check(alloc, program) {
        Ok(program) => with_serve(alloc, program),
        Err(e) => Err(e),
    }
}

// What `clap`'s refusal of the words means.
fn refused(alloc: Global, error: Error) -> ModeFault
    ensures help { kind_of error ≡ ErrorKind.DisplayHelp
        → IsHelp result ⊎ (result ≡ ModeFault.Short) }
    ensures version { kind_of error ≡ ErrorKind.DisplayVersion
        → IsHelp result ⊎ (result ≡ ModeFault.Short) }
    ensures short { kind_of error ≡ ErrorKind.OutOfMemory → result ≡ ModeFault.Short }
    ensures usage { kind_of error ≢ ErrorKind.DisplayHelp
        → kind_of error ≢ ErrorKind.DisplayVersion
        → kind_of error ≢ ErrorKind.OutOfMemory
        → IsUsage result ⊎ (result ≡ ModeFault.Short) }
{
    let kind = error.kind();
    let Ok(text) = error.to_string(alloc) else {
        return ModeFault::Short;
    };
    match kind {
        ErrorKind::OutOfMemory => ModeFault::Short,
        ErrorKind::DisplayHelp => ModeFault::Help(text),
        ErrorKind::DisplayVersion => ModeFault::Help(text),
        _ => ModeFault::Usage(text),
    }
}

// Which mode a command's name is of. There are three.
fn asked(name: Option<&str>) -> Asked
    ensures { result ≡ asked_of (option_map (λ n. n.now) name.entry) }
{
    match name {
        Some(word) if word == "check" => Asked::Check,
        Some(word) if word == "serve" => Asked::Serve,
        _ => Asked::Replay,
    }
}

// The number in the text, where it is one from the least to the most.
fn count_in(text: &str, least: u64, most: u64) -> Option<u64>
    ensures number { IfSome result (IsCount least most text.now) }
    ensures none { (n : ℕ) → IsCount least most text.now n → IsSome result }
{
    let Ok(count) = text.parse::<u64>() else {
        return None;
    };
    if least <= count && count <= most {
        Some(count)
    } else {
        None
    }
}

// What is wrong with the words, if there was memory to say it.
fn wrong(made: Result<String, AllocError>) -> ModeFault
    ensures { IsUsage result ⊎ (result ≡ ModeFault.Short) }
{
    match made {
        Ok(text) => ModeFault::Usage(text),
        Err(_) => ModeFault::Short,
    }
}

// What is wrong with such a text behind this word, which help calls by that name.
fn wrong_count(
    alloc: Global,
    word: &str,
    name: &str,
    text: &str,
    least: u64,
    most: u64,
) -> ModeFault
    ensures { IsUsage result ⊎ (result ≡ ModeFault.Short) }
{
    wrong(format!(in alloc;
        "error: invalid value '{text}' for '--{word} <{name}>': expected a number from {least} to {most}\n\nFor more information, try '--help'.\n"
    ))
}

// What is wrong with words that may not stand together, or are missing.
fn wrong_words(alloc: Global, why: &str) -> ModeFault
    ensures { IsUsage result ⊎ (result ≡ ModeFault.Short) }
{
    wrong(format!(in alloc; "error: {why}\n\nFor more information, try '--help'.\n"))
}

// The text behind this word, where one was given.
fn given<'a>(words: &ArgMatches<'a>, word: &str) -> Option<&'a str>
    ensures { option_map (λ t. t.now) result ≡ first_of word.now (rows_of (found_of words.now)) }
{
    words.get_str(word)
}

// Whether a text was given behind this word.
fn has(words: &ArgMatches<'_>, word: &str) -> bool
    ensures { result ≡ has word.now (rows_of (found_of words.now)) }
{
    given(words, word).is_some()
}

// The text behind this word, none where there is none.
fn text<'a>(words: &ArgMatches<'a>, word: &str) -> &'a str
    ensures { result.now ≡ text_of word.now (rows_of (found_of words.now)) }
{
    given(words, word).unwrap_or("")
}

// Whether this word was given, which takes no text.
fn is_given(words: &ArgMatches<'_>, word: &str) -> bool
    ensures { result ≡ is_given word.now (rows_of (found_of words.now)) }
{
    text(words, word) == "true"
}

// Whether a word was given that takes no text and goes with a server that stands.
fn has_flags(words: &ArgMatches<'_>) -> bool
    ensures { result ≡ has_flags (rows_of (found_of words.now)) }
{
    is_given(words, "replace") || is_given(words, "until-eof") || is_given(words, "verbose")
}

// Whether one was given that says what it keeps and where, or which socket is its own.
fn has_keeping(words: &ArgMatches<'_>) -> bool
    ensures { result ≡ has_keeping (rows_of (found_of words.now)) }
{
    has(words, "history") || has(words, "memory") || has(words, "traces") || has(words, "socket-fd")
}

// Whether one was given that guards it.
fn has_guarding(words: &ArgMatches<'_>) -> bool
    ensures { result ≡ has_guarding (rows_of (found_of words.now)) }
{
    is_given(words, "busy")
        || has(words, "memory-bytes")
        || is_given(words, "sync")
        || is_given(words, "anchors")
}

// Whether any word was given that goes with a server that stands, beside how many sessions at a time.
fn has_others(words: &ArgMatches<'_>) -> bool
    ensures { result ≡ has_others (rows_of (found_of words.now)) }
{
    has_flags(words) || has_keeping(words) || has_guarding(words)
}

// Whether a socket that is bound already is to be replaced.
fn replaces_bound(words: &ArgMatches<'_>) -> bool
    ensures { result ≡ replaces_bound (rows_of (found_of words.now)) }
{
    is_given(words, "replace") && has(words, "socket-fd")
}

// Whether it is said how traces are written, and none are.
fn lacks_traces(words: &ArgMatches<'_>) -> bool
    ensures { result ≡ lacks_traces (rows_of (found_of words.now)) }
{
    (is_given(words, "sync") || is_given(words, "anchors")) && !has(words, "traces")
}

// Why words of a server that stands do not go together, where they do not.
fn unfit(words: &ArgMatches<'_>) -> Option<&'static str>
    ensures { let rows = rows_of (found_of words.now) in
        is_some result ≡ (replaces_bound rows || lacks_traces rows) }
{
    if replaces_bound(words) {
        Some(REPLACE_OR_SOCKET_FD)
    } else if lacks_traces(words) {
        Some(NO_TRACES)
    } else {
        None
    }
}

// The number in the text behind this word, which help calls by that name.
fn count(
    alloc: Global,
    word: &str,
    name: &str,
    text: &str,
    least: u64,
    most: u64,
) -> Result<u64, ModeFault>
    ensures number { IfOk result (IsCount least most text.now) }
    ensures rightly { (n : ℕ) → IsCount least most text.now n → IsOk result }
    ensures wrong { IfErr result (λ fault. IsUsage fault ⊎ (fault ≡ ModeFault.Short)) }
{
    match count_in(text, least, most) {
        Some(count) => Ok(count),
        None => Err(wrong_count(alloc, word, name, text, least, most)),
    }
}

// The same where a text was given.
fn count_if(
    alloc: Global,
    words: &ArgMatches<'_>,
    word: &str,
    name: &str,
    least: u64,
    most: u64,
) -> Result<Option<u64>, ModeFault>
    ensures number { let given = first_of word.now (rows_of (found_of words.now)) in
        IfOk result (IsCountIf least most given) }
    ensures rightly { CountsIf least most (first_of word.now (rows_of (found_of words.now)))
        → IsOk result }
    ensures wrong { IfErr result (λ fault. IsUsage fault ⊎ (fault ≡ ModeFault.Short)) }
{
    let Some(text) = given(words, word) else {
        return Ok(None);
    };
    match count(alloc, word, name, text, least, most) {
        Ok(count) => Ok(Some(count)),
        Err(fault) => Err(fault),
    }
}

// How many sessions the words ask for.
fn sessions(alloc: Global, words: &ArgMatches<'_>) -> Result<u64, ModeFault>
    ensures number { let given = text_of (codes "sessions") (rows_of (found_of words.now)) in
        IfOk result (AsksFor given) }
    ensures rightly { let given = text_of (codes "sessions") (rows_of (found_of words.now)) in
        (n : ℕ) → AsksFor given n → IsOk result }
    ensures wrong { IfErr result (λ fault. IsUsage fault ⊎ (fault ≡ ModeFault.Short)) }
{
    let text = text(words, "sessions");
    count(alloc, "sessions", "N", text, 1, MOST_SESSIONS)
}

// How many at a time.
fn at_once(alloc: Global, words: &ArgMatches<'_>) -> Result<u64, ModeFault>
    ensures number { let given = text_of (codes "at-once") (rows_of (found_of words.now)) in
        IfOk result (AsksAtOnce given) }
    ensures rightly { let given = text_of (codes "at-once") (rows_of (found_of words.now)) in
        (n : ℕ) → AsksAtOnce given n → IsOk result }
    ensures wrong { IfErr result (λ fault. IsUsage fault ⊎ (fault ≡ ModeFault.Short)) }
{
    let text = text(words, "at-once");
    count(alloc, "at-once", "N", text, 1, MOST_AT_ONCE)
}

// From how many entries on a history is cut.
fn history(alloc: Global, words: &ArgMatches<'_>) -> Result<u64, ModeFault>
    ensures number { IfOk result (AsksHistory (rows_of (found_of words.now))) }
    ensures rightly { CountsIf 1 1000000 (first_of (codes "history") (rows_of (found_of words.now)))
        → IsOk result }
    ensures wrong { IfErr result (λ fault. IsUsage fault ⊎ (fault ≡ ModeFault.Short)) }
{
    match count_if(alloc, words, "history", "K", 1, MOST_HISTORY) {
        Ok(Some(count)) => Ok(count),
        Ok(None) => Ok(HISTORY),
        Err(fault) => Err(fault),
    }
}

// How many entries all histories hold together.
fn memory(alloc: Global, words: &ArgMatches<'_>) -> Result<u64, ModeFault>
    ensures number { IfOk result (AsksMemory (rows_of (found_of words.now))) }
    ensures rightly { let given = first_of (codes "memory") (rows_of (found_of words.now)) in
        CountsIf 1024 1000000000 given → IsOk result }
    ensures wrong { IfErr result (λ fault. IsUsage fault ⊎ (fault ≡ ModeFault.Short)) }
{
    match count_if(alloc, words, "memory", "M", LEAST_MEMORY, MOST_MEMORY) {
        Ok(Some(count)) => Ok(count),
        Ok(None) => Ok(MEMORY),
        Err(fault) => Err(fault),
    }
}

// How many bytes it may take.
fn memory_bytes(alloc: Global, words: &ArgMatches<'_>) -> Result<Option<u64>, ModeFault>
    ensures number { IfOk result (AsksBytes (rows_of (found_of words.now))) }
    ensures rightly { let given = first_of (codes "memory-bytes") (rows_of (found_of words.now)) in
        CountsIf 67108864 1099511627776 given → IsOk result }
    ensures wrong { IfErr result (λ fault. IsUsage fault ⊎ (fault ≡ ModeFault.Short)) }
{
    count_if(alloc, words, "memory-bytes", "B", LEAST_BYTES, MOST_BYTES)
}

// A text of its own of what was given behind this word, where anything was.
fn copied(alloc: Global, words: &ArgMatches<'_>, word: &str) -> Result<Option<String>, AllocError>
    ensures { let given = first_of word.now (rows_of (found_of words.now)) in
        IfOk result (λ text. option_map string_bytes text ≡ given) }
{
    let Some(text) = given(words, word) else {
        return Ok(None);
    };
    match String::from_str(alloc, text) {
        Ok(text) => Ok(Some(text)),
        Err(e) => Err(e),
    }
}

// How a server that stands is to run.
fn standing(alloc: Global, words: &ArgMatches<'_>) -> Result<Standing, ModeFault>
    ensures by { IfOk result (StandsBy (rows_of (found_of words.now))) }
    ensures within { IfOk result (λ how. IsWithin (Serving.Standing how)) }
    ensures rightly { let rows = rows_of (found_of words.now) in
        (n : ℕ) → AsksAtOnce (text_of (codes "at-once") rows) n → AreRight rows
        → IfErr result (λ fault. fault ≡ ModeFault.Short) }
    ensures wrong { IfErr result (λ fault. IsUsage fault ⊎ (fault ≡ ModeFault.Short)) }
{
    if let Some(why) = unfit(words) {
        return Err(wrong_words(alloc, why));
    }
    let at_once = match at_once(alloc, words) {
        Ok(at_once) => at_once,
        Err(fault) => return Err(fault),
    };
    let history = match history(alloc, words) {
        Ok(history) => history,
        Err(fault) => return Err(fault),
    };
    let memory = match memory(alloc, words) {
        Ok(memory) => memory,
        Err(fault) => return Err(fault),
    };
    let socket_fd = match count_if(alloc, words, "socket-fd", "FD", LEAST_FD, MOST_FD) {
        Ok(socket_fd) => socket_fd,
        Err(fault) => return Err(fault),
    };
    let memory_bytes = match memory_bytes(alloc, words) {
        Ok(memory_bytes) => memory_bytes,
        Err(fault) => return Err(fault),
    };
    let Ok(traces) = copied(alloc, words, "traces") else {
        return Err(ModeFault::Short);
    };
    Ok(Standing {
        at_once,
        replaces: is_given(words, "replace"),
        until_eof: is_given(words, "until-eof"),
        is_verbose: is_given(words, "verbose"),
        history,
        memory,
        traces,
        socket_fd,
        is_busy_told: is_given(words, "busy"),
        memory_bytes,
        syncs: is_given(words, "sync"),
        anchors: is_given(words, "anchors"),
    })
}

// How many sessions are served, by the words behind the mode's name.
fn serving(alloc: Global, words: &ArgMatches<'_>) -> Result<Serving, ModeFault>
    ensures by { IfOk result (ServesBy (rows_of (found_of words.now))) }
    ensures within { IfOk result IsWithin }
    ensures rightly { (n : ℕ) → AsksRightly (rows_of (found_of words.now)) n
        → IfErr result (λ fault. fault ≡ ModeFault.Short) }
    ensures wrong { IfErr result (λ fault. IsUsage fault ⊎ (fault ≡ ModeFault.Short)) }
{
    let has_sessions = has(words, "sessions");
    let has_at_once = has(words, "at-once");
    if has_sessions == has_at_once {
        return Err(wrong_words(alloc, SESSIONS_OR_AT_ONCE));
    }
    if has_at_once {
        return match standing(alloc, words) {
            Ok(how) => Ok(Serving::Standing(how)),
            Err(fault) => Err(fault),
        };
    }
    if has_others(words) {
        return Err(wrong_words(alloc, OTHERS_WITH_AT_ONCE));
    }
    match sessions(alloc, words) {
        Ok(sessions) => Ok(Serving::Sessions(sessions)),
        Err(fault) => Err(fault),
    }
}

// The mode that serves, by the words behind its name.
fn serve_mode(alloc: Global, words: &ArgMatches<'_>) -> Result<Mode, ModeFault>
    ensures mode { IfOk result (IsMode Asked.Serve (rows_of (found_of words.now))) }
    ensures rightly { (n : ℕ) → AsksRightly (rows_of (found_of words.now)) n → GivesMode result }
    ensures within { IfOk result HasSessions }
    ensures wrong { IfErr result (λ fault. IsUsage fault ⊎ (fault ≡ ModeFault.Short)) }
{
    let Ok(path) = String::from_str(alloc, text(words, "PATH")) else {
        return Err(ModeFault::Short);
    };
    match serving(alloc, words) {
        Ok(serving) => Ok(Mode::Serve { path, serving }),
        Err(fault) => Err(fault),
    }
}

// The files that are named.
fn named(alloc: Global, files: &[&str]) -> Result<Vec<String>, AllocError>
    ensures { IfOk result (λ names. map string_bytes names.items ≡ map (λ f. f.now) files.now) }
{
    let mut names = Vec::with_capacity(alloc, files.len())?;
    for file in files {
        names.push(String::from_str(alloc, *file)?)?;
    }
    Ok(names)
}

// What is wrong with words that ask for one history of no files.
fn no_files(alloc: Global) -> ModeFault
    ensures { IsUsage result ⊎ (result ≡ ModeFault.Short) }
{
    match String::from_str(alloc, NO_FILES) {
        Ok(text) => ModeFault::Usage(text),
        Err(_) => ModeFault::Short,
    }
}

// The mode that checks where no files are named: one trace by itself, from standard input.
fn unnamed(alloc: Global, manner: Manner) -> Result<Mode, ModeFault>
    ensures { MatchResult result (λ m. (m ≡ Mode.Check) × (manner ≡ Manner.Each))
        (λ fault. (manner ≢ Manner.Each) × (IsUsage fault ⊎ (fault ≡ ModeFault.Short))) }
{
    match manner {
        Manner::Each => Ok(Mode::Check),
        Manner::Joined | Manner::Whole => Err(no_files(alloc)),
    }
}

// The files that are listed under this name.
fn listed(
    alloc: Global,
    list: &str,
    manner: Manner,
    anchors: Option<String>,
) -> Result<Mode, ModeFault>
    ensures mode { IfOk result (λ m. IsList m list.now manner (option_map string_bytes anchors)) }
    ensures short { IfErr result (λ fault. fault ≡ ModeFault.Short) }
{
    match String::from_str(alloc, list) {
        Ok(list) => Ok(Mode::CheckFiles {
            sources: Sources::List(list),
            manner,
            anchors,
        }),
        Err(_) => Err(ModeFault::Short),
    }
}

// As what the files are checked; none where files that are no history are to be a whole one, or those of anchors.
fn manner(words: &ArgMatches<'_>) -> Option<Manner>
    ensures { result ≡ manner_of (rows_of (found_of words.now)) }
{
    let whole = is_given(words, "whole");
    if is_given(words, "joined") {
        Some(if whole { Manner::Whole } else { Manner::Joined })
    } else if whole || has(words, "anchors") {
        None
    } else {
        Some(Manner::Each)
    }
}

// What is said where they are none.
fn no_history(words: &ArgMatches<'_>) -> &'static str {
    if is_given(words, "whole") {
        WHOLE_OF_NONE
    } else {
        ANCHORS_OF_NONE
    }
}

// The mode that checks, by the words behind its name.
fn check_mode(alloc: Global, words: &ArgMatches<'_>) -> Result<Mode, ModeFault>
    ensures mode { IfOk result (IsMode Asked.Check (rows_of (found_of words.now))) }
    ensures given { HasFiles (rows_of (found_of words.now)) → GivesMode result }
    ensures wrong { IfErr result (λ fault. IsUsage fault ⊎ (fault ≡ ModeFault.Short)) }
{
    let Some(manner) = manner(words) else {
        return Err(wrong_words(alloc, no_history(words)));
    };
    let Ok(anchors) = copied(alloc, words, "anchors") else {
        return Err(ModeFault::Short);
    };
    let list = given(words, "files-from");
    let Some(files) = words.get_strs("FILE") else {
        return match list {
            Some(list) => listed(alloc, list, manner, anchors),
            None => unnamed(alloc, manner),
        };
    };
    if list.is_some() {
        return Err(wrong_words(alloc, FILES_OR_LIST));
    }
    match named(alloc, files) {
        Ok(files) => Ok(Mode::CheckFiles {
            sources: Sources::Words(files),
            manner,
            anchors,
        }),
        Err(_) => Err(ModeFault::Short),
    }
}

// The mode of words that `clap` has taken.
fn taken(alloc: Global, matches: &ArgMatches<'_>) -> Result<Mode, ModeFault>
    ensures replay { asked_of (subcommand_name_of matches.now) ≡ Asked.Replay
        → result ≡ Ok Mode.Replay }
    ensures mode { let arguments = arguments_of (subcommand_rows_of matches.now) in
        IfOk result (IsMode (asked_of (subcommand_name_of matches.now)) arguments) }
    ensures number { let arguments = arguments_of (subcommand_rows_of matches.now) in
        asked_of (subcommand_name_of matches.now) ≡ Asked.Serve
        → (n : ℕ) → AsksRightly arguments n → GivesMode result }
    ensures within { IfOk result HasSessions }
    ensures other { asked_of (subcommand_name_of matches.now) ≢ Asked.Serve
        → HasFiles (arguments_of (subcommand_rows_of matches.now)) → GivesMode result }
{
    match asked(matches.subcommand_name()) {
        Asked::Replay => Ok(Mode::Replay),
        Asked::Check => match matches.subcommand_matches("check") {
            Some(words) => check_mode(alloc, words),
            None => unreachable!(),
        },
        Asked::Serve => match matches.subcommand_matches("serve") {
            Some(words) => serve_mode(alloc, words),
            None => unreachable!(),
        },
    }
}

/// The mode that the words of the command line name, the program's name first.
///
/// # Errors
///
/// `Help` where the words ask for help or for the version, `Usage` where they are wrong, each with a
/// text to print; `Short` where memory was refused.
pub fn mode(alloc: Global, words: &[&str]) -> Result<Mode, ModeFault>
    ensures replay { AreReplay (map (λ w. w.now) words.now) → GivesReplay result }
    ensures check { AreCheck (map (λ w. w.now) words.now) → GivesCheck result }
    ensures help { AreHelp (map (λ w. w.now) words.now) → GivesFault IsHelp result }
    ensures version { AreVersion (map (λ w. w.now) words.now) → GivesFault IsHelp result }
    ensures none { AreNone (map (λ w. w.now) words.now) → GivesFault IsUsage result }
    ensures only { OnOk result (fault_of command_line (map (λ w. w.now) words.now) ≡ []) }
    ensures taken { fault_of command_line (map (λ w. w.now) words.now) ≡ []
        → asked_by (map (λ w. w.now) words.now) ≢ Asked.Serve
        → HasFiles (arguments_by (map (λ w. w.now) words.now)) → GivesMode result }
    ensures mode { let given = map (λ w. w.now) words.now in
        IfOk result (IsMode (asked_by given) (arguments_by given)) }
    ensures serve { (n : ℕ) → AreServe (map (λ w. w.now) words.now) n → GivesMode result }
    ensures sessions { IfOk result HasSessions }
{
    let Ok(command) = program_command(alloc) else {
        return Err(ModeFault::Short);
    };
    match command.try_get_matches_from(words) {
        Ok(matches) => taken(alloc, &matches),
        Err(error) => Err(refused(alloc, error)),
    }
}

// Whether one of the words seems to be the name of a trace that begins with `-`.
fn has_dashed(words: &[&str]) -> bool {
    for word in words {
        if word.starts_with('-') && word.ends_with(".trace") {
            return true;
        }
    }
    false
}

/// What stands below the text on wrong words: where the input comes from, if a mode was given more.
pub fn hint(words: &[&str]) -> &'static str {
    match words.get(1) {
        Some(word) if *word == "replay" => REPLAY_INPUT,
        Some(word) if *word == "check" && has_dashed(words) => CHECK_DASHED,
        Some(word) if *word == "check" => CHECK_INPUT,
        Some(word) if *word == "serve" => SERVE_INPUT,
        _ => "",
    }
}
