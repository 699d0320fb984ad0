//! The parts of histories that a hub has cut: they go to files of a folder, or are let go.
use crate::anchors::Anchors;
use crate::folders::{Folder, sync};
use crate::part::{Part, file_of, put_trace};
use crate::sums::Chain;
use std::alloc::{AllocError, Global};
use std::fs;
use std::fs::{OpenFile, OpenOptions};
use std::io::{Eprint, Read, Seek, SeekFrom, Write};
use std::os::unix::fs::OpenOptionsExt;
use std::rt::Files;
use std::sync::Wait;
use std::sync::atomic::{AtomicBool, Ordering};
use std::time::Clock;
use th_lines::Counted;
use th_model::{Kind, Name};
use th_registry::Channel;
use th_registry::channel::TopicSegment;
use th_shared::{Ended, Histories, SharedDesk, entries_of};

// Nobody but the user who serves may read a trace.
const MODE: u32 = 0o600;

/// What came of a part that was to be written.
#[derive(Debug, Drop)]
pub enum Stored {
    /// It has no entries, so it needs no file.
    Needless,
    /// Its file is there.
    There {
        /// The file's name.
        name: String,
        /// What the sum of the topic's next file is to bind.
        next: Chain,
        /// Whether its name is synced too, where that is wanted.
        is_synced: bool,
    },
    /// There is no file of it.
    Missing,
}

/// Where the traces of parts are written: a runtime with files. Threads have it by this bound, since one on files has types of its
/// own and cannot be taken to another thread.
pub trait Store {
    /// Writes the trace of a part of this topic to a file of this folder, under the name of such a part, and says what came of it. Its
    /// sum binds what the chain says, and is that of the file as it can be read again.
    fn store(
        &self,
        alloc: Global,
        folder: &Folder<'_>,
        topic: &Name,
        part: &TopicSegment,
        chain: Chain,
    ) -> Stored;
}

impl Store for HostRuntime {
    fn store(
        &self,
        alloc: Global,
        folder: &Folder<'_>,
        topic: &Name,
        part: &TopicSegment,
        chain: Chain,
    ) -> Stored {
        write_part(self, alloc, folder, topic, part, chain)
    }
}

/// Where parts go, and what people were told of them.
#[derive(Drop)]
pub(crate) struct Keeper<'a> {
    // The folder of this start; without one they are let go.
    pub(crate) folder: Option<Folder<'a>>,
    pub(crate) anchors: Anchors,
    has_failed: AtomicBool,
    has_lost: AtomicBool,
}

// The next part of a topic of this kind. It waits until there is one, or none is to come.
fn next_part<R: Wait>(rt: &R, histories: &Histories, kind: Kind) -> Option<Part> {
    let part = match kind {
        Kind::Broadcast => Channel::Broadcast(histories.broadcast.take(rt)?),
        Kind::Watch => Channel::Watch(histories.watch.take(rt)?),
    };
    Some(Part::new(part))
}

// Makes a file that nobody but the user who serves may read, where nothing stands yet.
fn create<R: Files>(rt: &R, path: &str) -> Option<R::File> {
    let mut how = OpenOptions::new();
    how.read(true).write(true).create_new(true).mode(MODE);
    how.open(rt, path).ok()
}

// Reads a file again from its beginning.
fn read_again<F: Read + Seek>(file: &mut F, chain: Chain) -> Chain {
    if chain == Chain::Loose || file.seek(SeekFrom::Start(0)).is_err() {
        return Chain::Loose;
    }
    chain.after(file)
}

// Writes a part to this file, and has it on the disk where that is wanted; and what the next file's sum is to bind. `None` where it is
// not all there.
fn fill<F: Read + Write + Seek + OpenFile + Drop>(
    alloc: Global,
    file: F,
    syncs: bool,
    part: &TopicSegment,
    chain: Chain,
) -> Option<Chain> {
    let mut writer = Counted::new(file);
    if !put_trace(alloc, part, &mut writer) {
        return None;
    }
    let mut file = writer.into_device();
    if syncs && file.sync_all().is_err() {
        return None;
    }
    Some(read_again(&mut file, chain))
}

// Writes a part to a new file of this name, which has the other one until it is whole; and what the next file's sum is to bind.
fn write_file<R: Files>(
    rt: &R,
    alloc: Global,
    path: &str,
    syncs: bool,
    part: &TopicSegment,
    chain: Chain,
) -> Option<Chain> {
    let unfinished = format!(in alloc; "{path}.part").ok()?;
    let unfinished = unfinished.as_str();
    let file = create(rt, unfinished)?;
    match fill(alloc, file, syncs, part, chain) {
        Some(next) if fs::rename(rt, unfinished, path).is_ok() => Some(next),
        _ => {
            let _ = fs::remove_file(rt, unfinished);
            None
        }
    }
}

// Writes a part to a file of this folder. It has its name once it is whole, and until then a name that ends otherwise.
fn write_part<R: Files>(
    rt: &R,
    alloc: Global,
    folder: &Folder<'_>,
    topic: &Name,
    part: &TopicSegment,
    chain: Chain,
) -> Stored {
    if entries_of(part) == 0 {
        return Stored::Needless;
    }
    let Ok(name) = file_of(alloc, topic, part) else {
        return Stored::Missing;
    };
    let Folder { path: at, syncs } = *folder;
    let Ok(path) = format!(in alloc; "{at}/{name}") else {
        return Stored::Missing;
    };
    match write_file(rt, alloc, path.as_str(), syncs, part, chain) {
        Some(next) => Stored::There {
            name,
            next,
            is_synced: !syncs || sync(rt, at),
        },
        None => Stored::Missing,
    }
}

impl<'a> Keeper<'a> {
    /// Of parts that go to files of this folder, or nowhere; and whether people are told of the files.
    pub(crate) fn new(
        alloc: Global,
        folder: Option<Folder<'a>>,
        anchors: bool,
    ) -> Result<Keeper<'a>, AllocError> {
        Ok(Keeper {
            folder,
            anchors: Anchors::new(alloc, anchors)?,
            has_failed: AtomicBool::new(false),
            has_lost: AtomicBool::new(false),
        })
    }

    // The folder's path, for people.
    fn place(&self) -> &'a str {
        match self.folder {
            Some(folder) => folder.path,
            None => "",
        }
    }

    /// Says once that parts are missing.
    pub(crate) fn say_failed<R: Eprint>(&self, rt: &R) {
        if !self.has_failed.swap(true, Ordering::Relaxed) {
            let folder = self.place();
            let _ = eprintln!(rt;
                "topichub: {folder}: a trace could not be written; the server goes on"
            );
        }
    }

    // The same, where they came faster than they were written.
    fn say_lost<R: Eprint + Wait>(&self, rt: &R, histories: &Histories) {
        if self.folder.is_none() {
            return;
        }
        let folder = self.place();
        if histories.lost(rt) > 0 && !self.has_lost.swap(true, Ordering::Relaxed) {
            let _ = eprintln!(rt;
                "topichub: {folder}: traces are left out, since they come faster than they are written"
            );
        }
    }

    // Keeps a part of a topic whose name may be unknown for want of memory, or tells that it is missing.
    fn keep<R: Wait + Eprint + Store>(
        &self,
        rt: &R,
        alloc: Global,
        topic: Option<Name>,
        part: Part,
    ) {
        if let Some(missing) = part.store(rt, alloc, self, topic.as_ref()) {
            missing.tell(rt, self);
        }
    }

    /// Keeps the parts of topics of one kind as they come, until none is to come.
    pub(crate) fn keep_all<R: Wait + Clock + Clone + Eprint + Store>(
        &self,
        rt: &R,
        alloc: Global,
        desk: &SharedDesk<R>,
        histories: &Histories,
        kind: Kind,
    ) {
        for _ in rt.forever() {
            let Some(part) = next_part(rt, histories, kind) else {
                break;
            };
            let name = if self.folder.is_some() {
                desk.name_of(part.topic())
            } else {
                None
            };
            self.keep(rt, alloc, name, part);
            self.say_lost(rt, histories);
        }
        self.say_lost(rt, histories);
    }

    /// Keeps the last part of each topic, once nobody is served any more.
    pub(crate) fn keep_last<R: Wait + Clock + Clone + Eprint + Store>(
        &self,
        rt: &R,
        alloc: Global,
        desk: SharedDesk<R>,
    ) {
        if self.folder.is_none() {
            return;
        }
        let Ok((topics, _)) = desk.finish(alloc) else {
            self.say_failed(rt);
            return;
        };
        for topic in topics {
            match topic {
                Ended::Broadcast(name, log, _) => {
                    let (_, part) = log.finish();
                    self.keep(rt, alloc, Some(name), Part::new(Channel::Broadcast(part)));
                }
                Ended::Watch(name, log, _) => {
                    let (_, part) = log.finish();
                    self.keep(rt, alloc, Some(name), Part::new(Channel::Watch(part)));
                }
                Ended::Held(_, _) => self.say_failed(rt),
            }
        }
    }
}
