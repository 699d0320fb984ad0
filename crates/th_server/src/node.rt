//! Which file a name stands for.
use std::fs;
use std::fs::Metadata;
use std::os::unix::fs::MetadataExt;
use std::rt::Files;

/// A file, by the device that it is on and its number there. As long as it is open somewhere, no other one has both.
#[derive(Clone, Copy, Debug, PartialEq, Eq)]
pub(crate) struct Node {
    pub(crate) dev: u64,
    pub(crate) ino: u64,
}

impl Node {
    /// The file of which this was found.
    pub(crate) fn of(found: &Metadata) -> Node {
        Node {
            dev: found.dev(),
            ino: found.ino(),
        }
    }

    /// Whether this name stands for it. A link stands for itself.
    pub(crate) fn is_at<R: Files>(self, rt: &R, name: &str) -> bool {
        match fs::symlink_metadata(rt, name) {
            Ok(found) => Node::of(&found) == self,
            Err(_) => false,
        }
    }

    /// Removes this name, if it still stands for it, and leaves whatever else may stand there.
    pub(crate) fn remove<R: Files>(self, rt: &R, name: &str) {
        if self.is_at(rt, name) {
            let _ = fs::remove_file(rt, name);
        }
    }
}

/// Whether it belongs to the user who serves.
pub(crate) fn is_own(found: &Metadata) -> bool {
    found.uid() == libc::geteuid()
}
