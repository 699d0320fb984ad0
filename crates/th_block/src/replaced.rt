//! What became of a handle in whose place another was asked for.
use crate::handle::Handle;
use th_log::Object;
use th_seats::Share;

/// The new handle with the old one's share, or the old handle, where none was made.
#[derive(Drop)]
pub enum Replaced<O: Object, S> {
    /// The new handle, and the share of the old one, which is spent.
    New(Handle<O, S>, Share),
    /// The old handle.
    Kept(Handle<O, S>),
}
