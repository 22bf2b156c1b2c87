//! The journal file: accepted changes are kept in it, and outlive the server.
//!
//! Given: a disk, the users, and entries of accepted changes. Gives: a file in which they are kept, so
//! that a stop at any moment leaves those that were acknowledged, and at most one more; and the events
//! for which such a file stands, to be asked of a new book. What these calls come to is the contract of
//! `file_laws`. Used by: the book that is kept.
#![tactic(auto)]

mod commit;
mod creating;
mod decoding;
mod disk;
mod draft;
mod drafting;
mod file_disk;
mod grant_reading;
mod header;
mod keeper;
mod laws;
mod memory_disk;
mod opening;
mod parts;
mod payload;
mod payload_size;
mod principals;
mod reader;
mod record_reading;
mod request_reading;
mod set_reading;
mod writing;

pub use creating::{Created, create};
pub use disk::Disk;
pub use draft::{Draft, Finished};
pub use drafting::{Drafted, begin_draft};
pub use file_disk::FileDisk;
pub use keeper::{DiskFault, Keeper};
pub use laws::file_laws;
pub use memory_disk::{Done, MemoryDisk, Step};
pub use opening::{Opened, open};
pub use reader::{NextEntry, Reader};
