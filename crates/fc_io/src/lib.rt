//! Byte devices: sources that are read, sinks that are written, and what a program does over any of them.
//!
//! Contracts see a source as the bytes that it still tells, a sink as the bytes that it holds, either as telling none,
//! and both as failed or not. A call answers `Failed` exactly where its device has failed afterwards, and a device that
//! has failed answers nothing else from then on.
#![tactic(auto)]

pub use arrays::ToArray;
pub use devices::{Failed, Sink, Source};
pub use readers::{FromReader, Reading};
pub use slices::FromSlice;
pub use transfers::{ReadFault, read_to_vec, read_up_to, write_all};
pub use writers::{ToWriter, Writing};

mod arrays;
mod devices;
mod readers;
mod slices;
pub mod testing;
mod transfers;
mod writers;
