//! A directory of the host as a disk: it tells nothing of what it holds, follows no link, and counts each error as a fault. Each
//! call returns, and a fault is answered only where one was counted; what a call does on the host is tested.
//!
//! The calls of std that are trusted stand in `host.rt`, `changes.rt`, `reading.rt`, `listing.rt`, `open_files.rt` and `lock.rt` alone.
#![tactic(auto)]

mod changes;
mod host;
mod known;
mod listing;
mod lock;
mod open_files;
mod reading;
mod stop;
mod tree;
mod waiting;

pub use tree::HostTree;
