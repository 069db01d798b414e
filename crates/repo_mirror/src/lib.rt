//! Mirroring: one repository asks another one for the troves that it lacks, and takes over what that sends. After it asked, was served
//! and committed what it took, it has its own troves and behind them those that were missing.
//!
//! Begin with the definitions: `specs/Requests` and `specs/Replies` (the messages, whose faults are in `specs/Faults`), `specs/Lengths` and
//! `specs/Missing` (what is sent), `specs/Asking` and `specs/Mirroring`. Then `request` and `taking` (what is read of messages), `missing_troves`,
//! before which stands `sent` (the troves as they are gathered), and `asking`.
#![tactic(auto)]

mod asking;
mod laws;
mod message_laws;
mod missing_laws;
mod missing_troves;
mod request;
mod sent;
mod taking;

pub use asking::ask;
pub use change_set;
pub use laws::{mirrored, one_asking, one_stream, taken_and_committed};
pub use message_laws::one_reply;
pub use missing_laws::{commits_told, one_missing, sent_length};
pub use missing_troves::{SENT_LIMIT, ToSend, missing};
pub use request::{
    CONTENT, MISSING, NAMED, REQUEST_END, REQUEST_MAGIC, REQUESTS_LIMIT, Request, request_of,
};
pub use taking::take;
