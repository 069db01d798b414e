//! A repository answers a stream of requests with a stream of replies: which ids a name has, contents, and what another repository
//! lacks. The answer is exactly that of the state that the disk stores, and the disk is only read.
#![tactic(auto)]

mod answering;
mod carrying;
mod contents;
mod ending;
mod feeding;
mod halt;
mod ids;
mod laws;
mod reading;
mod replying;
mod room;
mod serving;
mod session;
mod sets;
mod unanswered;
mod wanted;

pub use laws::{one_answer, sound_replies};
pub use repo_mirror;
pub use repository::change_set;
pub use serving::serve;
pub use session::Session;
