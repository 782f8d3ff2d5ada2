//! What each command gives where nothing fails: its status, what it prints, and the line on errors.
#![tactic(auto)]

mod answer;
mod auditing;
mod checking;
mod line;
mod making;
mod reason;
mod showing;
mod status;

pub use answer::Answer;
pub use auditing::{Auditor, Unaudited, audit, load_auditor, refused_channel};
pub use checking::check;
pub use line::{refusal_line, spent_line, uncaught_line};
pub use making::make_answer;
pub use reason::put_reason;
pub use showing::{Showing, show};
pub use status::Status;
