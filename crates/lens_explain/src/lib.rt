//! What is said of a text beside a shelf: that it is accepted, and what it defines; or where and why
//! it is refused.
#![tactic(auto)]

mod accepted;
mod ahead;
mod explained;
mod heading;
mod json;
mod members;
mod module;
mod reasons;
mod refused;
mod told;

pub use explained::{Beside, Explained, TextVerdict, explain};
pub use heading::{Form, Heading, put_page};
pub use members::{put_number_member, put_page_member, put_text_member};
