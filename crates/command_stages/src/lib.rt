//! What every command stands on: its stages that read a specification and a question, what it comes to, and the texts and
//! statuses of its troubles.
#![tactic(auto)]

mod done;
mod laws;
mod read;
mod stages;
mod texts;
mod trouble;
mod troubles;
mod with_tree;

pub use done::{Done, Ending};
pub use laws::one_read;
pub use read::read_bytes;
pub use stages::{read_question_with_tree, read_specification, read_the_question, read_with_tree};
pub use texts::{bytes_of, text_of};
pub use trouble::{Check, Trouble};
pub use troubles::{of_binding, of_text, refused};
pub use with_tree::{ReadQuestion, ReadSpec};
