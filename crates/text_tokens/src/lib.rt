//! The tokens of the specification, question and report languages.
#![tactic(auto)]

mod laws;
mod lexer;
mod scan;
mod token;

pub use laws::{one_list_of_tokens, tokens_hold_text};
pub use lexer::tokens;
pub use token::{TextFault, Token, TokenKind, TokenList};
