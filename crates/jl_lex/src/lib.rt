//! The lexer (clause 7): the tokens or the comments of a text, or its first input element that can't be formed.
#![tactic(auto)]

mod characters;
mod comment_ends;
mod comment_list;
mod element;
mod lexer;
mod names;
mod numbers;
mod punctuators;
mod strings;

pub use characters::{is_digit, is_hex_digit, is_line_terminator, is_white_space};
pub use comment_list::comments;
pub use jl_token::Comment;
pub use lexer::{LexRefusal, lex};
