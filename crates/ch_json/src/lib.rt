//! JSON texts (RFC 8259) as trees with spans, and the escaping of strings.
//!
//! `read` answers exactly by the grammar: the document of a text that spells a tree, or the place
//! of the text's fault. Values are known by their spans, so that they are handed on as they are
//! spelled.
#![tactic(auto)]

mod classes;
mod doc;
mod entry;
mod error;
mod find;
mod laws;
mod node;
mod number_state;
mod parse;
mod pieces;
mod reader;
mod span;
mod string_state;
mod unescape_string;

pub use ch_print::{escape_into, quoted};
pub use doc::Doc;
pub use error::JsonError;
pub use laws::{most_levels, one_list, one_text, one_tree, value_alone};
pub use node::{Form, Found, Node};
pub use parse::read;
pub use span::Span;
pub use unescape_string::unescape;
