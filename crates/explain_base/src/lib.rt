//! What is told of refused bytes, and how it is shown: words with their places, texts, and findings with a mark under
//! what is at fault. Whatever the bytes are, only printable bytes and line feeds are written.
#![tactic(auto)]

mod finding;
mod lines;
mod near;
mod row;
mod shown;
mod text;
mod words;

pub use finding::{Fault, Finding, Other, Page, Span, Wrong};
pub use lines::{Line, Lines};
pub use near::Nearest;
pub use shown::text_of;
pub use text::{Piece, SIGNALS, Style, Text, Totals};
pub use words::{Word, Words, is_blank, without_blanks};
