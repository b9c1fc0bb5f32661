//! Reads the text of a script.
#![tactic(auto)]

mod checks;
mod fault;
mod form_parts;
mod forms;
mod numbers;
mod parts;
mod place;
mod process_forms;
mod queue_forms;
mod says;
mod script;
mod set_forms;
mod tables;
mod texts;
mod words;

pub use checks::MAX_LINE;
pub use fault::{ScriptFault, ScriptStop};
// The definitions speak of these.
pub use place::{Begun, Place};
pub use says::{Front, Said};
// Other texts that scripts stand in have the same names, comments and lines.
pub use parts::is_block_name;
pub use says::is_comment;
pub use script::{MAX_BYTES, line_of_byte, read_script, valid_len};
pub use words::{next_line, next_word};
// A reader of scripts with other calls goes over its lines as the one here.
pub use checks::fault_of;
pub use form_parts::{FromCall, create_excl, identifier};
pub use numbers::{number, positive};
pub use says::{end_line, named_line, proc_line, set_front, tries_front};
pub use script::{block_names, ending};
pub use tables::Names;
pub use texts::text;
pub use words::put_line_words;
