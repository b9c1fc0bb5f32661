//! A node carries calls out on what it holds, or lets their callers wait there; a call that waits is withdrawn; and a
//! name that another node reads moves there.
#![tactic(auto)]

mod carrying;
mod moving;
mod own;
mod serving;
mod striking;
mod withdrawing;

pub use own::{act_at_once, act_lent};
pub use serving::{begin, serve_asked, serve_at_once, serve_nobody};
pub use withdrawing::{Interrupted, interrupt, withdraw_here};
