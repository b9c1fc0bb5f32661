//! One POSIX system in which callers wait, as one plain value whose calls are the kernel's transition. It has no
//! owner, lease, cache or stream.
#![tactic(auto)]

mod awaited_queue;
mod awaited_set;
mod done;
mod family;
mod fault;
mod kernel;
mod maps;
mod names;
mod process;
mod processes;
mod queue;
mod semaphores;
mod signals;
mod standing;
mod waiter;

pub use fault::CallFault;
pub use kernel::Kernel;
pub use standing::Standing;
