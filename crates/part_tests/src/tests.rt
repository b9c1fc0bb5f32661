//! The bytes of each part, and bytes that are none's; and places that are used again.
mod families;
mod held_queues;
mod links;
mod queues;
mod sets;
mod signals;
