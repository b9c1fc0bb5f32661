//! What is written of a history, of its totals and of events, and what is read of a trace; and the other texts.
mod fields;
mod generated;
mod images;
mod inputs;
mod sandboxes;
mod spellings;
mod traces;
