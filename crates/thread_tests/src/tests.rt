//! On one thread and on several.
mod journals;
mod merges;
mod streams;
