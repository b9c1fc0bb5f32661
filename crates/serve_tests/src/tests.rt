//! Each part over deeds, at its edges.
mod bodies;
mod caches;
mod callers;
mod cuts;
mod handovers;
