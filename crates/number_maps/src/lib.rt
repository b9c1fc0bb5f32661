//! Finite maps and sets of numbers, by definitions: what ordered maps and sets hold. No call runs here. Whoever needs a
//! fact about such a map, a set, or the order of two numbers looks here first:
//!
//! - `specs/Maps.antt`: `Numbered`, `get`, `put`, `without`; `is_used` and `used_with` of a set. `specs/Rising.antt`:
//!   `IsRising`, which ordered maps of the code keep.
//! - `proofs/Order.antt`: how two numbers compare, by facts (`cmp-less`) and by tests (`same-from-nat_eq`).
//! - `proofs/LookUps.antt`: what a map has at a number after `put` and `without`; the first entry and the later ones.
//! - `proofs/Sets.antt`: what a set has after `used_with`; a number that is used stays used.
//! - `proofs/Rising.antt`: what the first entry of a map by rising number and the rest have (`above-first`,
//!   `rising-rest`), and that `put` and filters keep it so.
//! - `proofs/Changes.antt`: changes that undo one another, and what the code's ordered maps do (`set_value-put`,
//!   `without-remove`, `remove-put`, `keys-put`).
#![tactic(auto)]
