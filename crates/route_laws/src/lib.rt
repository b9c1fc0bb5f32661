//! The rules of calls and parcels that go from node to node keep what holds in every world that a run leads to: in a
//! folder each what the leader routes (`hand`, `keys`, `first`), what others carry out (`sent`, `held`), the leader's
//! hand as it is emptied (`release`), and a parcel's way to its end (`exits`).
#![tactic(auto)]
