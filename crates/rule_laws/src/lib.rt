//! Each rule of the machine has a step wherever its event is enabled, and keeps what holds in every world that a run
//! leads to: here the rules of frames and of births, and in a folder each what a node starts (`own`, `makes`), and how
//! its process ends (`ends`).
#![tactic(auto)]
