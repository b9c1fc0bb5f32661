//! What an entry of the history is for the kernel, in the words of the nodes that make it: which bodies it leaves, what
//! others may do after it, and how the history goes on. Nothing runs here.
#![tactic(auto)]
