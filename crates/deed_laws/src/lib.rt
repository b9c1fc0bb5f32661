//! A deed's body, packed, is read back as it was. Nothing runs here.
#![tactic(auto)]
