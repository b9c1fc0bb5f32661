//! The law of a call's footprint, the parts of the kernel that the call looks at and changes. No call runs here.
#![tactic(auto)]

ghost use Rattle.kernel_model.specs.FootprintLaw.{FootprintLaw};

/// Two valid kernels that agree on a call's footprint, with the call's new number unused in both, make the same
/// step or none: the outcome is the same, they agree on the footprint afterwards, and the rest of each stays.
pub fn footprint_law()
    ensures { FootprintLaw }
{}
