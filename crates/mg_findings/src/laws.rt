//! What holds of lists of findings. Each function does nothing: its contract is the law.

ghost use Rattle.mg_findings.specs.Findings.{OneList};

/// Two lists of the same findings are one.
pub fn one_list()
    ensures { OneList }
{}
