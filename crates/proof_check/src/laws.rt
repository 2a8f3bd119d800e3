ghost use Rattle.proof_check.specs.Laws.{CorrectIsDerivable, OneVerdict};

/// What holds of verdicts: a correct proof shows that the goal is derivable, and a text has at most one verdict. The call
/// does nothing: its contract is the laws.
pub fn verdict_laws()
    ensures sound { CorrectIsDerivable }
    ensures once { OneVerdict }
{}
