ghost use Rattle.taut_con.specs.Laws.{YesIsDerivable};

/// What the answer Yes shows. The call does nothing: its contract is the law, for the proofs of the crates above.
pub fn tautology_laws()
    ensures derivable { YesIsDerivable }
{}
