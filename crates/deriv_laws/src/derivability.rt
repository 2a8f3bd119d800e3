ghost use Rattle.deriv_laws.specs.Laws.{AssumptionLaw, WeakeningLaw, ConjunctionLaw, PartLaw, StatementLaw};
ghost use Rattle.deriv_laws.specs.ConnectiveLaws.{AdditionLaw, CasesLaw, ContradictionLaw, DoubleNegationLaw, AbsurdityLaw, ExplosionLaw, DeductionLaw, DetachmentLaw, EquivalenceLaw, ForwardLaw, BackwardLaw, CutLaw};
ghost use Rattle.deriv_laws.specs.QuantifierLaws.{SelfIdentityLaw, ReplacementLaw, InstantiationLaw, GeneralizationLaw, WitnessLaw, ArbitraryInstanceLaw};

/// The laws of derivability for assumptions and conjunctions. The call does nothing: its contract
/// is the laws, for the proofs of the crates above.
pub fn conjunction_rules()
    ensures assumption { AssumptionLaw }
    ensures weakening { WeakeningLaw }
    ensures conjunction { ConjunctionLaw }
    ensures part { PartLaw }
    ensures statement { StatementLaw }
{}

/// The laws of derivability for disjunctions, negations, absurdity, conditionals and
/// biconditionals, and the cut of a derivable assumption. The call does nothing.
pub fn connective_rules()
    ensures addition { AdditionLaw }
    ensures cases { CasesLaw }
    ensures contradiction { ContradictionLaw }
    ensures double_negation { DoubleNegationLaw }
    ensures absurdity { AbsurdityLaw }
    ensures explosion { ExplosionLaw }
    ensures deduction { DeductionLaw }
    ensures detachment { DetachmentLaw }
    ensures equivalence { EquivalenceLaw }
    ensures forward { ForwardLaw }
    ensures backward { BackwardLaw }
    ensures cut { CutLaw }
{}

/// The laws of derivability for identity and the quantifiers. The call does nothing.
pub fn quantifier_rules()
    ensures self_identity { SelfIdentityLaw }
    ensures replacement { ReplacementLaw }
    ensures instantiation { InstantiationLaw }
    ensures generalization { GeneralizationLaw }
    ensures witness { WitnessLaw }
    ensures arbitrary_instance { ArbitraryInstanceLaw }
{}
