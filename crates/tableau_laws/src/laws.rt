ghost use Rattle.tableau_laws.specs.Laws.{UniquenessLaw, OneAnswerLaw, ClosedLaw, ClosedWithAxiomsLaw, FreshNameLaw, GroundTermsLaw};
ghost use Rattle.tableau_laws.specs.ClassLaws.{ClosingLaw, SingleLaw, EquationLaw, UnitLaw, WitnessesLaw, SeveralLaw, UniversalLaw, SplitLaw};

/// The laws of the ordered tableau as a whole. The call does nothing: its contract is the laws, for the proofs of the crates
/// above.
pub fn tableau_laws()
    ensures unique { UniquenessLaw }
    ensures one_answer { OneAnswerLaw }
    ensures closed { ClosedLaw }
    ensures closed_with_axioms { ClosedWithAxiomsLaw }
    ensures fresh_name { FreshNameLaw }
    ensures ground_terms { GroundTermsLaw }
{}

/// One law for each class that goes by a sentence on the branch: where each branch that an application makes is refuted, the
/// branch before it is. The call does nothing.
pub fn class_laws()
    ensures single { SingleLaw }
    ensures equation { EquationLaw }
    ensures witnesses { WitnessesLaw }
    ensures several { SeveralLaw }
    ensures universal { UniversalLaw }
{}

/// A closed branch is refuted, and the laws of the classes that go by clauses. The call does nothing.
pub fn clause_laws()
    ensures closing { ClosingLaw }
    ensures unit { UnitLaw }
    ensures split { SplitLaw }
{}
