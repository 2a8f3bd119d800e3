ghost use Rattle.std.specs.Prelude.{[]};
ghost use Rattle.nested_proofs.specs.Soundness.{EachLineIsDerived, LastLineIsDerived, FaultlessProofShows, none_allowed, without_consequence, no_answer};
ghost use Rattle.nested_proofs.specs.Faults.{OneFirstFailure};
ghost use Rattle.nested_proofs.specs.Visible.{SentencesByLevels, SubproofsByLevels, BoxesByLevels};
ghost use Rattle.nested_proofs.specs.AtLine.{LinesArePlaced};
ghost use Rattle.nested_proofs.specs.Nesting.{LinesHaveAProof, ProofsAreWellNested, LinesHaveOneProof};

/// Soundness of the rules without the consequence rules: each justified line of a nested proof
/// states what is derivable, and a line fails first in one way at most. The call does nothing: its contract is the laws.
pub fn soundness_laws()
    ensures each_line { EachLineIsDerived none_allowed [] }
    ensures last_line { LastLineIsDerived none_allowed [] }
    ensures faultless { FaultlessProofShows without_consequence no_answer [] }
    ensures one_failure { OneFirstFailure without_consequence no_answer }
{}

/// What may be cited at a line, read off the levels of flat lines. The call does nothing.
pub fn visibility_laws()
    ensures sentences { SentencesByLevels }
    ensures subproofs { SubproofsByLevels }
    ensures boxes { BoxesByLevels }
{}

/// The well-nested lines are those of nested proofs, and of one each, in which each of them is placed once. The call
/// does nothing.
pub fn nesting_laws()
    ensures a_proof { LinesHaveAProof }
    ensures well_nested { ProofsAreWellNested }
    ensures one_proof { LinesHaveOneProof }
    ensures placed { LinesArePlaced }
{}
