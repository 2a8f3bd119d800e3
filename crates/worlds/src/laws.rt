ghost use Rattle.worlds.specs.AssignmentLaws as laws;

/// What holds of assignments to blocks of a world. The call does nothing: its contract is the laws.
pub fn assignment_laws()
    ensures terms { laws.TermsStandForBlocks }
    ensures put { laws.PutKeepsBlocks }
    ensures own_names { laws.OwnNamesAreBlocks }
{}
