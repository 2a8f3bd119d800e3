ghost use Rattle.hintikka_game.specs.PlayLaws.{FewMoves, LosesExactly, NeverWon, WinsByTurns, WinsExactly};
ghost use Rattle.hintikka_game.specs.ReplayLaws.{OneReplay, OneRefusal, NeverBoth};

/// What holds of replays: given choices are played in one way at most, or refused in one way at most, and never both. And
/// what holds of every play, which a replay is. The call does nothing: its contract is the laws.
pub fn replay_laws()
    ensures once { OneReplay }
    ensures refused_once { OneRefusal }
    ensures apart { NeverBoth }
    ensures never_won { NeverWon }
    ensures short { FewMoves }
    ensures wins { WinsExactly }
    ensures rules { WinsByTurns }
    ensures losing { LosesExactly }
{}
