ghost use Rattle.play_text.specs.Laws.{OnePlay, OneFault, NeverBoth};

/// What holds of play texts: a text is one play at most, it has one first fault at most, and never both. The call does
/// nothing: its contract is the laws.
pub fn play_text_laws()
    ensures play { OnePlay }
    ensures fault { OneFault }
    ensures apart { NeverBoth }
{}
