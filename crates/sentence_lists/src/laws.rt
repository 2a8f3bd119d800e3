ghost use Rattle.sentence_lists.specs.Laws.{OneList, OneFault, NeverBoth};

/// What holds of lists of sentences: a text is one list at most, it has one first fault at most, and never both. The call
/// does nothing: its contract is the laws.
pub fn sentence_list_laws()
    ensures list { OneList }
    ensures fault { OneFault }
    ensures apart { NeverBoth }
{}
