ghost use Rattle.std.specs.Prelude.{◌≡◌};
ghost use Rattle.nested_proofs.specs.CiteTests as tests;

use deriv_laws::Rule;

/// How many cites of one kind, of lines or of subproofs, a rule takes.
#[derive(Clone, Copy, Debug, PartialEq, Eq)]
pub enum Count {
    Exactly(usize),
    AtLeast(usize),
}

impl Count {
    /// Whether there are some such cites at all.
    pub fn takes_some(self) -> bool
        ensures value { result ≡ tests.takes_some self }
    {
        match self {
            Count::Exactly(wanted) => wanted != 0,
            Count::AtLeast(_) => true,
        }
    }

    /// Whether so many cites are right.
    pub fn is_right(self, count: usize) -> bool
        ensures value { result ≡ tests.is_right self count }
    {
        match self {
            Count::Exactly(wanted) => count == wanted,
            Count::AtLeast(least) => least <= count,
        }
    }
}

/// How many lines a rule cites. Premises and openings cite none.
pub fn takes_lines(rule: Rule) -> Count
    ensures value { result ≡ tests.takes_lines rule }
{
    match rule {
        Rule::Premise
        | Rule::Assume
        | Rule::BoxOnly
        | Rule::NotIntro
        | Rule::IfIntro
        | Rule::IffIntro
        | Rule::EqIntro
        | Rule::AllIntro => Count::Exactly(0),
        Rule::AndIntro => Count::AtLeast(1),
        Rule::Reit
        | Rule::AndElim
        | Rule::OrIntro
        | Rule::OrElim
        | Rule::NotElim
        | Rule::BotElim
        | Rule::AllElim
        | Rule::ExIntro
        | Rule::ExElim => Count::Exactly(1),
        Rule::BotIntro | Rule::IfElim | Rule::IffElim | Rule::EqElim => Count::Exactly(2),
        Rule::TautCon | Rule::FoCon | Rule::AnaCon => Count::AtLeast(0),
    }
}

/// How many subproofs a rule cites.
pub fn takes_subproofs(rule: Rule) -> Count
    ensures value { result ≡ tests.takes_subproofs rule }
{
    match rule {
        Rule::Premise
        | Rule::Assume
        | Rule::BoxOnly
        | Rule::Reit
        | Rule::AndIntro
        | Rule::AndElim
        | Rule::OrIntro
        | Rule::NotElim
        | Rule::BotIntro
        | Rule::BotElim
        | Rule::IfElim
        | Rule::IffElim
        | Rule::EqIntro
        | Rule::EqElim
        | Rule::AllElim
        | Rule::ExIntro
        | Rule::TautCon
        | Rule::FoCon
        | Rule::AnaCon => Count::Exactly(0),
        Rule::OrElim => Count::AtLeast(1),
        Rule::NotIntro | Rule::IfIntro | Rule::AllIntro | Rule::ExElim => Count::Exactly(1),
        Rule::IffIntro => Count::Exactly(2),
    }
}

/// Whether the subproof that the rule cites boxes a constant.
pub fn wants_box(rule: Rule) -> bool
    ensures value { result ≡ tests.wants_box rule }
{
    matches!(rule, Rule::AllIntro | Rule::ExElim)
}
