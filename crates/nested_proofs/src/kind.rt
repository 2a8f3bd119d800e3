ghost use Rattle.std.specs.Prelude.{◌≡◌};
ghost use Rattle.nested_proofs.specs.Kinds as kinds;

use deriv_laws::Rule;

/// What is asked of a line with a rule: each rule is of one kind, and each test goes by the kind.
#[derive(Clone, Copy, Debug, PartialEq, Eq)]
pub enum RuleKind {
    /// The line states a premise of the task.
    Premise,
    /// The line opens a subproof, by an assumption or by a boxed constant alone.
    Opening,
    /// The line is a step by reiteration or by a rule of a connective.
    Propositional,
    /// The line is a step by a rule of identity or of a quantifier.
    Quantified,
    /// The line is a step by a consequence rule.
    Consequence,
}

/// The kind of a rule.
pub fn kind_of(rule: Rule) -> RuleKind
    ensures value { result ≡ kinds.kind_of rule }
{
    match rule {
        Rule::Premise => RuleKind::Premise,
        Rule::Assume | Rule::BoxOnly => RuleKind::Opening,
        Rule::Reit
        | Rule::AndIntro
        | Rule::AndElim
        | Rule::OrIntro
        | Rule::OrElim
        | Rule::NotIntro
        | Rule::NotElim
        | Rule::BotIntro
        | Rule::BotElim
        | Rule::IfIntro
        | Rule::IfElim
        | Rule::IffIntro
        | Rule::IffElim => RuleKind::Propositional,
        Rule::EqIntro
        | Rule::EqElim
        | Rule::AllIntro
        | Rule::AllElim
        | Rule::ExIntro
        | Rule::ExElim => RuleKind::Quantified,
        Rule::TautCon | Rule::FoCon | Rule::AnaCon => RuleKind::Consequence,
    }
}
