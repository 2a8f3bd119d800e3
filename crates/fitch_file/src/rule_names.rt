ghost use Rattle.std.specs.Prelude.{◌≡◌, ◌↔◌, [], ◌∷◌, IsTrue, MatchOption};
ghost use Rattle.std.specs.List.{AllByRecursion};
ghost use Rattle.fitch_file.specs.Readers.{Finds};
ghost use Rattle.fitch_file.specs.RuleNames as spec;
ghost use Rattle.fitch_file.specs.RuleNames.{IsName, IsRuleName, IsSigned, IsMarked, AreTwoWords, word_text};

use deriv_laws::Rule;
use texts::{after_blank, after_prefix, trim_start};

/// The sign of a connective, a quantifier, falsum or identity.
#[derive(Clone, Copy)]
pub enum Sign {
    Not,
    And,
    Or,
    If,
    Iff,
    All,
    Exists,
    Falsum,
    Equals,
}

/// A word of a rule's name.
#[derive(Clone, Copy)]
pub enum RuleWord {
    Premise,
    Assume,
    Box,
    Reit,
    Taut,
    Fo,
    Ana,
}

/// How a rule is named: by one word, by a word and `Con`, or by a sign and `Intro` or `Elim`.
#[derive(Clone, Copy)]
pub enum RuleName {
    OneWord(RuleWord),
    Consequence(RuleWord),
    Introduction(Sign),
    Elimination(Sign),
}

/// All rules that a line may name.
const RULES: [Rule; 25] = [
    Rule::Premise,
    Rule::Assume,
    Rule::BoxOnly,
    Rule::Reit,
    Rule::AndIntro,
    Rule::AndElim,
    Rule::OrIntro,
    Rule::OrElim,
    Rule::NotIntro,
    Rule::NotElim,
    Rule::BotIntro,
    Rule::BotElim,
    Rule::IfIntro,
    Rule::IfElim,
    Rule::IffIntro,
    Rule::IffElim,
    Rule::EqIntro,
    Rule::EqElim,
    Rule::AllIntro,
    Rule::AllElim,
    Rule::ExIntro,
    Rule::ExElim,
    Rule::TautCon,
    Rule::FoCon,
    Rule::AnaCon,
];

/// How the rule is named.
pub(crate) fn name_of(rule: Rule) -> RuleName
    ensures { result ≡ spec.name_of rule }
{
    match rule {
        Rule::Premise => RuleName::OneWord(RuleWord::Premise),
        Rule::Assume => RuleName::OneWord(RuleWord::Assume),
        Rule::BoxOnly => RuleName::OneWord(RuleWord::Box),
        Rule::Reit => RuleName::OneWord(RuleWord::Reit),
        Rule::AndIntro => RuleName::Introduction(Sign::And),
        Rule::AndElim => RuleName::Elimination(Sign::And),
        Rule::OrIntro => RuleName::Introduction(Sign::Or),
        Rule::OrElim => RuleName::Elimination(Sign::Or),
        Rule::NotIntro => RuleName::Introduction(Sign::Not),
        Rule::NotElim => RuleName::Elimination(Sign::Not),
        Rule::BotIntro => RuleName::Introduction(Sign::Falsum),
        Rule::BotElim => RuleName::Elimination(Sign::Falsum),
        Rule::IfIntro => RuleName::Introduction(Sign::If),
        Rule::IfElim => RuleName::Elimination(Sign::If),
        Rule::IffIntro => RuleName::Introduction(Sign::Iff),
        Rule::IffElim => RuleName::Elimination(Sign::Iff),
        Rule::EqIntro => RuleName::Introduction(Sign::Equals),
        Rule::EqElim => RuleName::Elimination(Sign::Equals),
        Rule::AllIntro => RuleName::Introduction(Sign::All),
        Rule::AllElim => RuleName::Elimination(Sign::All),
        Rule::ExIntro => RuleName::Introduction(Sign::Exists),
        Rule::ExElim => RuleName::Elimination(Sign::Exists),
        Rule::TautCon => RuleName::Consequence(RuleWord::Taut),
        Rule::FoCon => RuleName::Consequence(RuleWord::Fo),
        Rule::AnaCon => RuleName::Consequence(RuleWord::Ana),
    }
}

impl RuleWord {
    pub(crate) fn text(self) -> &'static [u8]
        ensures { result.now ≡ word_text self }
    {
        match self {
            RuleWord::Premise => b"Premise",
            RuleWord::Assume => b"Assume",
            RuleWord::Box => b"Box",
            RuleWord::Reit => b"Reit",
            RuleWord::Taut => b"Taut",
            RuleWord::Fo => b"FO",
            RuleWord::Ana => b"Ana",
        }
    }
}

impl Sign {
    /// The sign as it is typed.
    pub(crate) fn typed(self) -> &'static [u8]
        ensures { result.now ≡ spec.typed self ∷ [] }
    {
        match self {
            Sign::Not => b"~",
            Sign::And => b"&",
            Sign::Or => b"|",
            Sign::If => b"$",
            Sign::Iff => b"%",
            Sign::All => b"@",
            Sign::Exists => b"/",
            Sign::Falsum => b"^",
            Sign::Equals => b"=",
        }
    }

    /// The sign as the logician's symbol in UTF-8.
    fn symbol(self) -> &'static [u8]
        ensures { result.now ≡ spec.symbol self }
    {
        match self {
            Sign::Not => b"\xc2\xac",
            Sign::And => b"\xe2\x88\xa7",
            Sign::Or => b"\xe2\x88\xa8",
            Sign::If => b"\xe2\x86\x92",
            Sign::Iff => b"\xe2\x86\x94",
            Sign::All => b"\xe2\x88\x80",
            Sign::Exists => b"\xe2\x88\x83",
            Sign::Falsum => b"\xe2\x8a\xa5",
            Sign::Equals => b"=",
        }
    }
}

/// The rule of that name.
pub(crate) fn rule_named(text: &[u8]) -> Option<Rule>
    ensures { Finds (IsRuleName text.now) result }
{
    first_named(&RULES, text)
}

/// The first of the rules that has the name.
fn first_named(rules: &[Rule], text: &[u8]) -> Option<Rule>
    ensures { MatchOption result (AllByRecursion (λ rule. IsRuleName text.now rule → ⊥) rules.now) (IsRuleName text.now) }
{
    for rule in rules {
        if is_name(text, name_of(*rule)) {
            return Some(*rule);
        }
    }
    None
}

fn is_name(text: &[u8], name: RuleName) -> bool
    ensures { IsTrue result ↔ IsName name text.now }
{
    match name {
        RuleName::OneWord(word) => is_word(text, word.text()),
        RuleName::Consequence(word) => are_two_words(text, word.text(), b"Con"),
        RuleName::Introduction(sign) => is_signed(text, sign, b"Intro"),
        RuleName::Elimination(sign) => is_signed(text, sign, b"Elim"),
    }
}

/// Whether the text is the word.
fn is_word(text: &[u8], word: &[u8]) -> bool
    ensures { IsTrue result ↔ (text.now ≡ word.now) }
{
    text == word
}

/// Whether the text is the sign, in either set, and the word.
fn is_signed(text: &[u8], sign: Sign, word: &[u8]) -> bool
    ensures { IsTrue result ↔ IsSigned sign word.now text.now }
{
    is_marked(text, sign.typed(), word) || is_marked(text, sign.symbol(), word)
}

/// Whether the text is the mark and the word, with blanks between them or none.
fn is_marked(text: &[u8], mark: &[u8], word: &[u8]) -> bool
    ensures { IsTrue result ↔ IsMarked mark.now word.now text.now }
{
    match after_prefix(text, mark) {
        Some(tail) => is_word(trim_start(tail), word),
        None => false,
    }
}

/// Whether the text is the two words, with blanks between them.
fn are_two_words(text: &[u8], first: &[u8], second: &[u8]) -> bool
    ensures { IsTrue result ↔ AreTwoWords first.now second.now text.now }
{
    match after_prefix(text, first) {
        Some(tail) => match after_blank(tail) {
            Some(rest) => is_word(trim_start(rest), second),
            None => false,
        },
        None => false,
    }
}
