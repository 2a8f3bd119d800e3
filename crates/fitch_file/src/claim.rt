ghost use Rattle.std.specs.Prelude.{◌≡◌};
ghost use Rattle.std.specs.Option.{option_copied};
ghost use Rattle.fitch_file.specs.Claim.{suits as suits_of};
ghost use Rattle.fitch_file.specs.Readers.{FindsClaim, FindsReason};

use crate::boxes::split_box;
use crate::rule_names::rule_named;
use deriv_laws::Rule;
use texts::{cut, trim};

/// What a proof line claims behind its bars.
#[derive(Clone, Copy)]
pub struct Claim<'a> {
    /// The name in the box.
    pub boxed: Option<&'a [u8]>,
    /// The text of the sentence, without the blanks at its ends.
    pub stated: &'a [u8],
    pub rule: Rule,
    /// The text behind the colon.
    pub cites: Option<&'a [u8]>,
}

/// A rule's name, and the text behind the colon.
#[derive(Clone, Copy)]
pub struct Reason<'a> {
    pub rule: Rule,
    pub cites: Option<&'a [u8]>,
}

/// Reads what a line claims behind its bars.
pub(crate) fn read_claim(text: &[u8]) -> Option<Claim<'_>>
    ensures { FindsClaim text.now result }
{
    let (boxed, rest) = split_box(text);
    let Some((sentence, reason)) = cut(rest, b';') else {
        return None;
    };
    let Some(given) = read_reason(reason) else {
        return None;
    };
    let stated = trim(sentence);
    if suits(given.rule, boxed, stated) {
        Some(Claim {
            boxed,
            stated,
            rule: given.rule,
            cites: given.cites,
        })
    } else {
        None
    }
}

/// Reads a rule's name, and a colon and the text behind it where there is one.
fn read_reason(text: &[u8]) -> Option<Reason<'_>>
    ensures { FindsReason text.now result }
{
    match cut(text, b':') {
        Some((name, cites)) => match rule_named(trim(name)) {
            Some(rule) => Some(Reason {
                rule,
                cites: Some(cites),
            }),
            None => None,
        },
        None => match rule_named(trim(text)) {
            Some(rule) => Some(Reason { rule, cites: None }),
            None => None,
        },
    }
}

/// Whether the box and the text of the sentence suit the rule.
fn suits(rule: Rule, boxed: Option<&[u8]>, stated: &[u8]) -> bool
    ensures { result ≡ suits_of rule (option_copied boxed.entry) stated.now }
{
    match rule {
        Rule::BoxOnly => boxed.is_some() && stated.is_empty(),
        Rule::Assume => !stated.is_empty(),
        _ => boxed.is_none() && !stated.is_empty(),
    }
}
