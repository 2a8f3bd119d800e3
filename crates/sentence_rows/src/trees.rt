ghost use Rattle.std.specs.Prelude.{◌≡◌, length, min};
ghost use Rattle.std.specs.List.{flat_map};
ghost use Rattle.deriv_laws.specs.Trees.{nodes};

use crate::notation::{ident_of, sentence_of};
use crate::replies::{NoAnswer, listed, printed, shown};
use deriv_laws::{Concl, Rule, Tree, TreeFault, Trees, check_tree};
use fol_core::{Ident, Sent};
use lists::Listed;
use std::alloc::{AllocError, Global};

/// What the rule and the constant of a node are, and how many parts it has.
#[derive(Drop)]
struct Label {
    rule: Rule,
    count: usize,
    boxed: Option<Ident>,
}

/// What the tree shows, and from which open assumptions, or its least bad node. The texts are its nodes in postfix order:
/// `AndIntro/2 B & A` takes the last two trees. `AllIntro/1[c] @x P(x)` boxes the constant `c`. Without a number the node
/// has no parts.
pub fn checked(alloc: Global, texts: &[String]) -> Result<String, NoAnswer> {
    let tree = tree_of(alloc, texts)?;
    if size(&tree) == u32::MAX {
        return Err(NoAnswer::NoSuchCall);
    }
    match check_tree(alloc, &tree) {
        Ok(found) => shows(alloc, &found),
        Err(TreeFault::Memory) => Err(NoAnswer::Memory),
        Err(fault) => shown(alloc, &fault),
    }
}

fn shows(alloc: Global, found: &Concl) -> Result<String, NoAnswer> {
    let conclusion = printed(alloc, &found.conclusion)?;
    let assumptions = listed(alloc, found.assumptions.as_slice())?;
    Ok(format!(in alloc; "{conclusion} from {assumptions}")?)
}

fn tree_of(alloc: Global, texts: &[String]) -> Result<Tree, NoAnswer> {
    let mut trees: Vec<Tree> = Vec::new(alloc);
    for text in texts {
        put_node(alloc, text, &mut trees)?;
    }
    match trees.pop() {
        Some(tree) if trees.is_empty() => Ok(tree),
        _ => Err(NoAnswer::NoSuchCall),
    }
}

fn put_node(alloc: Global, text: &str, trees: &mut Vec<Tree>) -> Result<(), NoAnswer> {
    let Some((words, text)) = text.split_once(' ') else {
        return Err(NoAnswer::NoSuchCall);
    };
    let label = label_of(alloc, words)?;
    let sentence = sentence_of(alloc, text)?;
    Ok(join(alloc, label, sentence, trees)?)
}

/// Puts the node over the last trees.
fn join(
    alloc: Global,
    label: Label,
    sentence: Sent,
    trees: &mut Vec<Tree>,
) -> Result<(), AllocError> {
    let Label { rule, count, boxed } = label;
    let parts = last_of(alloc, count, trees)?;
    trees.push(Tree {
        rule,
        sentence,
        boxed,
        parts,
    })?;
    Ok(())
}

/// The last trees, so many where there are as many, in their order.
fn last_of(alloc: Global, count: usize, trees: &mut Vec<Tree>) -> Result<Trees, AllocError> {
    let mut last: Vec<Tree> = Vec::new(alloc);
    for _ in 0..count {
        if let Some(tree) = trees.pop() {
            last.push(tree)?;
        }
    }
    last.reverse();
    Ok(Listed::from_vec(last))
}

fn label_of(alloc: Global, words: &str) -> Result<Label, NoAnswer> {
    let (node, boxed) = match words.split_once('[') {
        Some((node, constant)) => (node, Some(ident_of(alloc, constant.trim_end_matches(']'))?)),
        None => (words, None),
    };
    let (name, count) = node.split_once('/').unwrap_or((node, "0"));
    match (rule_of(name), count.parse()) {
        (Some(rule), Ok(count)) => Ok(Label { rule, count, boxed }),
        _ => Err(NoAnswer::NoSuchCall),
    }
}

fn rule_of(name: &str) -> Option<Rule> {
    match name {
        "Premise" => Some(Rule::Premise),
        "Assume" => Some(Rule::Assume),
        "BoxOnly" => Some(Rule::BoxOnly),
        "Reit" => Some(Rule::Reit),
        "AndIntro" => Some(Rule::AndIntro),
        "AndElim" => Some(Rule::AndElim),
        "OrIntro" => Some(Rule::OrIntro),
        "OrElim" => Some(Rule::OrElim),
        "NotIntro" => Some(Rule::NotIntro),
        "NotElim" => Some(Rule::NotElim),
        "BotIntro" => Some(Rule::BotIntro),
        "BotElim" => Some(Rule::BotElim),
        "IfIntro" => Some(Rule::IfIntro),
        "IfElim" => Some(Rule::IfElim),
        "IffIntro" => Some(Rule::IffIntro),
        "IffElim" => Some(Rule::IffElim),
        "EqIntro" => Some(Rule::EqIntro),
        "EqElim" => Some(Rule::EqElim),
        _ => rule_of_quantifiers(name),
    }
}

fn rule_of_quantifiers(name: &str) -> Option<Rule> {
    match name {
        "AllIntro" => Some(Rule::AllIntro),
        "AllElim" => Some(Rule::AllElim),
        "ExIntro" => Some(Rule::ExIntro),
        "ExElim" => Some(Rule::ExElim),
        "TautCon" => Some(Rule::TautCon),
        "FoCon" => Some(Rule::FoCon),
        "AnaCon" => Some(Rule::AnaCon),
        _ => None,
    }
}

/// How many nodes there are, as far as the type counts.
#[cycle(size)]
#[tactic(auto, using(deriv_laws::proofs::Scanning::count_out))]
fn size(tree: &Tree) -> u32
    ensures value { result ≡ min (length (nodes tree.now)) 4294967295 }
{
    size_of_all(tree.parts.as_slice()).saturating_add(1)
}

#[cycle(size)]
fn size_of_all(parts: &[Tree]) -> u32
    ensures value { result ≡ min (length (flat_map nodes parts.now)) 4294967295 }
{
    let mut count: u32 = 0;
    for part in parts {
        count = count.saturating_add(size(part));
    }
    count
}
