ghost use Rattle.std.specs.Prelude.{◌≡◌, ◌++◌, ◌&&◌, not, None, IfOk, OnOk};
ghost use Rattle.std.specs.Fmt.{decimal};
ghost use Rattle.std.specs.List.{filter};
ghost use Rattle.worlds.specs.Geometry.{bears};
ghost use Rattle.world_text.specs.Printed.{with_commas, is_nothing, letter_text, names_text, block_text, world_text};
ghost use Rattle.world_text.specs.Printed as spec;
ghost use Rattle.world_text.specs.WorldText.{world_fault, world_of};

use lists::Listed;
use std::alloc::{AllocError, Global};
use worlds::{Block, Names, Shape, Size, World};

/// The bytes of a text.
type Bytes = Listed<u8>;

/// The text of the world: the header `world 1`, and then a line for each block in the order of their squares, with its
/// names in order and one space between its words. Each line ends with a line feed.
#[tactic(auto, using(crate::proofs::Letters::world_step, crate::proofs::PrintedBack::faultless_as, crate::proofs::PrintedBack::read_as))]
pub fn print_world(alloc: Global, w: &World) -> Result<Listed<u8>, AllocError>
    ensures text { IfOk result (λ text. text ≡ world_text w.now) }

    // It is read as the same world.
    ensures faultless { IfOk result (λ text. world_fault text ≡ None) }
    ensures read_back { IfOk result (λ text. world_of text ≡ w.now) }
{
    let mut text = Listed::new(alloc);
    text.extend(b"world 1\n")?;
    for block in w.blocks() {
        add_block(alloc, block, &mut text)?;
        text.extend(b"\n")?;
    }
    Ok(text)
}

/// Puts the line of the block last.
fn add_block(alloc: Global, block: &Block, text: &mut Bytes) -> Result<(), AllocError>
    ensures { OnOk result (text.new ≡ text.old ++ block_text block.now) }
{
    add_names(block.names, text)?;
    text.extend(b" ")?;
    text.extend(shape_text(block.shape))?;
    text.extend(b" ")?;
    text.extend(size_text(block.size))?;
    text.extend(b" ")?;
    add_number(alloc, block.column, text)?;
    text.extend(b" ")?;
    add_number(alloc, block.row, text)
}

/// Puts the number last, in decimal.
fn add_number(alloc: Global, number: u8, text: &mut Bytes) -> Result<(), AllocError>
    ensures { OnOk result (text.new ≡ text.old ++ decimal number) }
{
    let digits = format!(in alloc; "{number}")?;
    text.extend(digits.as_bytes())
}

/// Puts the names last, with commas between them, or `-` where there are none.
fn add_names(names: Names, text: &mut Bytes) -> Result<(), AllocError>
    ensures { OnOk result (text.new ≡ text.old ++ names_text names) }
{
    if add_letters(names, b"abcdef", text)? {
        text.extend(b"-")
    } else {
        Ok(())
    }
}

/// Puts those of the letters last that are names, with commas between them, and says whether there was none.
#[tactic(auto, using(crate::proofs::Letters::put_text, crate::proofs::Letters::put_first))]
fn add_letters(names: Names, letters: &[u8], text: &mut Bytes) -> Result<bool, AllocError>
    ensures text { OnOk result (text.new ≡ text.old ++ with_commas (filter (bears names) letters.now)) }
    ensures none { IfOk result (λ none. none ≡ is_nothing (filter (bears names) letters.now)) }
{
    let mut is_first = true;
    for letter in letters {
        is_first = add_letter(names, *letter, is_first, text)?;
    }
    Ok(is_first)
}

/// Puts the letter last where it is a name, behind a comma where it isn't the first one, and says whether there was none
/// so far.
fn add_letter(
    names: Names,
    letter: u8,
    is_first: bool,
    text: &mut Bytes,
) -> Result<bool, AllocError>
    ensures text { OnOk result (text.new ≡ text.old ++ letter_text (bears names letter) is_first letter) }
    ensures none { IfOk result (λ none. none ≡ (is_first && not (bears names letter))) }
{
    if !names.bears(letter) {
        return Ok(is_first);
    }
    if is_first {
        text.add(letter)?;
        return Ok(false);
    }
    text.extend(b",")?;
    text.add(letter)?;
    Ok(false)
}

/// The word of the shape.
fn shape_text(shape: Shape) -> &'static [u8]
    ensures text { result.now ≡ spec.shape_text shape }
{
    match shape {
        Shape::Tet => b"tet",
        Shape::Cube => b"cube",
        Shape::Dodec => b"dodec",
    }
}

/// The word of the size.
fn size_text(size: Size) -> &'static [u8]
    ensures text { result.now ≡ spec.size_text size }
{
    match size {
        Size::Small => b"small",
        Size::Medium => b"medium",
        Size::Large => b"large",
    }
}
