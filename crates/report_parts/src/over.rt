//! What is said over all parts in a round, and its text.

ghost use Rattle.std.specs.Prelude.{◌≡◌, ◌++◌, IfErr, IfOk, OnOk, codes};
ghost use Rattle.part_groups.specs.Whole.{AreKeyed};
ghost use Rattle.report_parts.specs.Faults.{CanSay, IsBlockFault};
ghost use Rattle.report_parts.specs.Reports.{HasBlockTexts, block_lines, block_over};
ghost use Rattle.report_parts.specs.Rounds.{all_groups_in};
ghost use Rattle.report_parts.specs.Shown.{AreShownFrom};
ghost use Rattle.report_text.specs.Lines.{round_words};

use crate::beside::entries_beside;
use crate::block::Block;
use crate::blocks::{entries_over, push_items, written_start};
use crate::fault::BlockFault;
use crate::group_besides::groups_beside;
use crate::groups::{groups_over, push_groups};
use crate::part::Part;
use crate::rows_over::{push_rows, rows_over};
use crate::shape::Shape;
use daq_table::Listed;
use part_groups::Groups;
use query_model::ItemKind;
use std::alloc::{AllocError, Global};

// What is said over all parts in a round: of the items, of groups, or of first rows.
pub(crate) fn block_over(
    alloc: Global,
    round: usize,
    shape: &Shape,
    parts: &[Part],
) -> Result<Block, BlockFault>
    requires keyed { AreKeyed shape.now.columns (all_groups_in round parts.now) }
    requires shown { AreShownFrom round parts.now }
    ensures block { IfOk result (λ block. block ≡ block_over round shape.now parts.now) }
    ensures texts { IfOk result (HasBlockTexts shape.now.kinds) }
    ensures said { OnOk result (CanSay round shape.now parts.now) }
    ensures fault { IfErr result (λ why. IsBlockFault why round shape.now parts.now) }
{
    let kinds = shape.kinds.as_slice();
    let besides = shape.besides.as_slice();
    if shape.columns == 0 {
        if let Some(asked) = shape.rows {
            return Ok(Block::Rows(rows_over(alloc, round, asked, parts)?));
        }
        let entries = entries_over(alloc, round, kinds, parts)?;
        let entries = entries_beside(alloc, besides, &entries)?;
        return Ok(Block::Totals(Listed::new(entries)));
    }
    let groups = groups_over(alloc, round, shape.columns, kinds, parts)?;
    let groups = groups_beside(alloc, besides, groups)?;
    Ok(Block::Groups(Groups::new(groups)))
}

// Puts the lines of a block behind the text.
fn push_block(
    alloc: Global,
    text: &mut Vec<u8>,
    kinds: &[ItemKind],
    block: &Block,
) -> Result<(), AllocError>
    requires { HasBlockTexts kinds.now block.now }
    ensures { OnOk result (text.new.items ≡ text.old.items ++ block_lines kinds.now block.now) }
{
    match block {
        Block::Totals(entries) => push_items(alloc, text, kinds, entries.as_slice()),
        Block::Groups(groups) => push_groups(alloc, text, groups.as_slice()),
        Block::Rows(rows) => push_rows(alloc, text, rows),
    }
}

// The text of the block of a round that says this.
pub(crate) fn written_over(
    alloc: Global,
    round: usize,
    kinds: &[ItemKind],
    block: &Block,
) -> Result<Vec<u8>, AllocError>
    requires { HasBlockTexts kinds.now block.now }
    ensures { IfOk result (λ text. text.items ≡ (round_words round ++ codes "\n") ++ block_lines kinds.now block.now) }
{
    let mut text = written_start(alloc, round)?;
    push_block(alloc, &mut text, kinds, block)?;
    Ok(text)
}
