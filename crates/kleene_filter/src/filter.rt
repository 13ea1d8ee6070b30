//! The rows of a condition.

ghost use Rattle.std.specs.Prelude.{◌≡◌, ◌≤◌, ◌<◌, ◌+◌, ◌-◌, ◌*◌, length, map, count_by, IfOk, IsTrue, OnOk};
ghost use Rattle.query_model.specs.declared.query.Atom.{Atom};
ghost use Rattle.query_model.specs.Meaning.{PredReadsBelow};
ghost use Rattle.query_model.specs.Queries.{condition_of};
ghost use Rattle.std.specs.Prelude.{List};
ghost use Rattle.known_column.specs.KnownTables.{IsKnownTable};
ghost use Rattle.kleene_filter.specs.Blocks.{bit_in};
ghost use Rattle.kleene_filter.specs.Filters.{is_certain, is_possible, is_unknown, truths_under, AreJudged, AreKept};
ghost use Rattle.kleene_filter.specs.Filters.{AreRightWhereSame, AreSettled, AreUnread, IsJudged, IsWritten, StandsFor, StoodBefore};
ghost use Rattle.kleene_filter.specs.Kept.{kept_by_all};
ghost use Rattle.kleene_filter.specs.Moved.{AreMoved};
ghost use Rattle.kleene_filter.specs.Masks.{atoms_of, AddsMasks, AreMasksOf, WereMasksOf};
ghost use Rattle.kleene_filter.specs.Unions.{IsUnion};

use crate::block_truths::must_hold;
use crate::judging::{Place, pred_truths};
use crate::lanes::renew_block;
use crate::masks::{AtomMasks, is_untouched};
use crate::reads::pred_reads;
use crate::truth_masks::{BlockRows, KeptTruths, MovedRows, TruthMasks, even_mask, recounted};
use crate::unions::{add_rows, union_end};
use known_column::{LentColumns, RowBlock, blocks_have_their_rows};
use plane_kernels::{Mask, Plane};
use query_model::Pred;
use std::alloc::{AllocError, Global};
use std::marker::Model;

/// What is known of a condition at each row: a list of truths, with masks of its atoms that follow the columns.
pub struct Filter {
    truths: KeptTruths,
    masks: Vec<AtomMasks>,
}

// A call of its own: a derived drop is proved anew wherever one is let go.
impl Drop for Filter {
    fn drop(self) {
        let Filter {
            truths: _,
            masks: _,
        } = self;
    }
}

impl Model for Filter {
    ghost use Rattle.std.specs.Simd.Lanes.{zip2};
    ghost use Rattle.query_model.specs.Truths.{truth_from};
    ghost use Rattle.kleene_filter.specs.Filters.{AreSound, Judgement};

    ghost Value = { Judgement };

    ghost view = { λ f. record { truths = zip2 truth_from f.truths.masks.must f.truths.masks.may; masks = f.masks.items } };

    ghost invariant = { λ f. AreSound f.truths };
}

// Makes the bits of the rows of a word those of the word.
fn write_word(mask: &mut Mask, number: usize, word: u64)
    requires { 64 * number < length mask.old }
    ensures { IsWritten number word mask.old mask.new }
{
    if mask.word(number) == word {
        return;
    }
    mask.set_word(number, word);
}

// Sets the bits of the rows of a word by what is known of the condition there, where the rows are read row by row. Nothing is done where
// no row's bits differ: what is decided at a row stays so.
fn judge_word(
    pred: &Pred,
    masks: &[AtomMasks],
    columns: &LentColumns<'_>,
    number: usize,
    rows: &mut RowBlock,
    truths: &mut TruthMasks,
)
    requires columns { PredReadsBelow (length columns.now.frame.columns) (condition_of pred.now) }
    requires masks { AreMasksOf masks.now 0 (atoms_of (condition_of pred.now)) columns.now }
    requires known { IsKnownTable columns.now }
    requires number { 64 * number < columns.now.frame.rows }
    requires rows { rows.old.frame.columns ≡ columns.now.frame.columns }
    requires must { length truths.old.must ≡ columns.now.frame.rows }
    requires may { length truths.old.may ≡ columns.now.frame.rows }
    requires same { AreRightWhereSame (condition_of pred.now) columns.now (64 * number) truths.old.must truths.old.may }
    ensures rows { rows.new.frame.columns ≡ columns.now.frame.columns }
    ensures must { IsJudged is_certain (condition_of pred.now) columns.now number truths.old.must truths.new.must }
    ensures may { IsJudged is_possible (condition_of pred.now) columns.now number truths.old.may truths.new.may }
    ensures same { AreRightWhereSame (condition_of pred.now) columns.now (64 * number + 64) truths.new.must truths.new.may }
{
    if truths.must.word(number) == truths.may.word(number) {
        return;
    }
    blocks_have_their_rows();
    rows.read(columns, number);
    let (block, word) = (number / 8, number % 8);
    let place = Place {
        block,
        word,
        to: (columns.rows() - 512 * block).min(64 * word + 64),
        first: 0,
    };
    let found = pred_truths(pred, masks, 0, columns, &*rows, place).truths;
    write_word(&mut truths.must, number, must_hold(&found)[word]);
    write_word(&mut truths.may, number, found.may_hold[word]);
}

// The same for the rows of a block of 512, word by word.
fn judge_words(
    pred: &Pred,
    masks: &[AtomMasks],
    columns: &LentColumns<'_>,
    block: usize,
    rows: &mut RowBlock,
    truths: &mut TruthMasks,
)
    requires columns { PredReadsBelow (length columns.now.frame.columns) (condition_of pred.now) }
    requires masks { AreMasksOf masks.now 0 (atoms_of (condition_of pred.now)) columns.now }
    requires block { 512 * block < columns.now.frame.rows }
    requires rows { rows.old.frame.columns ≡ columns.now.frame.columns }
    requires must { length truths.old.must ≡ columns.now.frame.rows }
    requires may { length truths.old.may ≡ columns.now.frame.rows }
    requires same { AreRightWhereSame (condition_of pred.now) columns.now (512 * block) truths.old.must truths.old.may }
    ensures rows { rows.new.frame.columns ≡ columns.now.frame.columns }
    ensures must { AreJudged is_certain (condition_of pred.now) columns.now (512 * block) (512 * block + 512)
        truths.old.must truths.new.must }
    ensures may { AreJudged is_possible (condition_of pred.now) columns.now (512 * block) (512 * block + 512)
        truths.old.may truths.new.may }
{
    let end = columns.rows().div_ceil(64).min(8 * block + 8);
    for number in 8 * block..end {
        judge_word(pred, masks, columns, number, rows, truths);
    }
}

// The same at once, and tells which rows the block had and has. An atom without masks would be read row by row at all rows of the block.
fn judge_at_once(
    pred: &Pred,
    masks: &[AtomMasks],
    columns: &LentColumns<'_>,
    block: usize,
    truths: &mut TruthMasks,
) -> MovedRows
    requires columns { PredReadsBelow (length columns.now.frame.columns) (condition_of pred.now) }
    requires masks { AreMasksOf masks.now 0 (atoms_of (condition_of pred.now)) columns.now }
    requires block { 512 * block < columns.now.frame.rows }
    requires must { length truths.old.must ≡ columns.now.frame.rows }
    requires may { length truths.old.may ≡ columns.now.frame.rows }
    ensures must { AreJudged is_certain (condition_of pred.now) columns.now (512 * block) (512 * block + 512)
        truths.old.must truths.new.must }
    ensures may { AreJudged is_possible (condition_of pred.now) columns.now (512 * block) (512 * block + 512)
        truths.old.may truths.new.may }
    ensures moved { AreMoved block truths.old truths.new result }
{
    let place = Place {
        block,
        word: 0,
        to: (columns.rows() - 512 * block).min(512),
        first: 512 * block,
    };
    let rows = columns.again();
    let before = truths.rows_in(block);
    let found = pred_truths(pred, masks, 0, columns, &rows, place).truths;
    let certain = renew_block(&mut truths.must, block, &before.certain, &must_hold(&found));
    let possible = renew_block(&mut truths.may, block, &before.possible, &found.may_hold);
    MovedRows {
        before,
        after: BlockRows { certain, possible },
    }
}

// Sets the bits of the rows of a block of 512 by what is known of the condition there, and tells which it had and has.
fn judge_block(
    pred: &Pred,
    masks: &[AtomMasks],
    columns: &LentColumns<'_>,
    block: usize,
    rows: &mut RowBlock,
    truths: &mut TruthMasks,
) -> MovedRows
    requires columns { PredReadsBelow (length columns.now.frame.columns) (condition_of pred.now) }
    requires masks { AreMasksOf masks.now 0 (atoms_of (condition_of pred.now)) columns.now }
    requires block { 512 * block < columns.now.frame.rows }
    requires rows { rows.old.frame.columns ≡ columns.now.frame.columns }
    requires must { length truths.old.must ≡ columns.now.frame.rows }
    requires may { length truths.old.may ≡ columns.now.frame.rows }
    requires same { AreRightWhereSame (condition_of pred.now) columns.now (512 * block) truths.old.must truths.old.may }
    ensures rows { rows.new.frame.columns ≡ columns.now.frame.columns }
    ensures must { AreJudged is_certain (condition_of pred.now) columns.now (512 * block) (512 * block + 512)
        truths.old.must truths.new.must }
    ensures may { AreJudged is_possible (condition_of pred.now) columns.now (512 * block) (512 * block + 512)
        truths.old.may truths.new.may }
    ensures same { AreRightWhereSame (condition_of pred.now) columns.now (512 * block + 512) truths.new.must truths.new.may }
    ensures moved { AreMoved block truths.old truths.new result }
{
    if masks.iter().any(|own| own.is_by_rows()) {
        let before = truths.rows_in(block);
        judge_words(pred, masks, columns, block, rows, truths);
        MovedRows {
            before,
            after: truths.rows_in(block),
        }
    } else {
        judge_at_once(pred, masks, columns, block, truths)
    }
}

// The same, with what is kept beside the bits. Nothing is done where the block is decided: what is decided at a row stays so.
fn decide_block(
    pred: &Pred,
    masks: &[AtomMasks],
    columns: &LentColumns<'_>,
    block: usize,
    rows: &mut RowBlock,
    truths: &mut KeptTruths,
)
    requires columns { PredReadsBelow (length columns.now.frame.columns) (condition_of pred.now) }
    requires masks { AreMasksOf masks.now 0 (atoms_of (condition_of pred.now)) columns.now }
    requires block { block < length truths.old.undecided }
    requires rows { rows.old.frame.columns ≡ columns.now.frame.columns }
    requires must { length truths.old.masks.must ≡ columns.now.frame.rows }
    requires may { length truths.old.masks.may ≡ columns.now.frame.rows }
    requires kept { AreKept truths.old }
    requires same { AreRightWhereSame (condition_of pred.now) columns.now (512 * block) truths.old.masks.must truths.old.masks.may }
    ensures rows { rows.new.frame.columns ≡ columns.now.frame.columns }
    ensures must { AreJudged is_certain (condition_of pred.now) columns.now (512 * block) (512 * block + 512)
        truths.old.masks.must truths.new.masks.must }
    ensures may { AreJudged is_possible (condition_of pred.now) columns.now (512 * block) (512 * block + 512)
        truths.old.masks.may truths.new.masks.may }
    ensures kept { AreKept truths.new }
    ensures blocks { length truths.new.undecided ≡ length truths.old.undecided }
    ensures same { AreRightWhereSame (condition_of pred.now) columns.now (512 * block + 512) truths.new.masks.must truths.new.masks.may }
{
    if !truths.undecided.get(block) {
        return;
    }
    // The counts are at most the rows, which are few.
    let _rows = columns.rows();
    let moved = judge_block(pred, masks, columns, block, rows, &mut truths.masks);
    let (before, after) = (moved.before, moved.after);
    truths.certain = recounted(truths.certain, &before.certain, &after.certain);
    truths.possible = recounted(truths.possible, &before.possible, &after.possible);
    if after.are_decided() {
        truths.undecided.set(block, false);
    }
}

// Sets each row's bits by what is known of the condition there, block by block. Before, bits that are the same are right: a block that
// is decided is passed over.
fn judge_blocks(
    pred: &Pred,
    masks: &[AtomMasks],
    columns: &LentColumns<'_>,
    rows: &mut RowBlock,
    truths: &mut KeptTruths,
)
    requires columns { PredReadsBelow (length columns.now.frame.columns) (condition_of pred.now) }
    requires masks { AreMasksOf masks.now 0 (atoms_of (condition_of pred.now)) columns.now }
    requires rows { rows.old.frame.columns ≡ columns.now.frame.columns }
    requires must { length truths.old.masks.must ≡ columns.now.frame.rows }
    requires may { length truths.old.masks.may ≡ columns.now.frame.rows }
    requires kept { AreKept truths.old }
    requires same { AreRightWhereSame (condition_of pred.now) columns.now 0 truths.old.masks.must truths.old.masks.may }
    ensures rows { rows.new.frame.columns ≡ columns.now.frame.columns }
    ensures must { truths.new.masks.must ≡ map is_certain (truths_under (condition_of pred.now) columns.now) }
    ensures may { truths.new.masks.may ≡ map is_possible (truths_under (condition_of pred.now) columns.now) }
    ensures kept { AreKept truths.new }
{
    for block in 0..truths.undecided.rows() {
        decide_block(pred, masks, columns, block, rows, truths);
    }
}

// Whether the rows of the condition are to be found mask by mask: its atoms stand under OR alone and may fail at every row, no row is
// certain, and so many blocks are not decided that whole passes are cheaper than blocks. How many affects speed alone.
fn is_union(
    pred: &Pred,
    masks: &[AtomMasks],
    columns: &LentColumns<'_>,
    truths: &KeptTruths,
) -> bool
    requires columns { PredReadsBelow (length columns.now.frame.columns) (condition_of pred.now) }
    requires masks { AreMasksOf masks.now 0 (atoms_of (condition_of pred.now)) columns.now }
    ensures union { IsTrue result → IsUnion (condition_of pred.now) masks.now 0 columns.now }
    ensures certain { IsTrue result → truths.now.certain ≡ 0 }
{
    let many = truths.undecided.rows() as u64 / 16;
    if truths.certain > 0 || truths.undecided.count() < many {
        return false;
    }
    union_end(pred, masks, 0, columns).is_some()
}

// Sets each row's bits mask by mask, where the atoms stand under OR alone and may fail at every row: then none is certain, and those are
// possible at which an atom may hold.
fn judge_union(pred: &Pred, masks: &[AtomMasks], columns: &LentColumns<'_>, truths: &mut KeptTruths)
    requires columns { PredReadsBelow (length columns.now.frame.columns) (condition_of pred.now) }
    requires masks { AreMasksOf masks.now 0 (atoms_of (condition_of pred.now)) columns.now }
    requires union { IsUnion (condition_of pred.now) masks.now 0 columns.now }
    requires none { truths.old.certain ≡ 0 }
    requires must { length truths.old.masks.must ≡ columns.now.frame.rows }
    requires may { length truths.old.masks.may ≡ columns.now.frame.rows }
    requires kept { AreKept truths.old }
    requires same { AreRightWhereSame (condition_of pred.now) columns.now 0 truths.old.masks.must truths.old.masks.may }
    ensures must { truths.new.masks.must ≡ map is_certain (truths_under (condition_of pred.now) columns.now) }
    ensures may { truths.new.masks.may ≡ map is_possible (truths_under (condition_of pred.now) columns.now) }
    ensures kept { AreKept truths.new }
{
    let _rows = columns.rows();
    truths.masks.may.copy_from(&truths.masks.must);
    add_rows(pred, masks, 0, columns, &mut truths.masks.may);
    truths.renew_possible();
}

// Sets each row's bits by what is known of the condition there. Before, bits that are the same are right.
fn judge_all(
    pred: &Pred,
    masks: &[AtomMasks],
    columns: &LentColumns<'_>,
    rows: &mut RowBlock,
    truths: &mut KeptTruths,
)
    requires columns { PredReadsBelow (length columns.now.frame.columns) (condition_of pred.now) }
    requires masks { AreMasksOf masks.now 0 (atoms_of (condition_of pred.now)) columns.now }
    requires rows { rows.old.frame.columns ≡ columns.now.frame.columns }
    requires must { length truths.old.masks.must ≡ columns.now.frame.rows }
    requires may { length truths.old.masks.may ≡ columns.now.frame.rows }
    requires kept { AreKept truths.old }
    requires same { AreRightWhereSame (condition_of pred.now) columns.now 0 truths.old.masks.must truths.old.masks.may }
    ensures rows { rows.new.frame.columns ≡ columns.now.frame.columns }
    ensures must { truths.new.masks.must ≡ map is_certain (truths_under (condition_of pred.now) columns.now) }
    ensures may { truths.new.masks.may ≡ map is_possible (truths_under (condition_of pred.now) columns.now) }
    ensures kept { AreKept truths.new }
{
    if is_union(pred, masks, columns, truths) {
        judge_union(pred, masks, columns, truths);
    } else {
        judge_blocks(pred, masks, columns, rows, truths);
    }
}

// Whether nothing is read of any column.
fn is_unread(columns: &LentColumns<'_>) -> bool
    ensures { IsTrue result → AreUnread columns.now }
{
    for column in 0..columns.len() {
        if !is_untouched(columns.column(column)) {
            return false;
        }
    }
    true
}

// Whether these have the first row.
fn has_first(rows: &[u64; 8]) -> bool
    ensures { result ≡ bit_in 0 rows.now }
{
    rows[0] % 2 == 1
}

// What is known of the condition at each row where nothing is read: what is known at the first.
fn truths_of_unread(
    alloc: Global,
    pred: &Pred,
    masks: &[AtomMasks],
    columns: &LentColumns<'_>,
) -> Result<KeptTruths, AllocError>
    requires columns { PredReadsBelow (length columns.now.frame.columns) (condition_of pred.now) }
    requires masks { AreMasksOf masks.now 0 (atoms_of (condition_of pred.now)) columns.now }
    requires some { 0 < columns.now.frame.rows }
    requires unread { AreUnread columns.now }
    ensures must { IfOk result (λ truths. truths.masks.must ≡ map is_certain (truths_under (condition_of pred.now) columns.now)) }
    ensures may { IfOk result (λ truths. truths.masks.may ≡ map is_possible (truths_under (condition_of pred.now) columns.now)) }
    ensures kept { IfOk result AreKept }
{
    let count = columns.rows();
    let place = Place {
        block: 0,
        word: 0,
        to: 1,
        first: 0,
    };
    let rows = columns.again();
    let found = pred_truths(pred, masks, 0, columns, &rows, place).truths;
    let certain = has_first(&must_hold(&found));
    let possible = has_first(&found.may_hold);
    let must = even_mask(alloc, count, certain)?;
    let may = even_mask(alloc, count, possible)?;
    KeptTruths::of(alloc, TruthMasks { must, may }, certain == possible)
}

// What is known of the condition at each row.
fn open_truths(
    alloc: Global,
    pred: &Pred,
    masks: &[AtomMasks],
    columns: &LentColumns<'_>,
    rows: &mut RowBlock,
) -> Result<KeptTruths, AllocError>
    requires columns { PredReadsBelow (length columns.now.frame.columns) (condition_of pred.now) }
    requires masks { AreMasksOf masks.now 0 (atoms_of (condition_of pred.now)) columns.now }
    requires rows { rows.old.frame.columns ≡ columns.now.frame.columns }
    ensures rows { rows.new.frame.columns ≡ columns.now.frame.columns }
    ensures must { IfOk result (λ truths. truths.masks.must ≡ map is_certain (truths_under (condition_of pred.now) columns.now)) }
    ensures may { IfOk result (λ truths. truths.masks.may ≡ map is_possible (truths_under (condition_of pred.now) columns.now)) }
    ensures kept { IfOk result AreKept }
{
    let count = columns.rows();
    if count > 0 && is_unread(columns) {
        return truths_of_unread(alloc, pred, masks, columns);
    }
    let none = TruthMasks {
        must: Mask::none(alloc, count)?,
        may: Mask::all(alloc, count)?,
    };
    let mut truths = KeptTruths::of(alloc, none, false)?;
    judge_all(pred, masks, columns, rows, &mut truths);
    Ok(truths)
}

// How many comparisons and listed numbers more may keep masks, where in all so many may.
fn room_beside(masks: &[AtomMasks], most: usize) -> usize
    ensures { result ≡ most - kept_by_all masks.now }
{
    let mut room = most;
    for own in masks.iter() {
        room = room.saturating_sub(own.count());
    }
    room
}

// Adds the masks of each atom of the condition, as long as so many suffice.
fn open_each(
    alloc: Global,
    pred: &Pred,
    columns: &LentColumns<'_>,
    most: usize,
    masks: &mut Vec<AtomMasks>,
) -> Result<(), AllocError>
    requires columns { PredReadsBelow (length columns.now.frame.columns) (condition_of pred.now) }
    requires known { IsKnownTable columns.now }
    ensures adds { OnOk result (AddsMasks masks.old.items masks.new.items (atoms_of (condition_of pred.now)) columns.now) }
    ensures few { kept_by_all masks.old.items ≤ most → OnOk result (kept_by_all masks.new.items ≤ most) }
{
    match pred {
        Pred::All => Ok(()),
        Pred::Atom(atom) => {
            let room = room_beside(masks, most);
            masks.push(AtomMasks::open(alloc, atom, columns, room)?)?;
            Ok(())
        }
        Pred::And(a, b) | Pred::Or(a, b) => {
            open_each(alloc, a, columns, most, masks)?;
            open_each(alloc, b, columns, most, masks)
        }
        Pred::Not(a) => open_each(alloc, a, columns, most, masks),
    }
}

// Has the masks of each atom follow the columns after a plane of one of them.
fn follow_each(masks: &mut Vec<AtomMasks>, columns: &LentColumns<'_>, column: usize, plane: &Plane)
    requires { (atoms : List Atom) × WereMasksOf masks.old.items atoms columns.now column plane.now }
    ensures count { length masks.new.items ≡ length masks.old.items }
    ensures follow { (atoms : List Atom) → WereMasksOf masks.old.items atoms columns.now column plane.now
        → AreMasksOf masks.new.items 0 atoms columns.now }
{
    for own in masks.iter_mut() {
        own.follow(columns, column, plane);
    }
}

impl Filter {
    /// The filter of the condition over columns of which planes may be read. Their rows are read through the block. At most so
    /// many comparisons and listed numbers keep masks, where BETWEEN is two comparisons; what passes them is judged row by row. All
    /// room is taken here.
    pub fn open(
        alloc: Global,
        pred: &Pred,
        columns: &LentColumns<'_>,
        block: &mut RowBlock,
        most: usize,
    ) -> Result<Filter, AllocError>
        requires columns { PredReadsBelow (length columns.now.frame.columns) (condition_of pred.now) }
        requires block { block.old.frame.columns ≡ columns.now.frame.columns }
        ensures block { block.new.frame.columns ≡ columns.now.frame.columns }
        ensures stands { IfOk result (λ filter. StandsFor filter (condition_of pred.now) columns.now) }
        ensures few { IfOk result (λ filter. kept_by_all filter.masks ≤ most) }
    {
        let _rows = columns.rows();
        let mut masks = Vec::new(alloc);
        open_each(alloc, pred, columns, most, &mut masks)?;
        let truths = open_truths(alloc, pred, &masks, columns, block)?;
        Ok(Filter { truths, masks })
    }

    /// Follows the columns after a plane of one of them was taken. Before, the filter was that of the condition then. Nothing
    /// is done where the condition does not read that column.
    pub fn refresh(
        &mut self,
        pred: &Pred,
        columns: &LentColumns<'_>,
        column: usize,
        plane: &Plane,
        block: &mut RowBlock,
    )
        requires columns { PredReadsBelow (length columns.now.frame.columns) (condition_of pred.now) }
        requires stood { StoodBefore self.old (condition_of pred.now) columns.now column plane.now }
        requires block { block.old.frame.columns ≡ columns.now.frame.columns }
        ensures block { block.new.frame.columns ≡ columns.now.frame.columns }
        ensures stands { StandsFor self.new (condition_of pred.now) columns.now }
    {
        let _rows = columns.rows();
        follow_each(&mut self.masks, columns, column, plane);
        if !pred_reads(pred, column) {
            return;
        }
        judge_all(pred, &self.masks, columns, block, &mut self.truths);
    }

    /// The rows at which the condition holds for certain.
    pub fn must(&self) -> &Mask
        ensures { result.now ≡ map is_certain self.now.truths }
    {
        &self.truths.masks.must
    }

    /// The rows at which the condition may hold.
    pub fn may(&self) -> &Mask
        ensures { result.now ≡ map is_possible self.now.truths }
    {
        &self.truths.masks.may
    }

    /// The blocks of 512 rows that may have a row at which it is not known whether the condition holds, a bit for each block.
    pub fn undecided(&self) -> &Mask
        ensures { AreSettled (map is_certain self.now.truths) (map is_possible self.now.truths) result.now }
    {
        &self.truths.undecided
    }

    /// The number of rows at which it is not known whether the condition holds.
    pub fn unknown(&self) -> u64
        ensures { result ≡ count_by is_unknown self.now.truths }
    {
        self.truths.possible - self.truths.certain
    }

    /// The number of rows at which the condition may hold.
    pub fn possible(&self) -> u64
        ensures { result ≡ count_by is_possible self.now.truths }
    {
        self.truths.possible
    }
}
