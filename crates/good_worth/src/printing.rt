// Prints the worths of all goods.
ghost use Rattle.std.specs.Prelude.{◌≡◌, ◌++◌, ◌<◌, OnOk, IfOk};
ghost use Rattle.text_forms.specs.Lines.{text_of};
ghost use Rattle.good_worth.specs.Views.{worths_of};
ghost use Rattle.good_worth.specs.WorthTexts as texts;

use crate::worths::Worths;
use allocator::append_solved;
use std::alloc::{AllocError, Global};
use tac_base::Memory;
use tac_base::limits::GOODS;
use text_forms::print_row;

/// Appends the line of a good, 0..27. After an error the text may end within it.
fn print_good(worths: &Worths, good: u8, out: &mut Vec<u8>) -> Result<(), AllocError>
    requires { good < GOODS }
    ensures { OnOk result (out.new.items ≡ out.old.items ++ text_of (texts.good_lines (worths_of worths.now.base worths.now.more.items worths.now.less.items) good)) }
{
    let numbers = [
        i64::from(good),
        i64::from(worths.up(usize::from(good))),
        i64::from(worths.down(usize::from(good))),
    ];
    print_row(out, b"good", &numbers)
}

/// Appends the lines of all goods. After an error the text may end within them.
#[tactic(auto, using(crate::proofs::Lines::no_text, crate::proofs::Lines::lines_more))]
fn print_goods(worths: &Worths, out: &mut Vec<u8>) -> Result<(), AllocError>
    ensures { OnOk result (out.new.items ≡ out.old.items ++ text_of (texts.lines_below (texts.good_lines (worths_of worths.now.base worths.now.more.items worths.now.less.items)) GOODS)) }
{
    for good in 0..GOODS {
        print_good(worths, good, out)?;
    }
    Ok(())
}

/// Appends the base's total and the lines of all goods. After an error the text may end within them.
fn print_head(worths: &Worths, out: &mut Vec<u8>) -> Result<(), AllocError>
    ensures { OnOk result (out.new.items ≡ out.old.items ++ text_of (texts.head_lines (worths_of worths.now.base worths.now.more.items worths.now.less.items))) }
{
    print_row(out, b"worth", &[i64::from(worths.base.total)])?;
    print_goods(worths, out)
}

/// Appends the text of the base. After `Memory` the text may end within it.
fn print_base(alloc: Global, worths: &Worths, out: &mut Vec<u8>) -> Result<(), Memory>
    ensures { OnOk result (out.new.items ≡ out.old.items ++ text_of (texts.base_lines (worths_of worths.now.base worths.now.more.items worths.now.less.items))) }
{
    out.extend_from_slice(b"base\n")?;
    append_solved(alloc, &worths.base, out)
}

/// Appends the two texts of a good, 0..27. After `Memory` the text may end within them.
fn print_changed(alloc: Global, worths: &Worths, good: u8, out: &mut Vec<u8>) -> Result<(), Memory>
    requires { good < GOODS }
    ensures { OnOk result (out.new.items ≡ out.old.items ++ text_of (texts.changed_lines (worths_of worths.now.base worths.now.more.items worths.now.less.items) good)) }
{
    print_row(out, b"more", &[i64::from(good)])?;
    append_solved(alloc, &worths.more[usize::from(good)], out)?;
    print_row(out, b"less", &[i64::from(good)])?;
    append_solved(alloc, &worths.less[usize::from(good)], out)
}

/// Appends the texts of all goods. After `Memory` the text may end within them.
#[tactic(auto, using(crate::proofs::Lines::no_text, crate::proofs::Lines::lines_more))]
fn print_all_changed(alloc: Global, worths: &Worths, out: &mut Vec<u8>) -> Result<(), Memory>
    ensures { OnOk result (out.new.items ≡ out.old.items ++ text_of (texts.lines_below (texts.changed_lines (worths_of worths.now.base worths.now.more.items worths.now.less.items)) GOODS)) }
{
    for good in 0..GOODS {
        print_changed(alloc, worths, good, out)?;
    }
    Ok(())
}

/// Returns the text of the worths: the base's total, a line for each good, and the text of each best allocation. This project
/// defines the text and its form. After `Memory` it returns no text.
pub fn print_worths(alloc: Global, worths: &Worths) -> Result<Vec<u8>, Memory>
    ensures { IfOk result (λ text. text.items ≡ texts.worth_text (worths_of worths.now.base worths.now.more.items worths.now.less.items)) }
{
    let mut out = Vec::new(alloc);
    print_head(worths, &mut out)?;
    print_base(alloc, worths, &mut out)?;
    print_all_changed(alloc, worths, &mut out)?;
    out.extend_from_slice(b"end\n")?;
    Ok(out)
}
