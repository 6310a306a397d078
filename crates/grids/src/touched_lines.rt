//! The touched columns of the lines of a window.

ghost use Rattle.std.specs.Prelude.{◌≡◌, ◌+◌, ◌<◌, ◌≤◌, ◌==◌, ◌&&◌, if◌then◌else◌};
ghost use Rattle.grids.specs.{ℕ, nat_le, nat_lt, IfOk, None, is_some, length, replicate, list_any, joined_columns, touched_in};

use crate::touched::Touched;
use std::alloc::{AllocError, Global};
use std::marker::Model;
use world::Columns;

/// The touched columns of each line. As long as `some` is false no line has any, and none is looked at to untouch them.
#[derive(Drop)]
pub(crate) struct TouchedLines {
    lines: Vec<Touched>,
    some: bool,
}

impl Model for TouchedLines {
    ghost use Rattle.std.specs.Prelude.{◌≡◌, List, Option, false};
    ghost use Rattle.world.specs.declared.settings.Columns.{Columns};
    ghost use Rattle.grids.specs.Touches.{AreUntouched};

    ghost Value = { List (Option Columns) };

    ghost view = { λ a. a.lines.items };

    ghost invariant = { λ a. a.some ≡ false → AreUntouched a.lines.items };
}

impl TouchedLines {
    /// Lines of which nothing is touched.
    pub(crate) fn none(alloc: Global, lines: u16) -> Result<TouchedLines, AllocError>
        ensures { IfOk result (λ a. a ≡ replicate lines None) }
    {
        Ok(TouchedLines {
            lines: vec![in alloc; Touched::none(); usize::from(lines)]?,
            some: false,
        })
    }

    /// The touched columns of a line.
    pub(crate) fn columns(&self, line: u16) -> Option<Columns>
        requires { line < length self.now }
        ensures { result ≡ touched_in self.now line }
    {
        self.lines[usize::from(line)].columns()
    }

    /// Whether some line is touched.
    #[tactic(auto, using(crate::proofs::Untouched::untouched_any))]
    pub(crate) fn are_touched(&self) -> bool
        ensures { result ≡ list_any is_some self.now }
    {
        self.some && has_columns(&self.lines)
    }

    /// Touches the columns from `left` to `right` of a line.
    #[inline(always)]
    pub(crate) fn touch(&mut self, line: u16, left: u16, right: u16)
        requires line_in { line < length self.old }
        requires ordered { left ≤ right }
        ensures length { length self.new ≡ length self.old }
        ensures each { (y : ℕ) → touched_in self.new y ≡ (if y == line then joined_columns (touched_in self.old y) left right else touched_in self.old y) }
    {
        let at = usize::from(line);
        self.lines[at] = self.lines[at].join(left, right);
        self.some = true;
    }

    /// Touches the columns from `left` to `right` of the lines from `top` to `bottom`.
    pub(crate) fn touch_lines(&mut self, top: u16, bottom: u16, left: u16, right: u16)
        requires lines_in { bottom < length self.old }
        requires ordered_lines { top ≤ bottom }
        requires ordered { left ≤ right }
        ensures length { length self.new ≡ length self.old }
        ensures each { (y : ℕ) → touched_in self.new y ≡
            (if nat_le top y && nat_le y bottom then joined_columns (touched_in self.old y) left right else touched_in self.old y) }
    {
        let last = usize::from(bottom);
        join_lines(&mut self.lines, usize::from(top), last, left, right);
        self.some = true;
    }

    /// Sets the touched columns of `n` lines from one on.
    pub(crate) fn set(&mut self, first: u16, n: u16, columns: Touched)
        requires { first + n ≤ length self.old }
        ensures length { length self.new ≡ length self.old }
        ensures each { (y : ℕ) → touched_in self.new y ≡ (if nat_le first y && nat_lt y (first + n) then columns else touched_in self.old y) }
    {
        let start = usize::from(first);
        set_lines(&mut self.lines, start, start + usize::from(n), columns);
        self.some = columns.columns().is_some() || self.some && usize::from(n) < self.lines.len();
    }

    /// Untouches all lines.
    pub(crate) fn clear(&mut self)
        ensures length { length self.new ≡ length self.old }
        ensures each { (y : ℕ) → touched_in self.new y ≡ None }
    {
        if self.some {
            self.lines.fill(Touched::none());
            self.some = false;
        }
    }
}

/// Sets the touched columns of the lines from `start` on, up to `end`, which it leaves out.
fn set_lines(touched: &mut Vec<Touched>, start: usize, end: usize, columns: Touched)
    requires ordered { start ≤ end }
    requires there { end ≤ length touched.old.items }
    ensures length { length touched.new.items ≡ length touched.old.items }
    ensures each { (y : ℕ) → touched_in touched.new.items y ≡ (if nat_le start y && nat_lt y end then columns else touched_in touched.old.items y) }
{
    touched[start..end].fill(columns);
}

/// Touches the columns from `left` to `right` of the lines from `top` to `bottom`.
fn join_lines(touched: &mut Vec<Touched>, top: usize, bottom: usize, left: u16, right: u16)
    requires lines_in { bottom < length touched.old.items }
    requires ordered_lines { top ≤ bottom }
    requires ordered { left ≤ right }
    ensures length { length touched.new.items ≡ length touched.old.items }
    ensures each { (y : ℕ) → touched_in touched.new.items y ≡
        (if nat_le top y && nat_le y bottom then joined_columns (touched_in touched.old.items y) left right else touched_in touched.old.items y) }
{
    join_each(&mut touched[top..bottom + 1], left, right);
}

/// Touches the columns from `left` to `right` of each of some lines, by a loop that the compiler vectorizes.
fn join_each(touched: &mut [Touched], left: u16, right: u16)
    requires { left ≤ right }
    ensures length { length touched.new ≡ length touched.old }
    ensures each { (y : ℕ) → y < length touched.old → touched_in touched.new y ≡ joined_columns (touched_in touched.old y) left right }
{
    for y in 0..touched.len() {
        touched[y] = touched[y].join(left, right);
    }
}

/// Whether some line has touched columns.
fn has_columns(touched: &[Touched]) -> bool
    ensures { result ≡ list_any is_some touched.now }
{
    touched.iter().any(|it| it.columns().is_some())
}
