//! Of each line of a screen some columns.

ghost use Rattle.std.specs.Prelude.{◌≡◌, ◌<◌, ◌≤◌, ◌&&◌, ◌-◌, ℕ, None, Some, IfOk, if◌then◌else◌, length, nat_le, nat_lt, replicate, slice_set, true};
ghost use Rattle.cell.specs.declared.limits.TheConstants.{LARGEST_SCREEN};
ghost use Rattle.small_set.specs.Sets.{contains};
ghost use Rattle.world.specs.WindowMaps.{joined_columns};
ghost use Rattle.extents.specs.Extents.{IsWithin, columns_of, has_columns};

use cell::Rect;
use small_set::SmallSet;
use std::alloc::{AllocError, Global};
use std::marker::Model;
use world::Columns;

/// Of each line of a screen the columns from a first to a last, or none.
#[derive(Drop)]
pub struct Extents {
    lines: Vec<Option<Columns>>,
    // Which lines have some.
    some: SmallSet,
}

impl Model for Extents {
    ghost use Rattle.std.specs.Prelude.{List, Option};
    ghost use Rattle.world.specs.declared.settings.Columns.{Columns};
    ghost use Rattle.extents.specs.Extents.{AreExtents};

    ghost Value = { List (Option Columns) };

    ghost view = { λ extents. extents.lines.items };

    ghost invariant = { λ extents. AreExtents extents.some extents.lines.items };
}

impl Extents {
    /// So many lines, none of which has any.
    pub fn none(alloc: Global, lines: u16) -> Result<Extents, AllocError>
        requires { lines ≤ LARGEST_SCREEN }
        ensures { IfOk result (λ extents. extents ≡ replicate lines None) }
    {
        Ok(Extents {
            lines: vec![in alloc; None; usize::from(lines)]?,
            some: SmallSet::new(),
        })
    }

    /// How many lines there are.
    pub fn height(&self) -> u16
        ensures { result ≡ length self.now }
    {
        self.lines.len() as u16
    }

    /// The columns of a line.
    pub fn line(&self, y: u16) -> Option<Columns>
        requires { y < length self.now }
        ensures { result ≡ columns_of self.now y }
    {
        self.lines[usize::from(y)]
    }

    /// The columns of a line, of the first so many, from one up to another, which isn't one of them.
    pub fn within(&self, y: u16, columns: usize) -> (usize, usize)
        requires { y < length self.now }
        ensures { IsWithin columns (columns_of self.now y) result }
    {
        match self.line(y) {
            Some(Columns { first, last }) => {
                let end = columns.min(usize::from(last) + 1);
                (end.min(usize::from(first)), end)
            }
            None => (0, 0),
        }
    }

    /// The first line from one on that has columns, and where there is none, a line past the last.
    pub fn next(&self, from: u16) -> u16
        ensures from { from ≤ result }
        ensures inside { from ≤ length self.now → result ≤ length self.now }
        ensures none { (y : ℕ) → from ≤ y → y < result → columns_of self.now y ≡ None }
        ensures found { result < length self.now → has_columns self.now result ≡ true }
    {
        match self.some.next(from) {
            Some(y) => y,
            None => from.max(self.height()),
        }
    }

    /// The line from which on none has columns; the one before it, if there is one, has some.
    pub fn end(&self) -> u16
        ensures inside { result ≤ length self.now }
        ensures none { (y : ℕ) → result ≤ y → columns_of self.now y ≡ None }
        ensures found { 0 < result → has_columns self.now (result - 1) ≡ true }
    {
        match self.some.last() {
            Some(y) => y + 1,
            None => 0,
        }
    }

    /// Adds columns of a line, from a first to a last, and those between them and the ones that it has.
    #[inline(always)]
    pub fn widen(&mut self, y: u16, first: u16, last: u16)
        requires { y < length self.old }
        ensures { self.new ≡ slice_set self.old y (joined_columns (columns_of self.old y) first last) }
    {
        let at = usize::from(y);
        self.lines[at] = Some(Columns::join(self.lines[at], first, last));
        self.some.insert(y);
    }

    /// Adds a rectangle.
    #[inline(always)]
    pub fn rectangle(&mut self, frame: Rect)
        requires { frame.bottom < length self.old }
        ensures height { length self.new ≡ length self.old }
        ensures each { (y : ℕ) → columns_of self.new y
            ≡ (if nat_le frame.top y && nat_le y frame.bottom then joined_columns (columns_of self.old y) frame.left frame.right else columns_of self.old y) }
    {
        if frame.top == frame.bottom {
            self.widen(frame.top, frame.left, frame.right);
        } else if frame.top < frame.bottom {
            self.widen_lines(frame);
        }
    }

    /// Adds a rectangle of some lines.
    #[inline(never)]
    #[tactic(auto, using(crate::proofs::Lines::has_joined))]
    fn widen_lines(&mut self, frame: Rect)
        requires ordered { frame.top ≤ frame.bottom }
        requires inside { frame.bottom < length self.old }
        ensures height { length self.new ≡ length self.old }
        ensures each { (y : ℕ) → columns_of self.new y
            ≡ (if nat_le frame.top y && nat_le y frame.bottom then joined_columns (columns_of self.old y) frame.left frame.right else columns_of self.old y) }
    {
        self.some.insert_range(frame.top, frame.bottom);
        join_lines(&mut self.lines, frame);
    }

    /// Gives each line all of so many columns, and no other.
    pub fn fill(&mut self, columns: u16)
        requires lines { 0 < length self.old }
        requires columns { 0 < columns }
        ensures height { length self.new ≡ length self.old }
        ensures all { (y : ℕ) → y < length self.old → columns_of self.new y ≡ Some (record { first = 0; last = columns - 1 }) }
    {
        self.clear();
        let bottom = self.height() - 1;
        self.rectangle(Rect {
            top: 0,
            left: 0,
            bottom,
            right: columns - 1,
        });
    }

    /// Takes away the columns of a line.
    pub fn clear_line(&mut self, y: u16)
        requires { y < length self.old }
        ensures { self.new ≡ slice_set self.old y None }
    {
        self.lines[usize::from(y)] = None;
        self.some.remove(y);
    }

    /// Takes away all columns.
    pub fn clear(&mut self)
        ensures { self.new ≡ replicate (length self.old) None }
    {
        let mut next = self.some.next(0);
        while let Some(y) = next {
            self.lines[usize::from(y)] = None;
            next = self.some.next(y + 1);
        }
        self.some.clear();
    }
}

/// Adds the columns of a rectangle to those of each of its lines.
fn join_lines(lines: &mut Vec<Option<Columns>>, frame: Rect)
    requires ordered { frame.top ≤ frame.bottom }
    requires inside { frame.bottom < length lines.old.items }
    ensures height { length lines.new.items ≡ length lines.old.items }
    ensures each { (y : ℕ) → columns_of lines.new.items y
        ≡ (if nat_le frame.top y && nat_le y frame.bottom then joined_columns (columns_of lines.old.items y) frame.left frame.right else columns_of lines.old.items y) }
{
    let end = usize::from(frame.bottom) + 1;
    for y in usize::from(frame.top)..end {
        lines[y] = Some(Columns::join(lines[y], frame.left, frame.right));
    }
}
