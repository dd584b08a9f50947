ghost use Rattle.std.specs.Prelude.{◌≡◌, ◌<◌, ◌≤◌, ◌↔◌, ℕ, List, [], length, All, IfOk, Some, slice_get, IsTrue};
ghost use Rattle.std.specs.List.Sorted.{IsPermutation};
ghost use Rattle.fc_answers.specs.Table.{HaveKeysOnce, IsRising, IsRowOf, pairs_by};

use crate::sorting::put_in_order;
use crate::table_rows::Row;
use fc_bound::BoundKind;
use fc_canonical::Key;
use fc_codes::Layout;
use fc_home::{GREATEST_RULE, HomeRule};
use std::alloc::{AllocError, Global};
use std::marker::Model;

/// The most classes that a table lists.
pub const MOST_CLASSES: u32 = 16_000_000;

/// Classes, each with a cost in moves from the start, under a home rule and a kind of bound: at most 16,000,000 rows of a key
/// and a cost, each key before the next, byte by byte. A row is kept by its class's code, and its key made when it is asked for.
#[derive(Drop)]
pub struct Table {
    rule: u8,
    bound: BoundKind,
    layout: Layout,
    rows: Vec<Row>,
}

impl Model for Table {
    ghost use Rattle.std.specs.Prelude.{◌≤◌, length, All};
    ghost use Rattle.fc_home.specs.declared.settling.TheConstants.{GREATEST_RULE};
    ghost use Rattle.fc_answers.specs.Table.{IsRising, IsRowOf, Listing, pairs_by};
    ghost use Rattle.fc_answers.specs.declared.closed_tables.TheConstants.{MOST_CLASSES};

    ghost Value = { Listing };

    ghost view = { λ s. record { rule = s.rule; bound = s.bound; rows = pairs_by s.layout s.rows.items } };

    ghost invariant = { λ s. (s.rule ≤ GREATEST_RULE) × (length s.rows.items ≤ MOST_CLASSES) × IsRising (pairs_by s.layout s.rows.items)
        × All (IsRowOf s.layout) s.rows.items };
}

impl Table {
    /// The table of these rows, in order, under a home rule and a kind of bound, their codes as seen from the layout's start.
    /// No two rows may have one key.
    ///
    /// # Errors
    /// A growth was refused.
    pub fn sorted(
        alloc: Global,
        rule: HomeRule,
        bound: BoundKind,
        layout: Layout,
        rows: Vec<Row>,
    ) -> Result<Self, AllocError>
        requires few { length rows.items ≤ MOST_CLASSES }
        requires rows { All (IsRowOf layout) rows.items }
        requires once { HaveKeysOnce (pairs_by layout rows.items) }
        ensures rule { IfOk result (λ table. table.rule ≡ rule) }
        ensures known { IfOk result (λ table. table.rule ≤ GREATEST_RULE) }
        ensures bound { IfOk result (λ table. table.bound ≡ bound) }
        ensures rows { IfOk result (λ table. IsPermutation (pairs_by layout rows.items) table.rows) }
        ensures rising { IfOk result (λ table. IsRising table.rows) }
    {
        let mut rows = rows;
        put_in_order(alloc, &layout, rows.as_mut_slice())?;
        Ok(Table {
            rule: rule.get(),
            bound,
            layout,
            rows,
        })
    }

    /// The same classes and costs, under another kind of bound.
    pub fn with_bound(self, bound: BoundKind) -> Self
        ensures value { result ≡ record { rule = self.rule; bound = bound; rows = self.rows } }
    {
        let Table {
            rule,
            layout,
            rows,
            ..
        } = self;
        Table {
            rule,
            bound,
            layout,
            rows,
        }
    }

    /// The home rule that the classes were searched by, 0 to 2.
    pub fn rule(&self) -> u8
        ensures value { result ≡ self.now.rule }
        ensures known { result ≤ GREATEST_RULE }
    {
        self.rule
    }

    /// The kind of bound that the classes were searched by.
    pub fn bound(&self) -> BoundKind
        ensures value { result ≡ self.now.bound }
    {
        self.bound
    }

    /// How many classes are listed, at most 16,000,000.
    pub fn len(&self) -> usize
        ensures value { result ≡ length self.now.rows }
        ensures most { result ≤ MOST_CLASSES }
        ensures rising { IsRising self.now.rows }
    {
        self.rows.len()
    }

    /// Whether no class is listed.
    pub fn is_empty(&self) -> bool
        ensures value { IsTrue result ↔ (self.now.rows ≡ []) }
    {
        self.rows.is_empty()
    }

    /// The key of the class with this number, from 0 to below `len`.
    pub fn key(&self, i: usize) -> Key
        requires within { i < length self.now.rows }
        ensures value { (cost : ℕ) × (slice_get self.now.rows i ≡ Some (result.items, cost)) }
    {
        self.rows[i].key(&self.layout)
    }

    /// The cost of the class with this number, from 0 to below `len`.
    pub fn cost(&self, i: usize) -> u32
        requires within { i < length self.now.rows }
        ensures value { (key : List ℕ) × (slice_get self.now.rows i ≡ Some (key, result)) }
    {
        self.rows[i].cost
    }
}
