ghost use Rattle.std.specs.Prelude.{◌≡◌, ◌<◌, ◌≤◌, ◌+◌, ◌++◌, ◌∷◌, [], All, IfOk, OnOk, length, slice_range, vec_len, vec_capacity};
ghost use Rattle.std.specs.List.{flat_map};
ghost use Rattle.dstm_report.specs.Reading.{FitsRow};
ghost use Rattle.dstm_report.specs.Text.{row_text};

use crate::rendering::{put_row, with_room};
use crate::report::{Report, Row, Rows};
use dstm_model::{Items, Numbers, Replies, Reply};
use std::alloc::{AllocError, Global};
use std::marker::Model;

// A row but for its replies, how many these are, and where they begin among those of all rows.
#[derive(Clone, Copy, Debug)]
pub struct Head {
    line: u64,
    round: u64,
    number: u64,
    from: usize,
    worker: u32,
    count: u32,
}

/// Rows whose replies stand one behind another, so that a row takes no more room than its own need. Contracts see the rows,
/// and for how many there is room.
#[derive(Debug, Drop)]
pub struct PackedRows {
    heads: Vec<Head>,
    replies: Vec<Reply>,
    room: usize,
}

impl Model for PackedRows {
    ghost use Rattle.dstm_report.specs.Packed.{ArePacked, RowsAs, unpacked};

    ghost Value = { RowsAs };

    ghost view = { λ rows. record { items = unpacked rows.replies.items rows.heads.items; room = rows.room } };

    ghost invariant = { ArePacked };
}

impl PackedRows {
    /// No row, and room for none.
    pub fn new(alloc: Global) -> PackedRows
        ensures { result ≡ record { items = []; room = 0 } }
    {
        PackedRows {
            heads: Vec::new(alloc),
            replies: Vec::new(alloc),
            room: 0,
        }
    }

    /// How many rows there are.
    pub fn len(&self) -> usize
        ensures { result ≡ length self.now.items }
    {
        self.heads.len()
    }

    /// Makes room for so many rows more.
    pub fn reserve(&mut self, more: usize) -> Result<(), AllocError>
        ensures items { self.new.items ≡ self.old.items }
        ensures room { OnOk result (length self.old.items + more ≤ self.new.room) }
    {
        let Some(most) = more.checked_mul(8) else {
            return Err(AllocError);
        };
        self.heads.reserve(more)?;
        self.replies.reserve(most)?;
        self.room = self.heads.len() + more;
        Ok(())
    }

    /// Puts a row behind the others, for which there has to be room.
    pub fn push(&mut self, line: u64, worker: u32, round: u64, number: u64, replies: &[Reply])
        requires room { length self.old.items < self.old.room }
        requires short { length replies.now ≤ 8 }
        ensures { self.new ≡ record self.old {
          items = self.old.items ++ record {
            line = line;
            worker = worker;
            round = round;
            number = number;
            replies = replies.now;
          } ∷ [];
        } }
    {
        let from = self.replies.len();
        append(&mut self.replies, replies);
        self.heads.push_reserved(Head {
            line,
            round,
            number,
            from,
            worker,
            count: replies.len() as u32,
        });
    }

    // The text of the rows behind another one.
    pub(crate) fn with_text(&self, out: Vec<u8>) -> Result<Vec<u8>, AllocError>
        ensures text { IfOk result (λ text. text.items ≡ out.items ++ flat_map row_text self.now.items) }
        ensures fits { OnOk result (All FitsRow self.now.items) }
    {
        let mut out = out;
        for head in &self.heads {
            out = with_room(out)?;
            let replies = replies_of(&self.replies, head);
            put_row(
                &mut out,
                head.line,
                head.worker,
                head.round,
                head.number,
                replies,
            );
        }
        Ok(out)
    }

    /// The same rows side by side.
    pub fn unpack(&self, alloc: Global) -> Result<Rows, AllocError>
        ensures { IfOk result (λ rows. rows ≡ self.now.items) }
    {
        let mut rows = Vec::with_capacity(alloc, self.heads.len())?;
        for head in &self.heads {
            rows.push_reserved(row_of(head, replies_of(&self.replies, head)));
        }
        Ok(Rows::from_vec(rows))
    }
}

// Puts replies behind the others. There is room for them.
fn append(all: &mut Vec<Reply>, replies: &[Reply])
    requires { vec_len all.old + length replies.now ≤ vec_capacity all.old }
    ensures items { all.new.items ≡ all.old.items ++ replies.now }
    ensures capacity { vec_capacity all.new ≡ vec_capacity all.old }
{
    for reply in replies {
        all.push_reserved(*reply);
    }
}

// The replies of a row among those of all rows.
#[inline(always)]
fn replies_of<'a>(all: &'a [Reply], head: &Head) -> &'a [Reply]
    requires few { head.now.count ≤ 8 }
    requires below { head.now.from + head.now.count ≤ length all.now }
    ensures value { result.now ≡ slice_range all.now head.now.from (head.now.from + head.now.count) }
    ensures short { length result.now ≤ 8 }
{
    &all[head.from..head.from + head.count as usize]
}

// A row with these replies.
fn row_of(head: &Head, replies: &[Reply]) -> Row
    requires { length replies.now ≤ 8 }
    ensures { result ≡ record {
      line = head.now.line;
      worker = head.now.worker;
      round = head.now.round;
      number = head.now.number;
      replies = replies.now;
    } }
{
    let mut all = Replies::new();
    for reply in replies {
        all.push(*reply);
    }
    Row {
        line: head.line,
        worker: head.worker,
        round: head.round,
        number: head.number,
        replies: all,
    }
}

/// A report whose rows are packed. Contracts see the report.
#[derive(Debug, Drop)]
pub struct PackedReport {
    pub version: u32,
    pub rows: PackedRows,
    pub bank: Option<Numbers>,
    pub list: Option<Numbers>,
    pub tree: Option<Items>,
    pub count: u64,
}

impl Model for PackedReport {
    ghost use Rattle.dstm_report.specs.declared.report.Report.{Report};

    ghost Value = { Report };

    ghost view = { λ report. record {
      version = report.version;
      rows = report.rows.items;
      bank = report.bank;
      list = report.list;
      tree = report.tree;
      count = report.count;
    } };
}

impl PackedReport {
    /// The same report, with its rows side by side.
    pub fn unpack(self, alloc: Global) -> Result<Report, AllocError>
        ensures { IfOk result (λ report. report ≡ self) }
    {
        let rows = self.rows.unpack(alloc)?;
        let PackedReport {
            version,
            bank,
            list,
            tree,
            count,
            ..
        } = self;
        Ok(Report {
            version,
            rows,
            bank,
            list,
            tree,
            count,
        })
    }
}
