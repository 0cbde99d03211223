// What a drive writes at its end.
ghost use Rattle.std.specs.Prelude.{◌≡◌, ◌++◌, OnOk, codes, decimal, map};
ghost use Rattle.rk_workload.specs.Summary.{counted, counts_line, number_line, owner_line, result_lines};

use crate::words::push_numbered;
use rk_types::{NoMemory, Op, Receipt};

/// How many receipts there are, by what their calls ask.
#[derive(Clone, Copy)]
pub struct Counts {
    pub puts: u64,
    pub gets: u64,
    pub deletes: u64,
    pub cond_puts: u64,
}

/// What a drive came to: how many calls were asked and how many answered, the answered ones by what they ask, and the master
/// that owns the tablet, if it is the same in all lanes.
#[derive(Clone, Copy)]
pub struct Summary {
    pub calls: u64,
    pub answered: u64,
    pub counts: Counts,
    pub owner: Option<u8>,
}

/// How many of these receipts there are, by what their calls ask.
pub fn count(receipts: &[&Receipt]) -> Counts
    ensures { result ≡ counted (map (λ receipt. receipt.now) receipts.now) }
{
    let mut counts = Counts {
        puts: 0,
        gets: 0,
        deletes: 0,
        cond_puts: 0,
    };
    for receipt in receipts {
        match &receipt.call.op {
            Op::Put(_) => counts.puts += 1,
            Op::Get => counts.gets += 1,
            Op::Delete => counts.deletes += 1,
            Op::CondPut(_, _) => counts.cond_puts += 1,
        }
    }
    counts
}

// Adds a line of a word and a number.
fn push_line(text: &mut Vec<u8>, word: &[u8], number: u64) -> Result<(), NoMemory>
    ensures { OnOk result (text.new.items ≡ text.old.items ++ number_line word.now number) }
{
    push_numbered(text, word, number)?;
    text.push(b'\n')?;
    Ok(())
}

// Adds the line of the counts.
fn push_counts(text: &mut Vec<u8>, counts: &Counts) -> Result<(), NoMemory>
    ensures { OnOk result (text.new.items ≡ text.old.items ++ counts_line counts.now) }
{
    push_numbered(text, b"put ", counts.puts)?;
    push_numbered(text, b" get ", counts.gets)?;
    push_numbered(text, b" del ", counts.deletes)?;
    push_line(text, b" cput ", counts.cond_puts)
}

// Adds the line of the owner.
fn push_owner(text: &mut Vec<u8>, owner: Option<u8>) -> Result<(), NoMemory>
    ensures { OnOk result (text.new.items ≡ text.old.items ++ owner_line owner) }
{
    match owner {
        Some(master) => push_line(text, b"owner ", u64::from(master)),
        None => {
            text.extend_from_slice(b"owner mixed\n")?;
            Ok(())
        }
    }
}

/// Adds the lines of what a drive came to, before those of its audit. After `NoMemory` a part of them may have been written.
pub fn push_results(text: &mut Vec<u8>, summary: &Summary) -> Result<(), NoMemory>
    ensures { OnOk result (text.new.items ≡ text.old.items ++ result_lines summary.now) }
{
    push_line(text, b"calls ", summary.calls)?;
    push_line(text, b"answered ", summary.answered)?;
    push_counts(text, &summary.counts)?;
    push_owner(text, summary.owner)
}
