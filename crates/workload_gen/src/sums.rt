//! Numbers with their sums, kept from change to change.
//!
//! Layer: the world; private. Called by `tally`.
ghost use Rattle.std.specs.Prelude.{◌≡◌, ◌≢◌, ℕ, ◌+◌, ◌*◌, ◌-◌, ◌^◌, ◌<◌, ◌≤◌, min, IfOk, Some, drop, length};
ghost use Rattle.std.specs.Prelude.{slice_get, slice_set, take};
ghost use Rattle.workload_gen.specs.Counts.{AreBlocks, sum_of, sum_to_limit};

use std::alloc::{AllocError, Global};
use std::marker::Model;

/// Numbers, the sum of each whole block of eight of them, and that of all. A sum stops at the greatest number of 64
/// bits. Clauses see the numbers.
#[derive(Drop)]
pub(crate) struct Sums {
    numbers: Vec<u64>,
    blocks: Vec<u64>,
    total: u64,
}

impl Model for Sums {
    ghost use Rattle.std.specs.Prelude.{◌≡◌, ℕ, List};
    ghost use Rattle.workload_gen.specs.Counts.{AreBlocks, sum_to_limit};

    ghost Value = { List ℕ };

    ghost view = { λ s. s.numbers.items };

    ghost invariant = { λ s. AreBlocks s.numbers.items s.blocks.items × (s.total ≡ sum_to_limit s.numbers.items) };
}

impl Sums {
    /// The sums of these numbers.
    pub(crate) fn new(alloc: Global, numbers: Vec<u64>) -> Result<Sums, AllocError>
        ensures { IfOk result (λ s. s ≡ numbers.items) }
    {
        let blocks = block_sums(alloc, &numbers)?;
        let total = sum(&numbers);
        Ok(Sums {
            numbers,
            blocks,
            total,
        })
    }

    /// The numbers.
    pub(crate) fn numbers(&self) -> &[u64]
        ensures { result.now ≡ self.now }
    {
        &self.numbers
    }

    /// Their sum.
    pub(crate) fn total(&self) -> u64
        ensures { result ≡ sum_to_limit self.now }
    {
        self.total
    }

    /// Takes the sums of whole blocks off a number as long as they fit. Gives the place after these blocks, and what is
    /// left of the number.
    pub(crate) fn skip(&self, number: u64) -> (usize, u64)
        requires { number < 2 ^ 64 - 1 }
        ensures start { result.0 ≤ length self.now }
        ensures left { result.1 + sum_of (take result.0 self.now) ≡ number }
    {
        let mut left = number;
        for block in 0..self.blocks.len() {
            let sum = self.blocks[block];
            if left < sum {
                return (8 * block, left);
            }
            left -= sum;
        }
        (8 * self.blocks.len(), left)
    }

    /// Puts a number in the place of another.
    pub(crate) fn set(&mut self, place: usize, number: u64)
        requires { place < length self.old }
        ensures { self.new ≡ slice_set self.old place number }
    {
        let before = self.numbers[place];
        self.numbers[place] = number;
        if self.total < u64::MAX {
            self.total = (self.total - before).saturating_add(number);
            change_block(&mut self.blocks, place / 8, before, number);
        } else {
            self.total = sum(&self.numbers);
            sum_blocks(&mut self.blocks, &self.numbers);
        }
    }
}

// The sums of the whole blocks of these numbers.
fn block_sums(alloc: Global, numbers: &[u64]) -> Result<Vec<u64>, AllocError>
    ensures { IfOk result (λ v. AreBlocks numbers.now v.items) }
{
    let mut blocks = vec![in alloc; 0; numbers.len() / 8]?;
    sum_blocks(&mut blocks, numbers);
    Ok(blocks)
}

// Puts the sum of each block of these numbers in its place.
fn sum_blocks(blocks: &mut [u64], numbers: &[u64])
    requires { 8 * length blocks.old ≤ length numbers.now }
    ensures { AreBlocks numbers.now blocks.new }
{
    for block in 0..blocks.len() {
        blocks[block] = block_sum(numbers, block);
    }
}

// The sum of a block.
fn block_sum(numbers: &[u64], block: usize) -> u64
    requires { 8 * block + 8 ≤ length numbers.now }
    ensures { result ≡ sum_to_limit (take 8 (drop (8 * block) numbers.now)) }
{
    sum(&numbers[8 * block..8 * block + 8])
}

// The sum of a block, if it is there, after one of its numbers has changed.
fn change_block(blocks: &mut [u64], block: usize, before: u64, number: u64)
    requires { (b : ℕ) → slice_get blocks.old block ≡ Some b → before ≤ b }
    ensures length { length blocks.new ≡ length blocks.old }
    ensures here { (b : ℕ) → slice_get blocks.new block ≡ Some b → (o : ℕ) × (slice_get blocks.old block ≡ Some o) ×
        (b ≡ min (o - before + number) (2 ^ 64 - 1)) }
    ensures others { (k : ℕ) → k ≢ block → slice_get blocks.new k ≡ slice_get blocks.old k }
{
    if block < blocks.len() {
        blocks[block] = (blocks[block] - before).saturating_add(number);
    }
}

// Their sum, or the greatest number of 64 bits.
fn sum(numbers: &[u64]) -> u64
    ensures { result ≡ sum_to_limit numbers.now }
{
    let mut total = 0u64;
    for number in numbers {
        total = total.saturating_add(*number);
    }
    total
}
