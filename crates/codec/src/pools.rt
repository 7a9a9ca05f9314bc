// The two lent pools, and the part of one that a record chooses (01, "Event record and sound list"). Nothing is copied.
ghost use Rattle.std.specs.Prelude.{◌≡◌};
ghost use Rattle.eit.specs.Pools.{lent_pools, pool_of, in_pool, part, choose};
ghost use Rattle.eit.specs.Sound.{has_chain};

use crate::chain;
use eit::Record;
use std::marker::Model;

// 01's term: pool. Descriptor bytes lie in one of two lent pools.
#[derive(Drop)]
pub struct Pools<'a> {
    pub day: &'a [u8],
    pub series: &'a [u8],
}

// In contracts a value is the definitions' record of the two pools' bytes.
impl<'a> Model for Pools<'a> {
    ghost use Rattle.eit.specs.Pools.{Pools, lent_pools};
    ghost use Rattle.eit.specs.Fields.{Bytes};

    ghost Value = { Pools };

    ghost view = { λ p. lent_pools p.day.now p.series.now };

    // What their types say, for whoever has the value alone.
    ghost invariant = { λ p. Bytes p.day.now × Bytes p.series.now };
}

// Marks with 2 choose the series pool, all others the day pool.
fn pool<'a>(day: &'a [u8], series: &'a [u8], marks: u32) -> &'a [u8]
    ensures { result.now ≡ pool_of (lent_pools day.now series.now) marks }
{
    if marks / 2 % 2 == 1 { series } else { day }
}

// Whether a part lies in its pool; the sum does not wrap.
fn is_in_pool(pool: &[u8], offset: u32, size: u32) -> bool
    ensures { result ≡ in_pool pool.now offset size }
{
    offset as usize + size as usize <= pool.len()
}

// A part of a pool; outside it, an empty one (the definition `part`, so no `Option`).
fn part(pool: &[u8], offset: u32, size: u32) -> &[u8]
    ensures { result.now ≡ part pool.now offset size }
{
    let from = offset as usize;
    let to = from + size as usize;
    if to <= pool.len() {
        &pool[from..to]
    } else {
        &pool[0..0]
    }
}

// That part of the chosen pool: document 01's chooser, of two slices.
pub fn choose<'a>(day: &'a [u8], series: &'a [u8], marks: u32, offset: u32, size: u32) -> &'a [u8]
    ensures { result.now ≡ choose (lent_pools day.now series.now) marks offset size }
{
    part(pool(day, series, marks), offset, size)
}

impl<'a> Pools<'a> {
    pub fn new(day: &'a [u8], series: &'a [u8]) -> Self
        ensures { result ≡ lent_pools day.now series.now }
    {
        Pools { day, series }
    }

    // That part of the chosen pool.
    pub fn choose(&self, marks: u32, offset: u32, size: u32) -> &'a [u8]
        ensures { result.now ≡ choose self.now marks offset size }
    {
        choose(self.day, self.series, marks, offset, size)
    }

    // Whether a record's part lies in its pool and is a chain.
    pub fn has_chain(&self, event: Record) -> bool
        ensures { result ≡ has_chain self.now event }
    {
        let chosen = pool(self.day, self.series, event.marks);
        if !is_in_pool(chosen, event.offset, event.chain_length) {
            return false;
        }
        chain::is_chain(self.choose(event.marks, event.offset, event.chain_length))
    }
}
