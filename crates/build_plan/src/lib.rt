// Plan's tables (01, "Build, Read": "sixteen tables of thirty-two section counts") and their counts in a row.
#![tactic(auto)]

ghost use Rattle.std.specs.Prelude.{◌≡◌, ℕ, get_or};
ghost use mathlib.Core.List.{flatten};
ghost use Rattle.schedule.specs.Plan.{tabled};

use eit::limits::{SEGMENTS, TABLE_SEGMENTS, TABLES};

// The tables of the counts of all segments.
pub fn tables_of(counts: &[u8; SEGMENTS]) -> [[u8; TABLE_SEGMENTS]; TABLES]
    ensures { result ≡ tabled (λ (index : ℕ). get_or counts.now index 0) }
{
    let mut tables = [[0u8; TABLE_SEGMENTS]; TABLES];
    tables.copy_from_slice(counts.as_chunks().0);
    tables
}

// The counts of all segments, table after table.
pub fn flat_of(tables: [[u8; TABLE_SEGMENTS]; TABLES]) -> [u8; SEGMENTS]
    ensures { result ≡ flatten tables }
{
    let mut counts = [0u8; SEGMENTS];
    counts.copy_from_slice(tables.as_flattened());
    counts
}
