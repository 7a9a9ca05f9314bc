// The tables of two files compared, one after the other (02, W-208). A table's sections stand together in a file, and
// tables come in their order.
ghost use Rattle.std.specs.Prelude.{◌≡◌, ◌+◌, length, drop};
ghost use mathlib.Core.List.{flatten};
ghost use Rattle.sections.specs.Segment.{table_first};
ghost use Rattle.sections.specs.Decode.{split_file};
ghost use Rattle.rebuild.specs.Tables.{leading, next_by, RisingFrom, next_versions_by};

use eit::limits::{TABLE_FIRST, TABLES};

// The offset behind the sections of a table that stand from an offset on.
fn table_end(file: &[u8], from: usize, table_id: u8) -> usize
    ensures { result ≡ from + length (flatten (leading table_id (split_file (drop from file.now)))) }
{
    let mut end = from;
    for (at, section) in read_walk::sections_from(file, from) {
        if file[at] != table_id {
            return at;
        }
        end = at + section.len();
    }
    end
}

// A table's next version, by its bytes in the previous file, if it was there, and in the new one.
fn next_version(version: u8, previous: &[u8], table: &[u8]) -> u8
    ensures { result ≡ next_by version previous.now table.now }
{
    if previous.is_empty() || previous == table {
        return version;
    }
    ((version as u32 + 1) % 32) as u8
}

// The next versions of all tables, of two files in which tables come in their order.
pub fn next_versions(previous: &[u8], file: &[u8], versions: [u8; TABLES]) -> [u8; TABLES]
    ensures { RisingFrom table_first (split_file previous.now)
        → RisingFrom table_first (split_file file.now)
        → result ≡ next_versions_by previous.now file.now versions }
{
    let mut next = versions;
    let mut previous_at = 0;
    let mut at = 0;
    for (table, version) in next.iter_mut().enumerate() {
        let table_id = (TABLE_FIRST + table) as u8;
        let previous_end = table_end(previous, previous_at, table_id);
        let end = table_end(file, at, table_id);
        *version = next_version(
            *version,
            &previous[previous_at..previous_end],
            &file[at..end],
        );
        previous_at = previous_end;
        at = end;
    }
    next
}
