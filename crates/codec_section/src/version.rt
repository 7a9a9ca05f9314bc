// A table's version among those of all tables, of which the first is that of table 0x50 (02, W-208).
ghost use Rattle.std.specs.Prelude.{◌≡◌, ◌-◌};
ghost use Rattle.sections.specs.Segment.{table_first};
ghost use Rattle.sections.specs.Section.{table_version};
ghost use Rattle.codec_section.specs.Versions.{with_version};

use eit::limits::TABLE_FIRST;

// A table, counted from 0x50; 0 for a table before it.
fn table_number(table_id: u8) -> usize
    ensures { result ≡ table_id - table_first }
{
    (table_id as usize).saturating_sub(TABLE_FIRST)
}

// The version of a table; 0 where there is none for it.
pub fn version_of(versions: &[u8], table_id: u8) -> u8
    ensures { result ≡ table_version versions.now table_id }
{
    versions.get(table_number(table_id)).copied().unwrap_or(0)
}

// Sets the version of a table, where there is one for it.
pub fn set_version(versions: &mut [u8], table_id: u8, version: u8)
    ensures { versions.new ≡ with_version versions.old table_id version }
{
    let table = table_number(table_id);
    if table < versions.len() {
        versions[table] = version;
    }
}
