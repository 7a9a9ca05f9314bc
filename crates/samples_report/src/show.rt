// What the calls say of a list, for one caller.
ghost use Rattle.std.specs.Prelude.{◌≤◌, length, IfOk};

use crate::lines;
use build_answer::BuildError;
use codec::pools::Pools;
use eit::limits::{TABLE_FIRST, TABLES};
use eit::{Caller, Identity, Triplet};
use read_answer::FileRead;
use std::io;

// 1993-10-13.
const BASE_DAY: u32 = 49_273;

// Numbers of a list's buffer, and bytes of a file, at most.
pub const LIST_SIZE: usize = 12_288;

pub const FILE_SIZE: usize = 65_536;

// Service, stream and network 1, 2 and 3.
pub fn identity() -> Identity {
    let triplet = Triplet {
        service_id: 1,
        transport_stream_id: 2,
        original_network_id: 3,
    };
    Identity {
        triplet,
        versions: [0; TABLES],
    }
}

// Build, into a lent file. Where it succeeds, the file's length is within the lent one.
pub fn build_list(
    caller: Caller,
    list: &[u32],
    count: usize,
    pools: &Pools<'_>,
    identity: Identity,
    file: &mut [u8],
) -> Result<usize, BuildError>
    ensures { IfOk result (λ size. size ≤ length file.new) }
{
    build::build(caller, list, count, pools, BASE_DAY, identity, file)
}

// Build of what Read returned, with the file as day pool.
fn show_again(
    rt: &impl Print,
    caller: Caller,
    records: &[u32],
    read: FileRead,
    file: &[u8],
) -> io::Result<()> {
    let mut again = [0u8; FILE_SIZE];
    let pools = Pools::new(file, b"");
    match build_list(
        caller,
        records,
        read.count,
        &pools,
        read.identity,
        &mut again,
    ) {
        Ok(size) if &again[..size] == file => rt.println("built again: the same file"),
        _ => rt.println("built again: another file"),
    }
}

// A file: check, Read, and Build of what Read returned.
pub fn show_file(rt: &impl Print, caller: Caller, file: &[u8]) -> io::Result<()> {
    let checked = read_check::check(caller, file, BASE_DAY);
    lines::print_outcome(rt, b"check", checked.map(|accepted| accepted.count))?;
    let mut records = [0u32; LIST_SIZE];
    let read = read::read(caller, file, BASE_DAY, &mut records);
    lines::print_outcome(rt, b"read", read.map(|accepted| accepted.count))?;
    if let Ok(accepted) = read {
        show_again(rt, caller, &records, accepted, file)?;
    }
    Ok(())
}

// Plan's counts; 254 of every segment says that the list is unsound.
fn show_plan(
    rt: &impl Print,
    caller: Caller,
    list: &[u32],
    count: usize,
    pools: &Pools<'_>,
) -> io::Result<()> {
    let tables = build::plan(caller, list, count, pools);
    if tables
        .as_flattened()
        .iter()
        .all(|sections| *sections == 254)
    {
        return rt.println("plan 254 in every entry");
    }
    for (table, counts) in tables.iter().enumerate() {
        lines::print_counts(rt, TABLE_FIRST + table, counts)?;
    }
    Ok(())
}

// A list: Build, Plan, and the file with its cuts.
pub fn show_list(
    rt: &impl Print,
    caller: Caller,
    list: &[u32],
    count: usize,
    pools: &Pools<'_>,
) -> io::Result<()> {
    let mut file = [0u8; FILE_SIZE];
    let built = build_list(caller, list, count, pools, identity(), &mut file);
    lines::print_outcome(rt, b"build", built)?;
    show_plan(rt, caller, list, count, pools)?;
    if let Ok(size) = built {
        let made = &file[..size];
        lines::print_cuts(rt, made)?;
        show_file(rt, caller, made)?;
    }
    Ok(())
}

// A script on an empty list.
pub fn show_script(
    rt: &impl Print,
    caller: Caller,
    script: &[u8],
    pools: &Pools<'_>,
) -> io::Result<()> {
    let mut list = [0u32; LIST_SIZE];
    let mut count = 0;
    let edited = edit::edit(caller, &mut list, &mut count, pools, script);
    lines::print_outcome(rt, b"edit", edited.map(|()| count))?;
    if edited.is_ok() {
        show_list(rt, caller, &list, count, pools)?;
    }
    Ok(())
}

// Bytes of the file that a script without descriptors gives, where it has them.
pub fn show_bytes(
    rt: &impl Print,
    caller: Caller,
    script: &[u8],
    from: usize,
    to: usize,
) -> io::Result<()> {
    let pools = Pools::new(b"", b"");
    let mut list = [0u32; LIST_SIZE];
    let mut count = 0;
    let _ = edit::edit(caller, &mut list, &mut count, &pools, script);
    let mut file = [0u8; FILE_SIZE];
    let _ = build_list(caller, &list, count, &pools, identity(), &mut file);
    if let Some(bytes) = file.get(from..to) {
        rt.print("bytes")?;
        lines::print_bytes(rt, bytes)?;
    }
    Ok(())
}
