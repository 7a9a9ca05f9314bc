// What is made for broadcast, through the calls of both callers. A line says for whom the lines below it are.
use crate::show;
use codec::pools::Pools;
use eit::Caller;
use std::io;

// Broadcast's file for cable; then for both with its last byte changed, so with a wrong CRC_32 in its last section.
fn show_broadcast_file(rt: &impl Print, file: &mut [u8]) -> io::Result<()> {
    rt.println("for cable, broadcast's file")?;
    show::show_file(rt, Caller::Cable, file)?;
    let Some(last) = file.last_mut() else {
        return Ok(());
    };
    *last ^= 1;
    rt.println("for broadcast, the file with a wrong CRC_32")?;
    show::show_file(rt, Caller::Broadcast, file)?;
    rt.println("for cable, the file with a wrong CRC_32")?;
    show::show_file(rt, Caller::Cable, file)
}

// The list that a script makes for broadcast, for both, and broadcast's file of it.
pub fn show_exchanged(rt: &impl Print, script: &[u8], day: &[u8]) -> io::Result<()> {
    let pools = Pools::new(day, b"");
    let mut list = [0u32; show::LIST_SIZE];
    let mut count = 0;
    // A script that is refused leaves the list as its earlier edits made it.
    let _ = edit::edit(Caller::Broadcast, &mut list, &mut count, &pools, script);
    rt.println("for broadcast")?;
    show::show_list(rt, Caller::Broadcast, &list, count, &pools)?;
    rt.println("for cable")?;
    show::show_list(rt, Caller::Cable, &list, count, &pools)?;
    let mut file = [0u8; show::FILE_SIZE];
    if let Ok(size) = show::build_list(
        Caller::Broadcast,
        &list,
        count,
        &pools,
        show::identity(),
        &mut file,
    ) {
        show_broadcast_file(rt, &mut file[..size])?;
    }
    Ok(())
}
