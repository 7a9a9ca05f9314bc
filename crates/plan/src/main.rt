// Program plan (01, "Samples with the cuts marked"): the sections of the schedule that a script on standard input
// makes.
#![tactic(auto)]

ghost use Rattle.std.specs.Prelude.{◌≡◌, ◌+◌, ◌*◌, ◌≤◌, length, IfOk};
ghost use Rattle.eit.specs.Records.{lent_list};
ghost use Rattle.eit.specs.Overwrite.{overwrite};
ghost use Rattle.plan.specs.PlanText.{list_text, text_within, plan_text, text_max, Written};
ghost use Rattle.plan.specs.Reading.{is_read_into};

use codec::pools::Pools;
use eit::Caller;
use refusal::Refusal;
use std::io;
use std::io::Read;

// Bytes of a script at most, numbers of the list's buffer, and bytes of the output and of the text.
const SCRIPT_MAX: usize = 65_536;

const BUFFER_SIZE: usize = 12_288;

const OUTPUT_SIZE: usize = 65_536;

const TEXT_SIZE: usize = 262_208;

// A Modified Julian Date.
const BASE_DAY: u32 = 49_273;

// The text for a list, with a lent output for Build. Returns how many of its bytes had room.
fn write_built(list: &[u32], count: usize, output: &mut [u8], text: &mut [u8]) -> usize
    ensures { Written text.old (list_text output.old (lent_list list.now count))
        text.new result
        (4 * length output.old + 64) }
{
    match build::build(
        Caller::Broadcast,
        list,
        count,
        &Pools::new(b"", b""),
        BASE_DAY,
        eit::zero_identity(),
        output,
    ) {
        Ok(size) => plan_listing::write_listing(text, &output[..size]),
        Err(refusal) => plan_listing::write_refused(text, refusal.number()),
    }
}

// The text for a script, in a lent buffer for the list and with a lent output. Returns how many of its bytes had room.
fn write_within(script: &[u8], list: &mut [u32], output: &mut [u8], text: &mut [u8]) -> usize
    ensures { Written text.old (text_within list.old output.old script.now)
        text.new result (4 * length output.old + 64) }
{
    if SCRIPT_MAX < script.len() {
        return plan_listing::write_too_long(text);
    }
    let mut count = 0;
    let pools = Pools::new(b"", b"");
    match edit::edit(Caller::Broadcast, list, &mut count, &pools, script) {
        Ok(()) => write_built(list, count, output, text),
        Err(refusal) => plan_listing::write_refused(text, refusal.number()),
    }
}

// The text for a script, whole: the buffer has room for every text. Returns the text's length.
fn plan_text(script: &[u8], text: &mut [u8]) -> usize
    requires { text_max ≤ length text.old }
    ensures { (text.new ≡ overwrite text.old 0 (plan_text script.now))
        × (result ≡ length (plan_text script.now))
        × (result ≤ text_max) }
{
    let mut list = [0u32; BUFFER_SIZE];
    let mut output = [0u8; OUTPUT_SIZE];
    write_within(script, &mut list, &mut output, text)
}

// Reads on until the input ends or the buffer is full; the library's call that does so needs a heap. Returns how many
// bytes stand at the buffer's front.
fn read_input<R: Read>(input: &mut R, buffer: &mut [u8]) -> io::Result<usize>
    ensures { IfOk result (λ n. is_read_into n buffer.new) }
{
    let mut n = 0;
    while n < buffer.len() {
        let more = input.read(&mut buffer[n..])?;
        if more == 0 {
            break;
        }
        n += more;
    }
    Ok(n)
}

fn main(rt: HostRuntime) {
    let mut script = [0u8; SCRIPT_MAX + 1];
    let Ok(size) = read_input(&mut rt.stdin(), &mut script) else {
        let _ = rt.eprintln("plan: standard input cannot be read");
        return;
    };
    let mut text = [0u8; TEXT_SIZE];
    let n = plan_text(&script[..size], &mut text);
    if rt.write_all(&text[..n]).is_err() {
        let _ = rt.eprintln("plan: standard output cannot be written");
    }
}
