// One command of a script, decoded from its bytes (01, "Edit").
ghost use Rattle.std.specs.Prelude.{◌≡◌, suc, get_or, drop};
ghost use Rattle.script.specs.Form.{put_record, is_command, operand_bytes, command_of};
ghost use Rattle.edit_scan.specs.Commands.{model_command, whole_code_at};

use codec::fields;
use eit::Record;

// The codes are no enum: `Command` is that of the four, and bare codes would be made of a byte to be matched once more.
pub const PUT: u8 = 0x01;

pub const WITHDRAW: u8 = 0x02;

pub const MOVE: u8 = 0x03;

pub const UNDO: u8 = 0x04;

// The operand bytes of each code from 0 on, eight bits each: PUT 17, WITHDRAW 2, MOVE 6.
const OPERAND_BYTES: u64 = 0x00_06_02_11_00;

// A command with its operands.
#[derive(Clone, Copy)]
pub enum Command {
    Put(Record),
    // The id.
    Withdraw(u32),
    // The id and its new start.
    Move(u32, u32),
    Undo,
}

pub fn is_command(code: u8) -> bool
    ensures { result ≡ is_command code }
{
    PUT <= code && code <= UNDO
}

// How many operand bytes a command has: byte `code` of a number that holds them all.
// Not a match nor a table, which read plainer: measured, a pass over a script takes up to 2.3 and 1.3 times as long.
pub fn operand_bytes(code: u8) -> usize
    ensures { result ≡ operand_bytes code }
{
    if UNDO < code {
        return 0;
    }
    ((OPERAND_BYTES >> (8 * code)) % 256) as usize
}

// The code of the whole command at `at`: a known one with its operands.
pub fn code_at(script: &[u8], at: usize) -> Option<u8>
    ensures { result ≡ whole_code_at at script.now }
{
    let code = *script.get(at)?;
    (is_command(code) && operand_bytes(code) < script.len() - at).then_some(code)
}

// The record of PUT's operands, as far as there are bytes.
pub fn put_record(operands: &[u8]) -> Record
    ensures { result ≡ put_record operands.now }
{
    Record {
        id: fields::read_field(operands, 0, 2),
        start: fields::read_field(operands, 2, 4),
        duration: fields::read_field(operands, 6, 4),
        marks: fields::read_field(operands, 10, 1),
        offset: fields::read_field(operands, 11, 4),
        chain_length: fields::read_field(operands, 15, 2),
    }
}

// The command whose byte stands at `at`; any other byte than those of the edits, and none, counts as UNDO, and operands
// that are truncated as far as there are bytes.
pub fn command_at(script: &[u8], at: usize) -> Command
    ensures { model_command at result ≡ command_of (get_or script.now at 0) at (drop (suc at) script.now) }
{
    let Some(&code) = script.get(at) else {
        return Command::Undo;
    };
    let operands = &script[at + 1..];
    match code {
        PUT => Command::Put(put_record(operands)),
        WITHDRAW => Command::Withdraw(fields::read_field(operands, 0, 2)),
        MOVE => Command::Move(
            fields::read_field(operands, 0, 2),
            fields::read_field(operands, 2, 4),
        ),
        _ => Command::Undo,
    }
}
