// Big-endian fields of any width (01, "The file of sections", "Edit").
ghost use Rattle.std.specs.Prelude.{◌≡◌, ◌+◌, ◌%◌, ◌^◌, leb};
ghost use Rattle.eit.specs.Fields.{field, big_endian};
ghost use Rattle.codec.specs.Write.{write_at};

// Whether `width` places from `at` on are among the first `size`; the sum does not wrap.
pub fn is_within(size: usize, at: usize, width: usize) -> bool
    ensures { result ≡ leb (at + width) size }
{
    width <= size && at <= size - width
}

// The number that the field of `width` bytes at `at` holds, as far as there are bytes; of a wide field the low 32 bits.
pub fn read_field(bytes: &[u8], at: usize, width: usize) -> u32
    ensures { result ≡ field at width bytes.now % 2 ^ 32 }
{
    if bytes.len() <= at {
        return 0;
    }
    let rest = &bytes[at..];
    let mut value: u32 = 0;
    for byte in &rest[..width.min(rest.len())] {
        value = (value << 8) + u32::from(*byte);
    }
    value
}

// Writes the field of `width` bytes that holds `value`.
pub fn write_field(out: &mut [u8], at: usize, width: usize, value: usize)
    ensures { out.new ≡ write_at out.old at (big_endian width value) }
{
    if !is_within(out.len(), at, width) {
        return;
    }
    let mut rest = value;
    for left in (0..width).rev() {
        out[at + left] = (rest % 256) as u8;
        rest /= 256;
    }
}
