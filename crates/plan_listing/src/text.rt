// Text into a lent buffer: what has no room is left out.
ghost use Rattle.std.specs.Prelude.{◌≡◌};
ghost use Rattle.plan_listing.specs.Listing.{number_then};
ghost use Rattle.plan_listing.specs.Writes.{Writes};

// A lent buffer, and the offset behind what was written into it.
#[derive(Drop)]
pub struct Writer<'a> {
    pub out: &'a mut [u8],
    pub end: usize,
}

impl<'a> Writer<'a> {
    pub fn new(out: &'a mut [u8]) -> Writer<'a>
        ensures { (result.out ≡ out.entry) × (result.end ≡ 0) }
    {
        Writer { out, end: 0 }
    }

    pub fn text(&mut self, text: &[u8])
        ensures { Writes self.old text.now self.new }
    {
        let out = &mut *self.out;
        let at = self.end;
        if at <= out.len() {
            let n = (out.len() - at).min(text.len());
            out[at..at + n].copy_from_slice(&text[..n]);
            self.end += n;
        }
    }

    // A number in decimal, and one byte behind it. By no format: its bytes are known of a String alone (no heap).
    pub fn number(&mut self, number: usize, after: u8)
        ensures { Writes self.old (number_then number after) self.new }
    {
        let mut digits = [0u8; 20];
        let n = io::decimal(number as u64, &mut digits);
        self.text(&digits[..n]);
        self.text(&[after]);
    }
}
