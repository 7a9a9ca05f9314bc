// 01's term: chain ("Event record and sound list"; 02, W-202).
ghost use Rattle.std.specs.Prelude.{◌≡◌};
ghost use Rattle.eit.specs.Chain.{is_chain};

// A chain with this descriptor tag is no chain (02, W-202).
const FORBIDDEN_TAG: u8 = 0xFF;

// Whether the bytes are zero or more descriptors that end exactly at their end, none with the forbidden tag.
pub fn is_chain(bytes: &[u8]) -> bool
    ensures { result ≡ is_chain bytes.now }
{
    let mut rest = bytes;
    while let [tag, length, ..] = rest {
        let size = 2 + usize::from(*length);
        if *tag == FORBIDDEN_TAG || rest.len() < size {
            return false;
        }
        rest = &rest[size..];
    }
    rest.is_empty()
}
