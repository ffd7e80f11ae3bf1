// Internal: text in a lent buffer, words in decimal and bytes in hexadecimal. Of std's `write!` only the one to a String tells what was written, and
// there is no heap.
#![tactic(auto)]

ghost use Rattle.std.specs.Prelude.{◌≡◌, [], ◌∷◌, ◌≤◌, ◌<◌, length, take};
ghost use Rattle.text.specs.Text.{decimal, hex_digit, hex};

// Writes text part behind part into a lent buffer: the next part at `at`.
#[derive(Drop)]
pub struct Writer<'a> {
    out: &'a mut [u8],
    at: usize,
    ghost inside: { at ≤ length out.now },
}

// The hexadecimal digit of a number below 16.
fn hex_digit(d: u8) -> u8
    requires { d < 16 }
    ensures { result ≡ hex_digit d }
{
    if d < 10 { 48 + d } else { 87 + d }
}

impl<'a> Writer<'a> {
    ghost use Rattle.text.specs.Put.{Starts, HasRoom, Put};

    // Begins at the start of a buffer.
    pub fn new(out: &'a mut [u8]) -> Writer<'a>
        ensures { Starts out.entry result }
    {
        Writer { out, at: 0 }
    }

    // All that was written.
    pub fn written(&self) -> &[u8]
        ensures { result.now ≡ take self.now.at self.now.out.now }
    {
        &self.out[..self.at]
    }

    // Writes one byte.
    pub fn put_byte(&mut self, byte: u8)
        requires { HasRoom self.old (byte ∷ []) }
        ensures { Put self.old (byte ∷ []) self.new }
    {
        self.out[self.at] = byte;
        self.at += 1;
    }

    // Writes bytes as they are.
    pub fn put_bytes(&mut self, bytes: &[u8])
        requires { HasRoom self.old bytes.now }
        ensures { Put self.old bytes.now self.new }
    {
        let end = self.at + bytes.len();
        self.out[self.at..end].copy_from_slice(bytes);
        self.at = end;
    }

    // Writes a word in decimal.
    #[tactic(auto, using(crate::proofs::Decimal::decimal_least, crate::proofs::Decimal::length_more))]
    pub fn put_decimal(&mut self, n: u32)
        requires { HasRoom self.old (decimal n) }
        ensures { Put self.old (decimal n) self.new }
    {
        let one_digit = n < 10;
        if one_digit {
            return self.put_byte((48 + n) as u8);
        }
        self.put_decimal(n / 10);
        self.put_byte((48 + n % 10) as u8);
    }

    // Writes a byte in hexadecimal.
    #[tactic(auto, unfolding(crate::specs::Text::hex))]
    fn put_hex_byte(&mut self, byte: u8)
        requires { HasRoom self.old (hex (byte ∷ [])) }
        ensures { Put self.old (hex (byte ∷ [])) self.new }
    {
        self.put_byte(hex_digit(byte / 16));
        self.put_byte(hex_digit(byte % 16));
    }

    // Writes bytes in hexadecimal.
    #[tactic(auto, using(crate::proofs::Hex::hex_next, crate::proofs::Put::rest_room))]
    pub fn put_hex(&mut self, bytes: &[u8])
        requires { HasRoom self.old (hex bytes.now) }
        ensures { Put self.old (hex bytes.now) self.new }
    {
        for &byte in bytes {
            self.put_hex_byte(byte);
        }
    }
}
