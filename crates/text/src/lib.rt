// A text that grows piece by piece in a lent buffer, and the lines that a program gives in place of its answer.

#![tactic(auto)]

ghost use Rattle.std.specs.Prelude.{◌++◌};
ghost use Rattle.text.specs.Text.{decimal, signed, refusal as line_of, too_long};

use jobs::Refusal;

// The most bytes that an input may have.
pub const MOST_BYTES: usize = 32_768;

// A text that grows in a lent buffer, and where its next byte goes. What the buffer has no room for is left out.
#[derive(Drop)]
pub struct Text<'a> {
    pub buffer: &'a mut [u8],
    pub at: usize,
}

impl<'a> Text<'a> {
    ghost use Rattle.text.specs.Growing.{Begins, Puts};

    // No text yet.
    pub fn new(buffer: &'a mut [u8]) -> Text<'a>
        ensures { Begins buffer.entry result }
    {
        Text { buffer, at: 0 }
    }

    // Bytes.
    pub fn put(&mut self, bytes: &[u8])
        ensures { Puts bytes.now self.old self.new }
    {
        let room = self.buffer.len().saturating_sub(self.at);
        let count = bytes.len().min(room);
        if 0 < count {
            let end = self.at + count;
            self.buffer[self.at..end].copy_from_slice(&bytes[..count]);
            self.at = end;
        }
    }

    // A number in decimal.
    pub fn put_decimal(&mut self, n: u64)
        ensures { Puts (decimal n) self.old self.new }
    {
        let mut digits = [0; 20];
        let count = io::decimal(n, &mut digits);
        self.put(&digits[..count]);
    }

    // A number after a text.
    pub fn put_labelled(&mut self, label: &[u8], n: u64)
        ensures { Puts (label.now ++ decimal n) self.old self.new }
    {
        self.put(label);
        self.put_decimal(n);
    }

    // A signed number in decimal.
    pub fn put_signed(&mut self, n: i64)
        ensures { Puts (signed n) self.old self.new }
    {
        if n < 0 {
            self.put(b"-");
        }
        self.put_decimal(n.unsigned_abs());
    }

    // The number of a refusal: 20 to 25, which reading a file gives, and every other one.
    fn put_number(&mut self, number: u32)
        ensures { Puts (decimal number) self.old self.new }
    {
        match number {
            20 => self.put(b"20"),
            21 => self.put(b"21"),
            22 => self.put(b"22"),
            23 => self.put(b"23"),
            24 => self.put(b"24"),
            25 => self.put(b"25"),
            _ => self.put_decimal(u64::from(number)),
        }
    }

    // The line of a refusal.
    pub fn put_refusal(&mut self, refusal: Refusal)
        ensures { Puts (line_of refusal) self.old self.new }
    {
        self.put(b"refused ");
        self.put_number(u32::from(refusal.reason));
        self.put_labelled(b" at ", refusal.place as u64);
        self.put(b"\n");
    }

    // The line on an input of more than MOST_BYTES bytes.
    pub fn put_too_long(&mut self)
        ensures { Puts too_long self.old self.new }
    {
        self.put(b"too long\n");
    }
}
