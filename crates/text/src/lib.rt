// Text in a lent buffer: a character, characters, a decimal number, a byte in two capitals. What no longer fits is left out, so that
// no public method asks anything of its caller. The digits are made here: of `write!` to a lent slice std's contract says nothing of the bytes, and
// to a writer of ours only where it answers Ok, which no contract says that it does.
#![tactic(auto)]

ghost use Rattle.std.specs.Prelude.{◌<◌, ◌≡◌, [], ◌∷◌, take};
ghost use Rattle.text.specs.Text.{digit, capital, decimal, field, four_digits, hex_byte, Pushed};

// The buffer, and the place past the text in it. No Vec: there is no heap.
#[derive(Drop)]
pub struct Text<'a> {
    pub out: &'a mut [u8],
    pub at: usize,
}

impl Text<'_> {
    // The text so far.
    pub fn stored(&self) -> &[u8]
        ensures { result.now ≡ take self.now.at self.now.out.now }
    {
        &self.out[..self.at.min(self.out.len())]
    }

    pub fn push(&mut self, character: u8)
        ensures { Pushed self.old (character ∷ []) self.new }
    {
        if self.at < self.out.len() {
            self.out[self.at] = character;
            self.at += 1;
        }
    }

    // Characters that are there already.
    pub fn push_text(&mut self, text: &[u8])
        ensures { Pushed self.old text.now self.new }
    {
        for character in text {
            self.push(*character);
        }
    }

    // The last decimal digit.
    fn push_digit(&mut self, n: u16)
        ensures { Pushed self.old (digit n ∷ []) self.new }
    {
        self.push((48 + n % 10) as u8);
    }

    fn push_four(&mut self, n: u16)
        ensures { Pushed self.old (four_digits n) self.new }
    {
        let tens = n / 10;
        let hundreds = tens / 10;
        self.push_digit(hundreds / 10);
        self.push_digit(hundreds);
        self.push_digit(tens);
        self.push_digit(n);
    }

    // A number below 10,000, without a loop: most numbers of a line are.
    fn push_short(&mut self, n: u16)
        requires { n < 10000 }
        ensures { Pushed self.old (decimal n) self.new }
    {
        let tens = n / 10;
        if n < 10 {
            self.push_digit(n);
        } else if n < 100 {
            self.push_digit(tens);
            self.push_digit(n);
        } else if n < 1000 {
            self.push_digit(tens / 10);
            self.push_digit(tens);
            self.push_digit(n);
        } else {
            self.push_four(n);
        }
    }

    // Four digits at a time, the highest first.
    fn push_long(&mut self, n: u64)
        ensures { Pushed self.old (decimal n) self.new }
    {
        let low = (n % 10000) as u16;
        if n < 10000 {
            self.push_short(low);
            return;
        }
        self.push_long(n / 10000);
        self.push_four(low);
    }

    // Up to eight digits go without the recursion, which is dearer.
    pub fn push_decimal(&mut self, n: u64)
        ensures { Pushed self.old (decimal n) self.new }
    {
        if n < 10000 {
            self.push_short(n as u16);
            return;
        }
        if n < 100000000 {
            self.push_short((n / 10000) as u16);
            self.push_four((n % 10000) as u16);
            return;
        }
        // with a place of its own: the recursion would keep this one out of the registers
        let mut long = Text {
            out: self.out,
            at: self.at,
        };
        long.push_long(n);
        self.at = long.at;
    }

    // A decimal number and a space.
    pub fn push_field(&mut self, n: u64)
        ensures { Pushed self.old (field n) self.new }
    {
        self.push_decimal(n);
        self.push(b' ');
    }

    // A number that mostly has one digit: so short that the compiler lays it into its callers.
    #[tactic(auto, using(crate::proofs::Digits::one_digit))]
    pub fn push_small(&mut self, n: u64)
        ensures { Pushed self.old (decimal n) self.new }
    {
        if n < 10 {
            self.push_digit(n as u16);
            return;
        }
        self.push_decimal(n);
    }

    // Such a number and a space.
    pub fn push_small_field(&mut self, n: u64)
        ensures { Pushed self.old (field n) self.new }
    {
        self.push_small(n);
        self.push(b' ');
    }

    // The last hexadecimal digit, a capital from 10 on.
    fn push_capital(&mut self, n: u8)
        ensures { Pushed self.old (capital n ∷ []) self.new }
    {
        let last = n % 16;
        if last < 10 {
            self.push(48 + last);
            return;
        }
        self.push(55 + last);
    }

    // A byte as two hexadecimal digits.
    pub fn push_hex(&mut self, byte: u8)
        ensures { Pushed self.old (hex_byte byte) self.new }
    {
        self.push_capital(byte / 16);
        self.push_capital(byte);
    }
}
