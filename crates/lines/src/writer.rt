//! Writing the parts of a line into the caller's buffer, one behind another.

ghost use Rattle.std.specs.Prelude.{◌≡◌, ◌+◌, ◌<◌, ◌≤◌, [], ◌∷◌, length, decimal};

use address::Ipv4;

/// The caller's buffer, and the place behind what is written of the line.
// A buffer with a place and no String: the memory is the caller's and nothing is allocated.
#[derive(Drop)]
pub(crate) struct LineWriter<'a> {
    buffer: &'a mut [u8],
    place: usize,
    ghost within: { place ≤ length buffer.now },
}

impl<'a> LineWriter<'a> {
    ghost use Rattle.lines.specs.Lines.{dotted};
    ghost use Rattle.lines.specs.Writes.{text, rest, room, Wrote};

    /// Nothing is written yet.
    pub(crate) fn new(buffer: &'a mut [u8]) -> LineWriter<'a>
        ensures text { text result ≡ [] }
        ensures rest { rest result ≡ buffer.old }
        ensures same { result.buffer.ghost_name ≡ buffer.entry.ghost_name }
    {
        LineWriter { buffer, place: 0 }
    }

    /// How long the line is so far.
    pub(crate) fn len(&self) -> usize
        ensures { result ≡ length (text self.now) }
    {
        self.place
    }

    pub(crate) fn byte(&mut self, byte: u8)
        requires { 0 < room self.old }
        ensures { Wrote self.old (byte ∷ []) self.new }
    {
        // Read once: behind the write the compiler would load it again.
        let place = self.place;
        self.buffer[place] = byte;
        self.place = place + 1;
    }

    pub(crate) fn bytes(&mut self, bytes: &[u8])
        requires { length bytes.now ≤ room self.old }
        ensures { Wrote self.old bytes.now self.new }
    {
        let end = self.place + bytes.len();
        self.buffer[self.place..end].copy_from_slice(bytes);
        self.place = end;
    }

    /// Writes a number in decimal. By hand, since nothing says of a `write!` that it succeeds where there is room.
    fn decimal(&mut self, n: u64)
        requires { length (decimal n) ≤ room self.old }
        ensures { Wrote self.old (decimal n) self.new }
    {
        if n < 10 {
            self.byte(b'0' + n as u8);
        } else {
            self.decimal(n / 10);
            self.byte(b'0' + (n % 10) as u8);
        }
    }

    /// Writes a mark, and a number in decimal behind it.
    pub(crate) fn number(&mut self, mark: u8, n: u64)
        requires { length (decimal n) < room self.old }
        ensures { Wrote self.old (mark ∷ decimal n) self.new }
    {
        self.byte(mark);
        self.decimal(n);
    }

    /// Writes a space, and a size in decimal behind it.
    #[tactic(auto, using(crate::proofs::Sizes::size_short))]
    pub(crate) fn size(&mut self, n: usize)
        requires { 20 < room self.old }
        ensures wrote { Wrote self.old (32 ∷ decimal n) self.new }
        ensures short { length (decimal n) ≤ 20 }
    {
        self.number(b' ', n as u64);
    }

    /// Writes a mark, and an octet in decimal behind it. Digit by digit, since `decimal` takes longer.
    #[tactic(auto, using(crate::proofs::Sizes::octet_short))]
    fn octet(&mut self, mark: u8, octet: u8)
        requires { 3 < room self.old }
        ensures wrote { Wrote self.old (mark ∷ decimal octet) self.new }
        ensures short { length (decimal octet) ≤ 3 }
    {
        self.byte(mark);
        if octet >= 100 {
            self.byte(b'0' + octet / 100);
        }
        if octet >= 10 {
            self.byte(b'0' + octet / 10 % 10);
        }
        self.byte(b'0' + octet % 10);
    }

    /// Writes a space, and behind it an address as four decimal numbers with dots between.
    #[tactic(auto, using(crate::proofs::Writes::room_left, crate::proofs::Sizes::dotted_short))]
    pub(crate) fn address(&mut self, address: Ipv4)
        requires { 15 < room self.old }
        ensures wrote { Wrote self.old (32 ∷ dotted address.value) self.new }
        ensures short { length (dotted address.value) ≤ 15 }
    {
        let [one, two, three, four] = address.value().to_be_bytes();
        self.octet(b' ', one);
        self.octet(b'.', two);
        self.octet(b'.', three);
        self.octet(b'.', four);
    }
}
