// Where bytes go, one after the other.
ghost use Rattle.std.specs.Prelude.{◌≡◌, [], ◌∷◌};
ghost use Rattle.reader.specs.Functions.{sequence};
ghost use Rattle.picture.specs.Writing.{digits, parameter_bytes, more_bytes, parameters_bytes, written};
ghost use Rattle.picture.specs.Tape.{tape, begun, Lays};

pub const ESC: u8 = 0x1B;

// A lent buffer and how many bytes have come. A byte past its end is counted and not kept, so that
// the length of anything is known by putting it where there is no room.
// No slice says both: the count stands beside the buffer because it may pass the buffer's end.
#[derive(Drop)]
pub struct Out<'a> {
    bytes: &'a mut [u8],
    at: usize,
}

impl<'a> Out<'a> {
    pub(crate) fn new(bytes: &'a mut [u8]) -> Out<'a>
        ensures { tape result ≡ begun bytes.entry.ghost_name bytes.old }
    {
        Out { bytes, at: 0 }
    }

    pub(crate) fn length(&self) -> usize
        ensures { result ≡ (tape self.now).at }
    {
        self.at
    }

    pub(crate) fn put(&mut self, byte: u8)
        ensures { Lays (tape self.old) (byte ∷ []) (tape self.new) }
    {
        let at = self.at;
        if at < self.bytes.len() {
            self.bytes[at] = byte;
        }
        self.at = at.saturating_add(1);
    }

    // A number without leading zeros; four digits are enough for what is written. Not by `write!`: a writer may refuse, and this one only
    // counts.
    pub(crate) fn put_number(&mut self, n: u16)
        ensures { Lays (tape self.old) (digits n) (tape self.new) }
    {
        if n >= 1000 {
            self.put(b'0' + (n / 1000) as u8);
        }
        if n >= 100 {
            self.put(b'0' + (n / 100 % 10) as u8);
        }
        if n >= 10 {
            self.put(b'0' + (n / 10 % 10) as u8);
        }
        self.put(b'0' + (n % 10) as u8);
    }

    pub(crate) fn put_all(&mut self, bytes: &[u8])
        ensures { Lays (tape self.old) bytes.now (tape self.new) }
    {
        for b in bytes {
            self.put(*b);
        }
    }

    fn put_parameter(&mut self, parameter: Option<u16>)
        ensures { Lays (tape self.old) (parameter_bytes parameter) (tape self.new) }
    {
        if let Some(n) = parameter {
            self.put_number(n);
        }
    }

    // Parameters, each after a separator.
    fn put_more(&mut self, parameters: &[Option<u16>])
        ensures { Lays (tape self.old) (more_bytes parameters.now) (tape self.new) }
    {
        for p in parameters {
            self.put(b';');
            self.put_parameter(*p);
        }
    }

    fn put_parameters(&mut self, parameters: &[Option<u16>])
        ensures { Lays (tape self.old) (parameters_bytes parameters.now) (tape self.new) }
    {
        match parameters {
            [] => {}
            [first, rest @ ..] => {
                self.put_parameter(*first);
                self.put_more(rest);
            }
        }
    }

    pub(crate) fn put_sequence(&mut self, parameters: &[Option<u16>], space: bool, final_byte: u8)
        ensures { Lays (tape self.old) (written (sequence parameters.now space final_byte)) (tape self.new) }
    {
        self.put(ESC);
        self.put(b'[');
        self.put_parameters(parameters);
        if space {
            self.put(b' ');
        }
        self.put(final_byte);
    }
}
