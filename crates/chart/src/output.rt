ghost use Rattle.std.specs.Prelude.{◌≡◌, ◌+◌, ◌≤◌, length};
ghost use Rattle.chart.specs.Putting.{Fits, Puts};

// A lent output, and the place in it where the next byte goes.
#[derive(Drop)]
pub struct Output<'a> {
    bytes: &'a mut [u8],
    place: usize,
}

impl<'a> Output<'a> {
    // The output from its front on.
    pub fn new(bytes: &'a mut [u8]) -> Output<'a>
        ensures bytes { result.bytes.now ≡ bytes.old }
        ensures front { result.place ≡ 0 }
        ensures same_reference { result.bytes.ghost_name ≡ bytes.entry.ghost_name }
    {
        Output { bytes, place: 0 }
    }

    // Puts the bytes at the place, and goes on behind them.
    pub fn put(&mut self, bytes: &[u8])
        requires { Fits self.old bytes.now }
        ensures { Puts self.old bytes.now self.new }
    {
        let end = self.place + bytes.len();
        self.bytes[self.place..end].copy_from_slice(bytes);
        self.place = end;
    }
}
