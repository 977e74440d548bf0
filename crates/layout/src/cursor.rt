// Bytes written one after another over a slice that the caller lends.
ghost use Rattle.std.specs.Prelude.{◌≡◌};
ghost use Rattle.layout.specs.Cursors.{HasRoom, wrote};

// `at` is where the next byte goes; the bytes from there on are as the caller left them.
// The place stands beside the slice, and the slice is not cut as `Write` for `&mut [u8]` cuts it, since a body's
// calls reckon from how many bytes were written.
#[derive(Drop)]
pub struct Cursor<'a> {
    pub out: &'a mut [u8],
    pub at: usize,
}

impl<'a> Cursor<'a> {
    // Before the first byte.
    pub fn new(out: &'a mut [u8]) -> Cursor<'a>
        ensures out { result.out.now ≡ out.old }
        ensures at { result.at ≡ 0 }
        ensures lender { result.out.ghost_name ≡ out.entry.ghost_name }
    {
        Cursor { out, at: 0 }
    }

    // Writes bytes, for which there is room, and goes on behind them.
    pub fn put(&mut self, bytes: &[u8])
        requires { HasRoom self.old bytes.now }
        ensures { self.new ≡ wrote self.old bytes.now }
    {
        let end = self.at + bytes.len();
        self.out[self.at..end].copy_from_slice(bytes);
        self.at = end;
    }
}
