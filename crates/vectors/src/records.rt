// A record: 208 octets that `layout.txt` describes, and what stands where in them.
ghost use Rattle.std.specs.Prelude.{◌+◌, ◌≤◌};

#[derive(Drop)]
pub struct Record {
    pub octets: [u8; 208],
}

impl Record {
    // N octets from a place on.
    pub fn part<const N: usize>(&self, at: usize) -> [u8; N]
        requires { at + N ≤ 208 }
    {
        let mut part = [0; N];
        part.copy_from_slice(&self.octets[at..at + N]);
        part
    }

    pub fn title(&self) -> &[u8] {
        &self.octets[4..32]
    }

    pub fn key(&self) -> [u8; 16] {
        self.part(32)
    }
}
