// Random numbers, the same in each run.
#[derive(Clone, Copy)]
pub struct Random(u64);

impl Random {
    pub fn new() -> Random {
        Random(88_172_645_463_325_252)
    }

    /// The next number of the sequence, by three shifts.
    pub fn next_number(&mut self) -> u64 {
        let mut x = self.0;
        x ^= x << 13;
        x ^= x >> 7;
        x ^= x << 17;
        self.0 = x;
        x
    }

    /// The place of one of the first so many words of 8 bytes.
    pub fn place(&mut self, words: u64) -> usize {
        ((self.next_number() % words.max(1)) as usize).saturating_mul(8)
    }
}
