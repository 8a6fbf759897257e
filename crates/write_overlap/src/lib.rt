// One stored update against a run of blocks. `k` is the number of blocks that the candidate takes, `s` a start block: two plain numbers, as the
// definitions take them.
#![tactic(auto)]

ghost use Rattle.std.specs.Prelude.{◌≡◌};
ghost use Rattle.write_overlap.specs.Overlap.{touches, is_emptied, rules_out, loses, within, fills};

// A stored update has `size` blocks from `start` on; `shares` says that it covers a processor that the candidate covers, `needed` that it
// covers a listed one that the candidate doesn't.
#[derive(Clone, Copy)]
pub struct Stored {
    pub start: u8,
    pub size: u8,
    pub shares: bool,
    pub needed: bool,
}

impl Stored {
    // Does the run of `k` blocks from `s` touch the update?
    fn touches(self, k: u32, s: u32) -> bool
        ensures { result ≡ touches self.start self.size k s }
    {
        (s as usize) < self.start as usize + self.size as usize
            && (self.start as usize) < s as usize + k as usize
    }

    // Is the update emptied if the candidate goes to `s`?
    pub fn is_emptied(self, k: u32, s: u32) -> bool
        ensures { result ≡ is_emptied self.start self.size self.shares k s }
    {
        self.shares || self.touches(k, s)
    }

    // Would the update be emptied, and must it not be?
    pub fn rules_out(self, k: u32, s: u32) -> bool
        ensures { result ≡ rules_out self.start self.size self.shares self.needed k s }
    {
        self.needed && self.is_emptied(k, s)
    }

    // Is the update touched, and does it not share?
    pub fn loses(self, k: u32, s: u32) -> bool
        ensures { result ≡ loses self.start self.size self.shares k s }
    {
        !self.shares && self.touches(k, s)
    }

    // Are all blocks of the update blocks of the run?
    fn within(self, k: u32, s: u32) -> bool
        ensures { result ≡ within self.start self.size k s }
    {
        s as usize <= self.start as usize
            && self.start as usize + self.size as usize <= s as usize + k as usize
    }

    // Is the update emptied, and are not all of its blocks the run's?
    pub fn fills(self, k: u32, s: u32) -> bool
        ensures { result ≡ fills self.start self.size self.shares k s }
    {
        !self.within(k, s) && self.is_emptied(k, s)
    }
}
