// The tables in which the events of many notes are put in order, each of 2,048. They are one value, so that they stand on the stack once, for
// whichever way the file is written: by lanes, window by window, or by buckets. Each step is lent those that it needs.
ghost use Rattle.std.specs.Prelude.{◌≡◌, length};

#[derive(Drop)]
pub(crate) struct Tables {
    // Where each lane's events that are left begin; or where each bucket's bytes will start.
    pub starts: [u32; 2048],
    // Where each lane's or each bucket's events end.
    pub ends: [u32; 2048],
    // Where each lane's events behind the next window begin; or the tick of the event before each bucket.
    pub next: [u32; 2048],
    // Room to sort: the events, a second table of them, and the places of their digits.
    pub a: [u64; 2048],
    pub b: [u64; 2048],
    pub places: [u16; 2048],
    // Each table is as long as its type says, also behind a reference to all of them.
    pub ghost long: { (length starts ≡ 2048) × (length ends ≡ 2048) × (length next ≡ 2048) × (length a ≡ 2048) × (length b ≡ 2048) × (length places ≡ 2048) },
}

impl Tables {
    // All of zeros.
    pub(crate) fn new() -> Tables {
        Tables {
            starts: [0; 2048],
            ends: [0; 2048],
            next: [0; 2048],
            a: [0; 2048],
            b: [0; 2048],
            places: [0; 2048],
        }
    }
}
