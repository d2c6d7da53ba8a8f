// Lanes of notes: where the events of each that are left begin and end.
ghost use Rattle.order.specs.Notes.{events_of};
ghost use Rattle.order.specs.Queues.{Queues};

use crate::notes::Notes;

// So many lanes: the events of lane l are those of the notes from place starts[l] up to ends[l]. Two tables and no table of pairs: the caller lends
// both, and behind each window the places that `gather` wrote into a third table are copied over the starts, while the ends stay. Pairs would be made
// anew (no heap, and no table by value).
#[derive(Clone, Copy)]
pub struct Lanes<'a> {
    pub notes: Notes<'a>,
    pub starts: &'a [u32],
    pub ends: &'a [u32],
    pub count: usize,
    pub ghost queues: { Queues (events_of notes) starts.now ends.now count },
}
