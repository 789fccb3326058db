ghost use Rattle.std.specs.Prelude.{◌≡◌, ℕ, ◌+◌, ◌-◌, ◌<◌, ◌≤◌, ◌==◌, [], ◌∷◌, ◌++◌, All, IfOk, count_by, drop, false, length, map, not, replicate, slice_set, vec_capacity};
ghost use Rattle.std.specs.List.{list_any};
ghost use Rattle.channel_scheduler.specs.Channels.{queue_at};

use arrayvec::ArrayVec;
use channel_alu::MicroOp;
use std::alloc::{AllocError, Global};
use std::marker::Model;

/// The most operations that wait for a channel.
const MOST: usize = 8;

/// What waits for each channel, at most 8 operations.
///
/// Every operation is issued to every channel, so that each queue is an end of the last operations issued. They are kept
/// once, and for each channel how many of them wait for it. Whether anything waits, and whether a backlog is 8, is told
/// by two counts. The room for the operations is reserved when it is made.
#[derive(Drop)]
pub(crate) struct Queues {
    recent: Vec<MicroOp>,
    backlogs: ArrayVec<usize, 12>,
    waiting: usize,
    full: usize,
}

impl Model for Queues {
    ghost use Rattle.std.specs.Prelude.{◌≤◌, List, vec_capacity};
    ghost use Rattle.channel_alu.specs.declared.operation.MicroOp.{MicroOp as Operation};
    ghost use Rattle.channel_scheduler.specs.Queues.{AreCounts, queues_of};

    ghost Value = { List (List Operation) };

    ghost view = { λ queues. queues_of queues.recent.items queues.backlogs.items };

    ghost invariant = { λ queues. AreCounts queues.recent.items queues.backlogs.items queues.waiting queues.full × (8 ≤ vec_capacity queues.recent) };
}

impl Queues {
    /// Queues of so many channels, in which nothing waits. AllocError where memory runs out.
    pub(crate) fn make(alloc: Global, channels: usize) -> Result<Queues, AllocError>
        requires { channels ≤ 12 }
        ensures { IfOk result (λ queues. queues ≡ replicate channels []) }
    {
        let recent = Vec::with_capacity(alloc, MOST)?;
        let mut backlogs = ArrayVec::new();
        for _i in 0..channels {
            backlogs.push(0);
        }
        Ok(Queues {
            recent,
            backlogs,
            waiting: 0,
            full: 0,
        })
    }

    /// The number of channels.
    pub(crate) fn channels(&self) -> usize
        ensures { result ≡ length self.now }
    {
        self.backlogs.len()
    }

    /// Whether something waits.
    pub(crate) fn is_behind(&self) -> bool
        ensures { result ≡ list_any (λ queue. not (length queue == 0)) self.now }
    {
        0 < self.waiting
    }

    /// Whether a backlog is 8.
    pub(crate) fn is_blocked(&self) -> bool
        ensures { result ≡ list_any (λ queue. length queue == 8) self.now }
    {
        0 < self.full
    }

    /// How many operations wait for channel i.
    pub(crate) fn backlog(&self, i: usize) -> usize
        requires { i < length self.now }
        ensures { result ≡ length (queue_at self.now i) }
    {
        self.backlogs[i]
    }

    /// The first operation that waits for channel i.
    pub(crate) fn first(&self, i: usize) -> &MicroOp
        requires channel { i < length self.now }
        requires waits { 0 < length (queue_at self.now i) }
        ensures { queue_at self.now i ≡ result.now ∷ drop 1 (queue_at self.now i) }
    {
        &self.recent[self.recent.len() - self.backlogs[i]]
    }

    /// The first operation that waits for channel i waits no longer.
    pub(crate) fn drop_first(&mut self, i: usize)
        requires channel { i < length self.old }
        requires waits { 0 < length (queue_at self.old i) }
        ensures { self.new ≡ slice_set self.old i (drop 1 (queue_at self.old i)) }
    {
        let backlog = self.backlogs[i];
        put(&mut self.backlogs, i, backlog - 1);
        self.waiting -= 1;
        if backlog == MOST {
            self.full -= 1;
        }
    }

    /// An operation is put at the end of each queue.
    pub(crate) fn push_in_all(&mut self, op: MicroOp)
        requires { list_any (λ queue. length queue == 8) self.old ≡ false }
        ensures { self.new ≡ map (λ queue. queue ++ op ∷ []) self.old }
    {
        make_room(&mut self.recent, self.waiting);
        push_last(&mut self.recent, op);
        one_more_in_all(&mut self.backlogs);
        self.full = eights(&self.backlogs, self.recent.len());
        self.waiting += self.backlogs.len();
    }
}

/// Makes room for an operation more, where at most 7 of the last operations wait for any channel. What waits for a channel
/// stays at the end.
fn make_room(recent: &mut Vec<MicroOp>, waiting: usize)
    requires { length recent.old.items ≤ 8 }
    ensures room { length recent.new.items < 8 }
    ensures capacity { vec_capacity recent.new ≡ vec_capacity recent.old }
    ensures kept { (backlog : ℕ)
        → backlog ≤ length recent.old.items
        → backlog < 8
        → (waiting ≡ 0 → backlog ≡ 0)
        → (backlog ≤ length recent.new.items)
        × (drop (length recent.new.items - backlog) recent.new.items ≡ drop (length recent.old.items - backlog) recent.old.items) }
{
    if waiting == 0 {
        recent.clear();
    } else if recent.len() == MOST {
        recent.remove(0);
    }
}

/// An operation is put after the last, where there is room.
fn push_last(recent: &mut Vec<MicroOp>, op: MicroOp)
    requires { length recent.old.items < vec_capacity recent.old }
    ensures items { recent.new.items ≡ recent.old.items ++ op ∷ [] }
    ensures capacity { vec_capacity recent.old ≤ vec_capacity recent.new }
{
    let _ = recent.push(op);
}

/// One operation more waits for each channel.
fn one_more_in_all(backlogs: &mut ArrayVec<usize, 12>)
    requires { All (λ backlog. backlog < 8) backlogs.old.items }
    ensures { backlogs.new.items ≡ map (λ backlog. backlog + 1) backlogs.old.items }
{
    for i in 0..backlogs.len() {
        let backlog = backlogs[i] + 1;
        put(backlogs, i, backlog);
    }
}

/// How many backlogs are 8, where no backlog is more than so many.
fn eights(backlogs: &ArrayVec<usize, 12>, most: usize) -> usize
    requires { All (λ backlog. backlog ≤ most) backlogs.now.items }
    ensures { result ≡ count_by (λ backlog. backlog == 8) backlogs.now.items }
{
    if most < MOST {
        return 0;
    }
    let mut full = 0;
    for i in 0..backlogs.len() {
        full += usize::from(backlogs[i] == MOST);
    }
    full
}

/// The backlog of channel i becomes another.
fn put(backlogs: &mut ArrayVec<usize, 12>, i: usize, backlog: usize)
    requires { i < length backlogs.old.items }
    ensures { backlogs.new.items ≡ slice_set backlogs.old.items i backlog }
{
    backlogs[i] = backlog;
}
