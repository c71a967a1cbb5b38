// The record of a pool with its free queue and its counter, in place of pool.rs's `free`, `free_count` and `next_generation`. The record
// goes by value, in and out. `push_free`, `pop_free` and `next_generation` are the Rust's; none refuses: the caller has seen that there is
// room, a free slot, or a generation left.
#![tactic(auto)]

ghost use Rattle.std.specs.Prelude.{◌≡◌, ◌<◌};
ghost use Rattle.limits.specs.Limits.{last_counter};
ghost use Rattle.pool_state.specs.State.{choosing};
ghost use Rattle.pool_state.specs.Queue.{pushed, popped, ticked};

// What was chosen at mount: how many slot rows and how many directory rows are lent.
#[derive(Clone, Copy)]
pub struct Chosen {
    pub rows: usize,
    pub dir_rows: usize,
}

// So many rows of each, and nothing else chosen.
pub fn choose(rows: usize, dir_rows: usize) -> Chosen
    ensures { result ≡ choosing rows dir_rows }
{
    Chosen { rows, dir_rows }
}

// What was chosen; the rows held, of slots and of directories; the next generation; the first `free` cells of `queue` are the free slots,
// oldest first.
#[derive(Clone, Copy)]
pub struct Pool {
    pub chosen: Chosen,
    pub held: usize,
    pub dirs: usize,
    pub counter: u64,
    pub free: usize,
    pub queue: [u8; 64],
}

// The slot that was first in the queue, and the record without it.
#[derive(Clone, Copy)]
pub struct Popped {
    pub slot: usize,
    pub pool: Pool,
}

// The slot joins the queue's end.
#[tactic(auto, unfolding(crate::specs::Queue::pushed))]
pub fn push_free(pool: Pool, slot: usize) -> Pool
    requires { (pool.free < 64) × (slot < 64) }
    ensures { result ≡ pushed slot pool }
{
    let at = pool.free;
    let mut r = pool;
    r.queue[at] = slot as u8;
    r.free = at + 1;
    r
}

// The first of the queue leaves it.
pub fn pop_free(pool: Pool) -> Popped
    requires { 0 < pool.free }
    ensures { result ≡ popped pool }
{
    let mut r = pool;
    r.queue.rotate_left(1);
    r.queue[63] = 0;
    r.free = pool.free - 1;
    Popped {
        slot: pool.queue[0] as usize,
        pool: r,
    }
}

// The counter's generation is spent: it is the caller's, who has read it from the record.
#[tactic(auto, unfolding(crate::specs::Queue::ticked))]
pub fn next_generation(pool: Pool) -> Pool
    requires { pool.counter < last_counter }
    ensures { result ≡ ticked pool }
{
    let mut r = pool;
    r.counter = pool.counter + 1;
    r
}
