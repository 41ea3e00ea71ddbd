// The scheduler as a struct from its array of bytes, and the array from the struct: each table by itself.
// Of the sets of queues, kind 0 has those of the mutexes and kind 1 those of the condition variables; a kind is taken modulo 2 and a set modulo 33.
#![tactic(auto)]

ghost use Rattle.std.specs.Prelude.{◌≡◌, ◌+◌, ◌%◌};
ghost use Rattle.laws.specs.Lists.{tabulate};
ghost use Rattle.place_tables.specs.Cells.{thread_in, link_in, queue_in, set_in, mutex_in, tie_in, scheduler_in};
ghost use Rattle.place_packing.specs.Tables.{first_set, with_rows, with_next, with_levels, with_sets, with_mutexes, with_ties};

use place_tables::{
    CELLS, Cells, MUTEX_SETS, READY_SET, link_at, mutex_at, put_link, put_mutex, put_queue,
    put_running, put_thread, put_tie, queue_at, running_at, thread_at, tie_at,
};
use queue::{Levels, Links, Next, Queues};
use std::array;
use value_effects::{MutexTable, OBJECTS, Scheduler, Sets, Ties};
use value_tables::{ThreadTable, Threads};

// The kinds of sets besides the ready queues.
const KINDS: u8 = 2;

// The kind of the sets of the mutexes.
const FOR_MUTEXES: u8 = 0;

// The kind of the sets of the condition variables.
const ON_CONDITIONS: u8 = 1;

// The rows of the threads.
fn rows_in(cells: &Cells) -> ThreadTable
    ensures { result ≡ tabulate 32 (thread_in cells.now) }
{
    array::from_fn(|t| thread_at(cells, t as u8))
}

// The links of the threads.
fn links_in(cells: &Cells) -> Next
    ensures { result ≡ tabulate 32 (link_in cells.now) }
{
    array::from_fn(|t| link_at(cells, t as u8))
}

// The queues of set n.
fn levels_in(cells: &Cells, n: u8) -> Levels
    ensures { result ≡ tabulate 16 (queue_in cells.now (n % 33)) }
{
    array::from_fn(|p| queue_at(cells, n, p as u8))
}

// The sets of a kind.
fn sets_in(cells: &Cells, kind: u8) -> Sets
    ensures { result ≡ tabulate 16 (λ m. set_in cells.now (first_set kind + m)) }
{
    let first = MUTEX_SETS + kind % KINDS * OBJECTS;
    array::from_fn(|m| Queues {
        levels: levels_in(cells, first + m as u8),
    })
}

// The rows of the mutexes.
pub fn mutexes_in(cells: &Cells) -> MutexTable
    ensures { result ≡ tabulate 16 (mutex_in cells.now) }
{
    array::from_fn(|m| mutex_at(cells, m as u8))
}

// The ties of the condition variables.
pub fn ties_in(cells: &Cells) -> Ties
    ensures { result ≡ tabulate 16 (tie_in cells.now) }
{
    array::from_fn(|c| tie_at(cells, c as u8))
}

// The scheduler that stands in an array of bytes.
pub fn unpacked(cells: &Cells) -> Scheduler
    ensures { result ≡ scheduler_in cells.now }
{
    Scheduler {
        threads: Threads {
            rows: rows_in(cells),
            links: Links {
                next: links_in(cells),
            },
            ready: Queues {
                levels: levels_in(cells, READY_SET),
            },
        },
        mutexes: mutexes_in(cells),
        formutex: sets_in(cells, FOR_MUTEXES),
        ties: ties_in(cells),
        oncondition: sets_in(cells, ON_CONDITIONS),
        running: running_at(cells),
    }
}

// Each table is put by a loop of its own: one for all would say what its closure does at each row, in more lines than the loops.

// Other rows of the threads.
fn put_rows(cells: &mut Cells, rows: ThreadTable)
    ensures { scheduler_in cells.new ≡ with_rows (scheduler_in cells.old) rows }
{
    for (t, row) in rows.iter().enumerate() {
        put_thread(cells, t as u8, *row);
    }
}

// Other links of the threads.
fn put_links(cells: &mut Cells, next: Next)
    ensures { scheduler_in cells.new ≡ with_next (scheduler_in cells.old) next }
{
    for (t, link) in next.iter().enumerate() {
        put_link(cells, t as u8, *link);
    }
}

// Other queues in set n.
fn put_levels(cells: &mut Cells, n: u8, levels: Levels)
    ensures { scheduler_in cells.new ≡ with_levels (scheduler_in cells.old) (n % 33) levels }
{
    for (p, queue) in levels.iter().enumerate() {
        put_queue(cells, n, p as u8, *queue);
    }
}

// Other sets of a kind. It is inlined, as `packed` is, so that where the sets are known to be empty no queue is put by itself.
#[inline(always)]
fn put_sets(cells: &mut Cells, kind: u8, sets: Sets)
    ensures { scheduler_in cells.new ≡ with_sets (scheduler_in cells.old) kind sets }
{
    let first = MUTEX_SETS + kind % KINDS * OBJECTS;
    for (m, set) in sets.iter().enumerate() {
        put_levels(cells, first + m as u8, set.levels);
    }
}

// Other rows of the mutexes.
fn put_mutexes(cells: &mut Cells, rows: MutexTable)
    ensures { scheduler_in cells.new ≡ with_mutexes (scheduler_in cells.old) rows }
{
    for (m, row) in rows.iter().enumerate() {
        put_mutex(cells, m as u8, *row);
    }
}

// Other ties of the condition variables.
fn put_ties(cells: &mut Cells, ties: Ties)
    ensures { scheduler_in cells.new ≡ with_ties (scheduler_in cells.old) ties }
{
    for (c, tie) in ties.iter().enumerate() {
        put_tie(cells, c as u8, *tie);
    }
}

// The array of bytes in which a scheduler stands.
#[inline(always)]
pub fn packed(scheduler: Scheduler) -> Cells
    ensures { scheduler_in result ≡ scheduler }
{
    let mut cells = [0u8; CELLS];
    put_rows(&mut cells, scheduler.threads.rows);
    put_links(&mut cells, scheduler.threads.links.next);
    put_levels(&mut cells, READY_SET, scheduler.threads.ready.levels);
    put_mutexes(&mut cells, scheduler.mutexes);
    put_sets(&mut cells, FOR_MUTEXES, scheduler.formutex);
    put_ties(&mut cells, scheduler.ties);
    put_sets(&mut cells, ON_CONDITIONS, scheduler.oncondition);
    put_running(&mut cells, scheduler.running);
    cells
}
