// The service whose name, with the comma after it, begins a part of a file: of those that lists hold, all but number 33.
// Each function is a definition of specs/Names, for every value; it rests on text.
ghost use Rattle.std.specs.Prelude.{◌≡◌, ◌+◌, get_or};
ghost use Rattle.model.specs.Services.{tasks, semaphores, flags, queues};
ghost use Rattle.services.specs.Names.{labelled, name_in, name_of};

use text::words::{begins, byte_at};

// A service by its number in the table, and the length of its name with the comma.
#[derive(Clone, Copy)]
pub struct Name {
    pub number: u32,
    pub next: usize,
}

// The service of that number, if its name with the comma, t, begins s.
#[tactic(auto, unfolding(crate::specs::Names::labelled))]
fn labelled(s: &[u8], t: &[u8], number: u32) -> Option<Name>
    ensures { result ≡ labelled s.now t.now number }
{
    if begins(s, t) {
        return Some(Name {
            number,
            next: t.len(),
        });
    }
    None
}

// ---- by a few bytes that tell the names apart; the one that they leave is then compared whole
fn key(s: &[u8], i: usize, j: usize) -> u32
    ensures { result ≡ get_or s.now i 0 + get_or s.now j 0 }
{
    u32::from(byte_at(s, i)) + u32::from(byte_at(s, j))
}

fn task_name(s: &[u8]) -> Option<Name>
    ensures { result ≡ name_in tasks 1 s.now }
{
    match key(s, 8, 11) {
        196 => labelled(s, b"tn_task_create,", 1),
        201 => labelled(s, b"tn_task_delete,", 2),
        202 => labelled(s, b"tn_task_activate,", 3),
        221 => labelled(s, b"tn_task_iactivate,", 4),
        217 => labelled(s, b"tn_task_exit,", 5),
        225 => labelled(s, b"tn_task_terminate,", 6),
        227 => labelled(s, b"tn_task_suspend,", 7),
        231 => labelled(s, b"tn_task_resume,", 8),
        216 => labelled(s, b"tn_task_sleep,", 9),
        220 => labelled(s, b"tn_task_wakeup,", 10),
        212 => labelled(s, b"tn_task_iwakeup,", 11),
        215 => labelled(s, b"tn_task_release_wait,", 12),
        213 => labelled(s, b"tn_task_irelease_wait,", 13),
        209 => labelled(s, b"tn_task_change_priority,", 14),
        _ => None,
    }
}

fn semaphore_name(s: &[u8]) -> Option<Name>
    ensures { result ≡ name_in semaphores 17 s.now }
{
    match byte_at(s, 8) {
        b'r' => labelled(s, b"tn_sem_create,", 17),
        b'e' => labelled(s, b"tn_sem_delete,", 18),
        b'i' => labelled(s, b"tn_sem_signal,", 19),
        b's' => labelled(s, b"tn_sem_isignal,", 20),
        b'c' => labelled(s, b"tn_sem_acquire,", 21),
        b'o' => labelled(s, b"tn_sem_polling,", 22),
        b'p' => labelled(s, b"tn_sem_ipolling,", 23),
        _ => None,
    }
}

// Where two names have one key: no `or_else`, as what its closure promises did not reach the goal.
fn flag_name(s: &[u8]) -> Option<Name>
    ensures { result ≡ name_in flags 24 s.now }
{
    match key(s, 10, 12) {
        211 => labelled(s, b"tn_event_create,", 24),
        202 => labelled(s, b"tn_event_delete,", 25),
        145 => labelled(s, b"tn_event_set,", 26),
        231 => labelled(s, b"tn_event_iset,", 27),
        205 => labelled(s, b"tn_event_clear,", 28),
        200 => labelled(s, b"tn_event_iclear,", 29),
        213 => match labelled(s, b"tn_event_wait,", 30) {
            None => labelled(s, b"tn_event_wait_polling,", 31),
            found => found,
        },
        224 => labelled(s, b"tn_event_iwait,", 32),
        _ => None,
    }
}

fn queue_name(s: &[u8]) -> Option<Name>
    ensures { result ≡ name_in queues 34 s.now }
{
    match key(s, 9, 10) {
        213 => labelled(s, b"tn_queue_create,", 34),
        201 => labelled(s, b"tn_queue_delete,", 35),
        216 => match labelled(s, b"tn_queue_send,", 36) {
            None => labelled(s, b"tn_queue_send_polling,", 37),
            found => found,
        },
        220 => labelled(s, b"tn_queue_isend_polling,", 38),
        215 => match labelled(s, b"tn_queue_receive,", 39) {
            None => labelled(s, b"tn_queue_receive_polling,", 40),
            found => found,
        },
        219 => labelled(s, b"tn_queue_ireceive,", 41),
        _ => None,
    }
}

pub fn read_name(s: &[u8]) -> Option<Name>
    ensures { result ≡ name_of s.now }
{
    match byte_at(s, 4) {
        b'a' => task_name(s),
        b'y' => labelled(s, b"tn_sys_tslice_ticks,", 15),
        b'i' => labelled(s, b"tn_tick_int_processing,", 16),
        b'e' => semaphore_name(s),
        b'v' => flag_name(s),
        b'u' => queue_name(s),
        _ => None,
    }
}
