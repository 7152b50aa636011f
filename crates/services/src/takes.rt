// What a service takes in each field of its line, by its number and the field's place: a, b, c and d are 0, 1, 2 and 3.
// The function is a definition of specs/Takes, for every value; it rests on no other.
ghost use Rattle.std.specs.Prelude.{◌≡◌};
ghost use Rattle.services.specs.Takes.{takes_at};

// Nothing, so that the field is blank; a number; or a timeout, which may also be the endless wait.
#[derive(Clone, Copy)]
pub enum Takes {
    Blank,
    Plain,
    Timeout,
}

#[tactic(auto, unfolding(crate::specs::Takes::takes_at, crate::specs::Takes::takes_in, model::proofs::Words::table))]
fn takes_a(number: u32) -> Takes
    ensures { result ≡ takes_at number 0 }
{
    match number {
        0 => Takes::Blank,
        5 => Takes::Blank, // tn_task_exit
        9 => Takes::Timeout, // tn_task_sleep: timeout
        16 => Takes::Blank, // tn_tick_int_processing
        1..=41 => Takes::Plain,
        _ => Takes::Blank,
    }
}

#[tactic(auto, unfolding(crate::specs::Takes::takes_at, crate::specs::Takes::takes_in, model::proofs::Words::table))]
fn takes_b(number: u32) -> Takes
    ensures { result ≡ takes_at number 1 }
{
    match number {
        1 => Takes::Plain, // tn_task_create: priority
        14 => Takes::Plain, // tn_task_change_priority: priority
        15 => Takes::Plain, // tn_sys_tslice_ticks: slice
        17 => Takes::Plain, // tn_sem_create: start
        21 => Takes::Timeout, // tn_sem_acquire: timeout
        24 => Takes::Plain, // tn_event_create: attributes
        26 => Takes::Plain, // tn_event_set: pattern
        27 => Takes::Plain, // tn_event_iset: pattern
        28 => Takes::Plain, // tn_event_clear: pattern
        29 => Takes::Plain, // tn_event_iclear: pattern
        30 => Takes::Plain, // tn_event_wait: pattern
        31 => Takes::Plain, // tn_event_wait_polling: pattern
        32 => Takes::Plain, // tn_event_iwait: pattern
        34 => Takes::Plain, // tn_queue_create: capacity
        36 => Takes::Plain, // tn_queue_send: element
        37 => Takes::Plain, // tn_queue_send_polling: element
        38 => Takes::Plain, // tn_queue_isend_polling: element
        39 => Takes::Timeout, // tn_queue_receive: timeout
        _ => Takes::Blank,
    }
}

#[tactic(auto, unfolding(crate::specs::Takes::takes_at, crate::specs::Takes::takes_in, model::proofs::Words::table))]
fn takes_c(number: u32) -> Takes
    ensures { result ≡ takes_at number 2 }
{
    match number {
        1 => Takes::Plain, // tn_task_create: option
        17 => Takes::Plain, // tn_sem_create: maximum
        24 => Takes::Plain, // tn_event_create: bits
        30 => Takes::Plain, // tn_event_wait: mode
        31 => Takes::Plain, // tn_event_wait_polling: mode
        32 => Takes::Plain, // tn_event_iwait: mode
        36 => Takes::Timeout, // tn_queue_send: timeout
        _ => Takes::Blank,
    }
}

#[tactic(auto, unfolding(crate::specs::Takes::takes_at, crate::specs::Takes::takes_in, model::proofs::Words::table))]
fn takes_d(number: u32) -> Takes
    ensures { result ≡ takes_at number 3 }
{
    match number {
        30 => Takes::Timeout, // tn_event_wait: timeout
        _ => Takes::Blank,
    }
}

// A place is an index into the fields of a line, by which model's table is asked: an enum of places would be turned into it here.
pub fn takes_at(number: u32, place: u8) -> Takes
    ensures { result ≡ takes_at number place }
{
    match place {
        0 => takes_a(number),
        1 => takes_b(number),
        2 => takes_c(number),
        3 => takes_d(number),
        _ => Takes::Blank,
    }
}
