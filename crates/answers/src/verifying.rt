// What `verify` prints.
ghost use Rattle.answers.specs.Verifying.{PrintsAnswer, OrderChecked, RingChecked};
ghost use Rattle.std.specs.Prelude.{◌≡◌, ℕ, List, IfOk, string_bytes};

use crate::printed::{Printed, answered, turned_away};
use grounds::checking::verify_ring;
use report::{order_verdict_text, ring_verdict_text};
use std::alloc::{AllocError, Global};
use tables::orders::verify_order;
use tables::refusal::Refusal;

// What is printed of a check: what it says, by its text, or the refusal. Or want of memory for the text.
fn checked<V, F: FnOnce(Global, V) -> Result<String, AllocError>>(
    heap: Global,
    answer: Result<V, Refusal>,
    text_of: F,
) -> Result<Printed, AllocError>
    requires { F.IsAlwaysCallable text_of }
    ensures { (text : V → List ℕ) → ((v : V) (r : _) → F.post text_of heap v r → IfOk r (λ s. string_bytes s ≡ text v)) → IfOk result (λ p. PrintsAnswer text p answer) }
{
    match answer {
        Ok(verdict) => Ok(answered(text_of(heap, verdict)?)),
        Err(refusal) => turned_away(heap, refusal),
    }
}

// What is printed of an order from elsewhere for the file of a table: that it fits, or what it tears, or a refusal. Or want of memory for the text.
pub fn order_text(heap: Global, file: &[u8], order: &[u8]) -> Result<Printed, AllocError>
    ensures { IfOk result (OrderChecked file.now order.now) }
{
    checked(heap, verify_order(file, order), order_verdict_text)
}

// What is printed of a ring from elsewhere for the file of a table: that it is a ground, or where it does not clash, or a refusal. Or want of memory for the text.
pub fn ring_text(heap: Global, file: &[u8], ring: &[u8]) -> Result<Printed, AllocError>
    ensures { IfOk result (RingChecked file.now ring.now) }
{
    checked(heap, verify_ring(file, ring), ring_verdict_text)
}
