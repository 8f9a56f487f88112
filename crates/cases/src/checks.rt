// Cases of the checkers of orders and rings from elsewhere.
use crate::writing::print_printed;
use answers::verifying::{order_text, ring_text};

pub fn print_order(rt: &HostRuntime, file: &[u8], order: &[u8]) -> anyhow::Result<()> {
    print_printed(rt, order_text(rt.alloc(), file, order)?)
}

pub fn print_ring(rt: &HostRuntime, file: &[u8], ring: &[u8]) -> anyhow::Result<()> {
    print_printed(rt, ring_text(rt.alloc(), file, ring)?)
}
